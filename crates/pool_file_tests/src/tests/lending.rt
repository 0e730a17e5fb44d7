//! Readers that lend contents: none, all, or those of some sizes. What is read and judged is what a
//! copy of the bytes gives.

ghost use Rattle.std.specs.Prelude.{Some};

use super::files::{ONE_BYTE_MORE, READS, VERSION_1, VERSION_2, changed};
use super::judged::code_of_judging;
use super::lines::file_of;
use super::parts::{code_of, printed};
use byte_devices::{Counted, Lends, Lent};
use git_names::{Sha1Naming, TailNaming};
use pool_file_checks::read_judged_by;
use pool_file_format::{Fault, read_sealed_by};
use std::alloc::Global;
use std::io;
use std::io::Read;

// From how many bytes on and up to how many a reader lends them at once.
type Sizes = (u64, u64);

const NONE: Sizes = (1, 0);

const ALL: Sizes = (0, u64::MAX);

const WAYS: &[Sizes] = &[NONE, ALL, (0, 6), (7, 70), (71, u64::MAX)];

// A commit, two trees, a blob and a tag, of 98, 0, 29, 6 and 67 bytes.
const FIVE_OBJECTS: &[u8] = b".2 cefbt t10324MV";

// Bytes that are read from the first to the last, and lent in pieces of these sizes.
#[derive(Drop)]
struct Lender {
    left: &'static [u8],
    sizes: Sizes,
}

impl Read for Lender {
    ghost remaining = { λ r. Some r.left.now };

    fn read(&mut self, buf: &mut [u8]) -> io::Result<usize> {
        self.left.read(buf)
    }
}

impl Lends for Lender {
    fn lend(&mut self, count: u64) -> Option<&'static [u8]> {
        let (least, most) = self.sizes;
        if count < least || count > most || count > self.left.len() as u64 {
            return None;
        }
        let (bytes, left) = self.left.split_at(count as usize);
        self.left = left;
        Some(bytes)
    }
}

fn reader_of(bytes: &'static [u8], sizes: Sizes) -> Counted<Lender> {
    Counted::new(Lender { left: bytes, sizes })
}

fn code_when_lent(alloc: Global, bytes: &'static [u8], sizes: Sizes) -> u16 {
    let mut reader = reader_of(bytes, sizes);
    code_of(read_judged_by::<TailNaming, Lender, Lent>(alloc, &TailNaming, &mut reader))
}

fn are_judged_alike(alloc: Global, bytes: &'static [u8]) -> bool {
    let code = code_of_judging(alloc, &TailNaming, bytes);
    for sizes in WAYS {
        if code_when_lent(alloc, bytes, *sizes) != code {
            return false;
        }
    }
    true
}

fn are_fronts_judged_alike(alloc: Global, file: &'static [u8]) -> bool {
    for size in 0..file.len() {
        if !are_judged_alike(alloc, file.split_at(size).0) {
            return false;
        }
    }
    true
}

fn is_change_judged_alike(alloc: Global, file: &[u8], place: usize) -> Result<bool, Fault> {
    let bytes = changed(alloc, file, &[place])?;
    Ok(are_judged_alike(alloc, bytes.leak()))
}

fn are_changes_judged_alike(alloc: Global, file: &[u8]) -> Result<bool, Fault> {
    for place in 0..file.len() {
        if !is_change_judged_alike(alloc, file, place)? {
            return Ok(false);
        }
    }
    Ok(true)
}

// Whether a file that is lent so has the same bytes when it is printed again.
fn comes_back(alloc: Global, bytes: &'static [u8], sizes: Sizes) -> Result<bool, Fault> {
    let mut reader = reader_of(bytes, sizes);
    let judged = read_judged_by::<Sha1Naming, Lender, Lent>(alloc, &Sha1Naming, &mut reader)?;
    Ok(printed(alloc, &Sha1Naming, &judged.file)?.as_slice() == bytes)
}

fn five_objects(alloc: Global) -> Result<&'static [u8], Fault> {
    let file = file_of(alloc, FIVE_OBJECTS)?;
    Ok(printed(alloc, &Sha1Naming, &file)?.leak())
}

fn five_objects_come_back(alloc: Global) -> Result<bool, Fault> {
    let bytes = five_objects(alloc)?;
    for sizes in WAYS {
        if !comes_back(alloc, bytes, *sizes)? {
            return Ok(false);
        }
    }
    Ok(true)
}

// How many calls of `read` it takes to read version 1, whose contents are those of one blob.
fn reads_when_lent(alloc: Global, sizes: Sizes) -> u64 {
    let mut reader = reader_of(VERSION_1, sizes);
    let _answer = read_sealed_by::<TailNaming, Lender, Lent>(alloc, &TailNaming, &mut reader);
    reader.calls()
}

// How many it takes if the file is judged too.
fn reads_when_judged(alloc: Global, sizes: Sizes) -> u64 {
    let mut reader = reader_of(VERSION_1, sizes);
    let _answer = read_judged_by::<TailNaming, Lender, Lent>(alloc, &TailNaming, &mut reader);
    reader.calls()
}

#[test]
fn judges_what_is_lent_as_what_is_copied(rt: HostRuntime) {
    assert!(rt; are_judged_alike(rt.alloc(), VERSION_1));
    assert!(rt; are_judged_alike(rt.alloc(), VERSION_2));
    assert!(rt; are_judged_alike(rt.alloc(), ONE_BYTE_MORE));
    assert!(rt; are_fronts_judged_alike(rt.alloc(), VERSION_2));
    assert!(rt; are_changes_judged_alike(rt.alloc(), VERSION_2) == Ok(true));
}

#[test]
fn reads_the_same_objects_however_they_are_lent(rt: HostRuntime) {
    assert!(rt; five_objects_come_back(rt.alloc()) == Ok(true));
}

#[test]
fn calls_no_read_for_contents_that_are_lent(rt: HostRuntime) {
    assert!(rt; reads_when_lent(rt.alloc(), NONE) == READS);
    assert!(rt; reads_when_lent(rt.alloc(), ALL) == READS - 1);
    assert!(rt; reads_when_judged(rt.alloc(), ALL) == READS - 1);
}
