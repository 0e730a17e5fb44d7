//! Whole pool files: read, refused, and written again.

use super::parts::{code_of, number_of, printed};
use byte_devices::{Counted, DeviceFault, FailingReader, FailingWriter};
use git_names::TailNaming;
use pool_file_format::{Fault, RawFile, read_sealed, write_sealed};
use std::alloc::Global;
use std::io::Read;

// The tenant `t` with the one blob `ab`, in version 1: a line for magic and version, for the
// objects, for the tenant, for its refs, and for the digest.
pub const VERSION_1: &[u8] = b"gitpool\n\0\0\0\x01\
    \0\0\0\0\0\0\0\x01\x03\0\0\0\0\0\0\0\x02ab\
    \0\0\0\0\0\0\0\x01\0\x01t\0\0\0\0\0\0\0\x01\0\0\0\0\0\0\0\0\
    \0\0\0\0\0\0\0\0\
    \xab\xab\xab\xab\xab\xab\xab\xab\xab\xab\xab\xab\xab\xab\xab\xab\xab\xab\xabI";

// The same in version 2, with HEAD.
pub const VERSION_2: &[u8] = b"gitpool\n\0\0\0\x02\
    \0\0\0\0\0\0\0\x01\x03\0\0\0\0\0\0\0\x02ab\
    \0\0\0\0\0\0\0\x01\0\x01t\0\0\0\0\0\0\0\x01\0\0\0\0\0\0\0\0\
    \0\0\0\0\0\0\0\0\0\x0frefs/heads/main\
    \xab\xab\xab\xab\xab\xab\xab\xab\xab\xab\xab\xab\xab\xab\xab\xab\xab\xab\xab\x11";

// Version 1, with a count of objects that says that there are none.
const WITHOUT_OBJECTS: &[u8] = b"gitpool\n\0\0\0\x01\
    \0\0\0\0\0\0\0\0\x03\0\0\0\0\0\0\0\x02ab\
    \0\0\0\0\0\0\0\x01\0\x01t\0\0\0\0\0\0\0\x01\0\0\0\0\0\0\0\0\
    \0\0\0\0\0\0\0\0\
    \xab\xab\xab\xab\xab\xab\xab\xab\xab\xab\xab\xab\xab\xab\xab\xab\xab\xab\xabI";

/// Version 1, and a byte after it.
pub const ONE_BYTE_MORE: &[u8] = b"gitpool\n\0\0\0\x01\
    \0\0\0\0\0\0\0\x01\x03\0\0\0\0\0\0\0\x02ab\
    \0\0\0\0\0\0\0\x01\0\x01t\0\0\0\0\0\0\0\x01\0\0\0\0\0\0\0\0\
    \0\0\0\0\0\0\0\0\
    \xab\xab\xab\xab\xab\xab\xab\xab\xab\xab\xab\xab\xab\xab\xab\xab\xab\xab\xabI\0";

// What is answered if one byte of version 1 is greater by one, byte by byte: the last digits of the
// numbers of the refusals.
const CODES_1: &[u8; 86] = b"00000000111222222222322222222332222222222322222222\
    333333332222222233333333333333333333";

// The same of version 2.
const CODES_2: &[u8; 103] = b"00000000111122222222322222222332222222222322222222\
    33333333222222222233333333333333333333333333333333\
    333";

fn code_of_reading<R: Read + Drop>(alloc: Global, reader: R) -> u16 {
    let mut counted = Counted::new(reader);
    code_of(read_sealed(alloc, &TailNaming, &mut counted))
}

fn add_one(bytes: &mut [u8], place: usize) {
    if place < bytes.len() {
        bytes[place] = bytes[place].wrapping_add(1);
    }
}

/// The bytes of a file, with those at these places greater by one.
pub fn changed(alloc: Global, file: &[u8], places: &[usize]) -> Result<Vec<u8>, Fault> {
    let mut bytes = Vec::from_slice(alloc, file)?;
    for place in places {
        add_one(&mut bytes, *place);
    }
    Ok(bytes)
}

fn code_with_change(alloc: Global, file: &[u8], place: usize) -> Result<u16, Fault> {
    let bytes = changed(alloc, file, &[place])?;
    Ok(code_of_reading(alloc, bytes.as_slice()))
}

fn are_refused(alloc: Global, file: &[u8], codes: &[u8]) -> Result<bool, Fault> {
    for (place, code) in codes.iter().enumerate() {
        if code_with_change(alloc, file, place)? != number_of(*code) {
            return Ok(false);
        }
    }
    Ok(true)
}

fn are_fronts_refused(alloc: Global, file: &[u8]) -> bool {
    for size in 0..file.len() {
        if code_of_reading(alloc, file.split_at(size).0) != 62 {
            return false;
        }
    }
    true
}

fn file_1(alloc: Global) -> Result<RawFile, Fault> {
    let mut reader = Counted::new(VERSION_1);
    read_sealed(alloc, &TailNaming, &mut reader)
}

fn is_written(alloc: Global, version: u32, wanted: &[u8]) -> Result<bool, Fault> {
    let mut file = file_1(alloc)?;
    file.version = version;
    Ok(printed(alloc, &TailNaming, &file)?.as_slice() == wanted)
}

/// How many calls of `read` it takes to read version 1 from a slice.
pub const READS: u64 = 21;

// A reader that fails at any of these calls is blamed, and one that fails later is not.
fn are_readers_blamed(alloc: Global) -> bool {
    for nth in 0..READS {
        if code_of_reading(alloc, FailingReader::new(VERSION_1, nth)) != 68 {
            return false;
        }
    }
    code_of_reading(alloc, FailingReader::new(VERSION_1, READS)) == 0
}

// How much is written if a writer that takes one byte a call fails at its nth call.
fn is_front_written(alloc: Global, file: &RawFile, nth: usize) -> bool {
    let mut writer = Counted::new(FailingWriter::new(Vec::new(alloc), nth as u64));
    let answer = write_sealed(&TailNaming, file, &mut writer);
    let written = writer.into_inner().into_inner();
    answer == Err(DeviceFault) && written.as_slice() == VERSION_1.split_at(nth.min(86)).0
}

fn are_fronts_written(alloc: Global) -> Result<bool, Fault> {
    let file = file_1(alloc)?;
    for nth in 0..86 {
        if !is_front_written(alloc, &file, nth) {
            return Ok(false);
        }
    }
    Ok(true)
}

#[test]
fn reads_both_versions(rt: HostRuntime) {
    assert!(rt; code_of_reading(rt.alloc(), VERSION_1) == 0);
    assert!(rt; code_of_reading(rt.alloc(), VERSION_2) == 0);
}

#[test]
fn refuses_each_changed_byte(rt: HostRuntime) {
    assert!(rt; are_refused(rt.alloc(), VERSION_1, CODES_1) == Ok(true));
    assert!(rt; are_refused(rt.alloc(), VERSION_2, CODES_2) == Ok(true));
    assert!(rt; code_of_reading(rt.alloc(), WITHOUT_OBJECTS) == 62);
}

#[test]
fn refuses_each_shorter_front_and_one_byte_more(rt: HostRuntime) {
    assert!(rt; are_fronts_refused(rt.alloc(), VERSION_1));
    assert!(rt; are_fronts_refused(rt.alloc(), VERSION_2));
    assert!(rt; code_of_reading(rt.alloc(), ONE_BYTE_MORE) == 69);
}

#[test]
fn writes_what_was_read_in_either_version(rt: HostRuntime) {
    assert!(rt; is_written(rt.alloc(), 1, VERSION_1) == Ok(true));
    assert!(rt; is_written(rt.alloc(), 2, VERSION_2) == Ok(true));
}

#[test]
fn blames_a_reader_that_fails_at_any_call(rt: HostRuntime) {
    assert!(rt; are_readers_blamed(rt.alloc()));
}

#[test]
fn leaves_a_front_where_a_writer_fails(rt: HostRuntime) {
    assert!(rt; are_fronts_written(rt.alloc()) == Ok(true));
}
