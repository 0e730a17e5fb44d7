//! Readers that lend: what they lend and read are the bytes of the file, in their order.

use byte_devices::Lends;
use lending_readers::{ChunkedFile, LentBytes};
use std::alloc::Global;
use std::io;
use std::io::{ErrorKind, Read};
use std::os::unix::fs::FileExt;

// A file of some length. A call gives some bytes at most, and none from some place on, where it fails.
#[derive(Clone, Copy)]
struct Numbered {
    length: u64,
    most: usize,
    fails_from: u64,
}

// The byte at this place of each such file.
fn byte_at(place: u64) -> u8 {
    ((place ^ (place >> 9)) % 256) as u8
}

fn are_of_file(bytes: &[u8], place: u64) -> bool {
    let mut at = place;
    for byte in bytes {
        if *byte != byte_at(at) {
            return false;
        }
        at = at.saturating_add(1);
    }
    true
}

fn write_file(room: &mut [u8], place: u64) {
    let mut at = place;
    for byte in room {
        *byte = byte_at(at);
        at = at.saturating_add(1);
    }
}

impl FileExt for Numbered {
    fn read_at(&self, buf: &mut [u8], offset: u64) -> io::Result<usize> {
        if offset >= self.fails_from {
            return Err(io::Error::from(ErrorKind::Other));
        }
        let left = self.length.min(self.fails_from).saturating_sub(offset);
        let most = buf.len().min(self.most);
        let count = left.min(most as u64) as usize;
        write_file(buf.split_at_mut(count).0, offset);
        Ok(count)
    }

    fn write_at(&self, _buf: &[u8], _offset: u64) -> io::Result<usize> {
        Err(io::Error::from(ErrorKind::Other))
    }
}

// What a reader does next, with a number of bytes.
#[derive(Clone, Copy, PartialEq, Eq)]
enum Turn {
    Lends,
    DoesNotLend,
    Reads,
    Ends,
    Fails,
}

type Turns<'a> = &'a [(Turn, u64)];

const WHOLE: Numbered = Numbered {
    length: 12_000_000,
    most: usize::MAX,
    fails_from: u64::MAX,
};

// What was read ahead is not lent, nor what would make a small chunk. A loan fits the chunk, begins
// one, or has one alone.
const IN_CHUNKS: Turns<'static> = &[
    (Turn::Lends, 0),
    (Turn::Reads, 9),
    (Turn::DoesNotLend, 100),
    (Turn::Reads, 100),
    (Turn::Lends, 40_000),
    (Turn::Reads, 9),
    (Turn::Lends, 1_400_000),
    (Turn::Lends, 100_000),
    (Turn::DoesNotLend, 11_000_000),
    (Turn::Lends, 2_000_000),
    (Turn::Reads, 9),
    (Turn::DoesNotLend, 40_000),
    (Turn::Reads, 40_000),
    (Turn::Lends, 1_100_000),
    (Turn::Reads, 7_319_873),
    (Turn::Ends, 0),
    (Turn::DoesNotLend, 1),
    (Turn::Lends, 0),
];

// A file that is shorter than was said, and one that is longer.
const TO_AN_EARLY_END: Turns<'static> = &[
    (Turn::Reads, 9),
    (Turn::DoesNotLend, 12_500_000),
    (Turn::Lends, 2_000_000),
    (Turn::DoesNotLend, 10_500_000),
    (Turn::Reads, 9_999_991),
    (Turn::Ends, 0),
];

const BEYOND_THE_LENGTH: Turns<'static> = &[
    (Turn::Lends, 60_000),
    (Turn::DoesNotLend, 11_000_000),
    (Turn::Reads, 11_940_000),
    (Turn::Ends, 0),
];

// Nothing is lent of a file of which no length is said.
const READ_ALONE: Turns<'static> = &[
    (Turn::DoesNotLend, 2_000_000),
    (Turn::Reads, 12_000_000),
    (Turn::Ends, 0),
];

// What comes before the fault is read.
const TO_A_FAULT: Turns<'static> = &[
    (Turn::Lends, 60_000),
    (Turn::DoesNotLend, 1_600_000),
    (Turn::Reads, 1_540_000),
    (Turn::Fails, 0),
    (Turn::DoesNotLend, 1_100_000),
];

fn reads<R: Read>(alloc: Global, reader: &mut R, count: u64, place: u64) -> bool {
    let mut room = match Vec::from_elem(alloc, 0, count as usize) {
        Ok(room) => room,
        Err(_) => return false,
    };
    reader.read_exact(&mut room).is_ok() && are_of_file(&room, place)
}

fn lends<R: Lends>(reader: &mut R, count: u64, place: u64) -> bool {
    match reader.lend(count) {
        Some(bytes) => are_of_file(bytes, place),
        None => false,
    }
}

// What a read of one byte answers, if it is not refused.
fn read_of_one<R: Read>(reader: &mut R) -> Option<usize> {
    let mut room = [0; 1];
    reader.read(&mut room).ok()
}

fn takes<R: Lends>(alloc: Global, reader: &mut R, turn: Turn, count: u64, place: u64) -> bool {
    match turn {
        Turn::Lends => lends(reader, count, place),
        Turn::DoesNotLend => reader.lend(count).is_none(),
        Turn::Reads => reads(alloc, reader, count, place),
        Turn::Ends => read_of_one(reader) == Some(0),
        Turn::Fails => read_of_one(reader).is_none(),
    }
}

fn takes_all<R: Lends>(alloc: Global, reader: &mut R, turns: Turns<'_>) -> bool {
    let mut place: u64 = 0;
    for (turn, count) in turns {
        if !takes(alloc, reader, *turn, *count, place) {
            return false;
        }
        if *turn != Turn::DoesNotLend {
            place = place.saturating_add(*count);
        }
    }
    true
}

// Whether a file of which this length is said takes these turns.
fn gives(alloc: Global, file: Numbered, length: u64, turns: Turns<'_>) -> bool {
    match ChunkedFile::new(alloc, file, length) {
        Ok(mut reader) => takes_all(alloc, &mut reader, turns),
        Err(_) => false,
    }
}

// Whether it does so also with a few bytes a call.
fn gives_in_pieces(alloc: Global, file: Numbered, length: u64, turns: Turns<'_>) -> bool {
    let pieces = Numbered {
        most: 5_000,
        ..file
    };
    gives(alloc, file, length, turns) && gives(alloc, pieces, length, turns)
}

fn fails_at(place: u64) -> Numbered {
    Numbered {
        fails_from: place,
        ..WHOLE
    }
}

const FEW: &[u8] = &[0, 1, 2, 3, 4, 5, 6];

const OF_FEW: Turns<'static> = &[
    (Turn::Lends, 0),
    (Turn::Lends, 2),
    (Turn::Reads, 1),
    (Turn::DoesNotLend, 5),
    (Turn::Lends, 4),
    (Turn::Ends, 0),
    (Turn::DoesNotLend, 1),
];

#[test]
fn lends_a_file_in_chunks(rt: HostRuntime) {
    assert!(rt; gives_in_pieces(rt.alloc(), WHOLE, 12_000_000, IN_CHUNKS));
}

#[test]
fn reads_a_file_to_its_own_end(rt: HostRuntime) {
    assert!(rt; gives_in_pieces(rt.alloc(), WHOLE, 13_000_000, TO_AN_EARLY_END));
    assert!(rt; gives_in_pieces(rt.alloc(), WHOLE, 10_000_000, BEYOND_THE_LENGTH));
    assert!(rt; gives_in_pieces(rt.alloc(), WHOLE, 0, READ_ALONE));
}

#[test]
fn tells_a_read_that_fails(rt: HostRuntime) {
    assert!(rt; gives_in_pieces(rt.alloc(), fails_at(1_600_000), 12_000_000, TO_A_FAULT));
}

#[test]
fn lends_bytes_in_memory(rt: HostRuntime) {
    let mut reader = LentBytes::new(FEW);
    assert!(rt; takes_all(rt.alloc(), &mut reader, OF_FEW));
}
