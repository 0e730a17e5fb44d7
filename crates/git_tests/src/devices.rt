//! The counts of readers and writers that fail at a chosen call, and buffers that are filled.

use byte_devices::{Counted, FailingReader, FailingWriter, FillFault, fill};
use std::alloc::Global;
use std::io;
use std::io::{Read, Write};

// Texts that are written in turn, and how many bytes of each are taken: `None` if the call fails.
type Writes<'a> = &'a [(&'a [u8], Option<usize>)];

const TO_A_FAILING_WRITER: Writes<'static> = &[
    (b"hello", Some(1)),
    (b"ello", Some(1)),
    (b"llo", None),
];

// A slice takes what it has room for, and then nothing.
const TO_TWO_BYTES: Writes<'static> = &[(b"abc", Some(2)), (b"c", Some(0)), (b"", Some(0))];

fn count_of(answer: io::Result<usize>) -> Option<usize> {
    match answer {
        Ok(count) => Some(count),
        Err(_) => None,
    }
}

// The calls, those that failed, and the bytes that went through.
fn counts_of<T>(device: &Counted<T>) -> (u64, u64, u64) {
    (device.calls(), device.faults(), device.passed())
}

// Whether reads into a buffer of three bytes give these counts.
fn gives<R: Read>(reader: &mut Counted<R>, counts: &[Option<usize>]) -> bool {
    for count in counts {
        let mut buf = [0; 3];
        if count_of(reader.read(&mut buf)) != *count {
            return false;
        }
    }
    true
}

fn takes<W: Write>(writer: &mut Counted<W>, writes: Writes<'_>) -> bool {
    for (bytes, count) in writes {
        if count_of(writer.write(bytes)) != *count {
            return false;
        }
    }
    true
}

fn is_written_until_it_fails(alloc: Global) -> bool {
    let mut writer = Counted::new(FailingWriter::new(Vec::new(alloc), 2));
    let is_counted = takes(&mut writer, TO_A_FAILING_WRITER) && counts_of(&writer) == (3, 1, 2);
    let taken = writer.into_inner().into_inner();
    is_counted && taken.as_slice() == b"he".as_slice()
}

fn is_counted_in_reads() -> bool {
    let mut reader = Counted::new(FailingReader::new(&b"hello"[..], 2));
    gives(&mut reader, &[Some(3), Some(2), None, None]) && counts_of(&reader) == (4, 2, 5)
}

fn is_counted_in_writes() -> bool {
    let mut room = [0; 2];
    let mut writer = Counted::new(&mut room[..]);
    takes(&mut writer, TO_TWO_BYTES) && counts_of(&writer) == (3, 1, 2)
}

// Whether a buffer of three bytes is filled from five bytes, and not a second time.
fn is_filled_once(reader: &mut Counted<&[u8]>, room: &mut [u8; 3]) -> bool {
    let is_filled = fill(reader, room) == Ok(()) && &*room == b"hel";
    is_filled && fill(reader, room) == Err(FillFault::Ended) && &*room == b"lol"
}

fn fills_a_room() -> bool {
    let mut reader = Counted::new(&b"hello"[..]);
    let mut room = [0; 3];
    is_filled_once(&mut reader, &mut room) && counts_of(&reader) == (3, 0, 5)
}

fn fails_as_its_device() -> bool {
    let mut reader = Counted::new(FailingReader::new(&b"hello"[..], 0));
    let mut room = [0; 3];
    fill(&mut reader, &mut room) == Err(FillFault::Failed)
}

#[test]
fn counts_reads_and_those_that_fail_and_their_bytes(rt: HostRuntime) {
    assert!(rt; is_counted_in_reads());
}

#[test]
fn counts_writes_and_those_that_fail_or_take_nothing_and_their_bytes(rt: HostRuntime) {
    assert!(rt; is_written_until_it_fails(rt.alloc()) && is_counted_in_writes());
}

#[test]
fn fills_a_room_from_reads_of_any_size(rt: HostRuntime) {
    assert!(rt; fills_a_room() && fails_as_its_device());
}

#[test]
fn numbers_its_faults(rt: HostRuntime) {
    assert!(rt; (FillFault::Ended.code(), FillFault::Failed.code()) == (51, 68));
}
