//! Streams over devices that fail at a chosen call.

use super::one_byte::OneByte;
use byte_devices::{FailingReader, FailingWriter};
use gitpool::{Counted, Sha1Naming, StepFault, import_one};
use std::alloc::Global;

// The line of `get-mark` ends with its 38th byte, and that of `progress` with its 49th.
pub const STREAM: &[u8] = b"blob\nmark :1\ndata 6\nhello\nget-mark :1\nprogress x\n";

const REPLIES: &[u8] = b"ce013625030ba8dba906f756967f9e9ca394464a\nprogress x\n";

// The number of bytes of the replies to the first `given` bytes of the stream.
pub fn replied(given: usize) -> usize {
    match given {
        0..=37 => 0,
        38..=48 => 41,
        _ => 52,
    }
}

// What an import answers, how many calls of its device failed, and what it wrote.
#[derive(Drop)]
struct Imported {
    ended: Result<(), StepFault>,
    faults: u64,
    out: Vec<u8>,
}

// An import whose reader's nth call fails.
fn with_failing_reader(alloc: Global, nth: u64) -> Imported {
    let mut reader = Counted::new(FailingReader::new(OneByte::new(STREAM), nth));
    let mut writer = Counted::new(Vec::new(alloc));
    let ended = import_one(alloc, Sha1Naming, &mut reader, &mut writer);
    let faults = reader.faults();
    let out = writer.into_inner();
    Imported { ended, faults, out }
}

// The same of its writer.
fn with_failing_writer(alloc: Global, nth: u64) -> Imported {
    let mut writer = Counted::new(FailingWriter::new(Vec::new(alloc), nth));
    let ended = import_one(alloc, Sha1Naming, &mut Counted::new(STREAM), &mut writer);
    let faults = writer.faults();
    let out = writer.into_inner().into_inner();
    Imported { ended, faults, out }
}

// Whether an import reports a failure of its device, after so many bytes of the replies are written.
fn tells_failure(imported: &Imported, size: usize) -> bool {
    imported.ended == Err(StepFault::Device)
        && imported.faults == 1
        && Some(imported.out.as_slice()) == REPLIES.get(..size)
}

fn tells_all(imported: &Imported) -> bool {
    imported.ended == Ok(()) && imported.faults == 0 && imported.out.as_slice() == REPLIES
}

// The stream has 49 bytes, and the call after them finds its end. The replies to all bytes before
// the call that fails are written.
#[test]
fn tells_each_read_that_fails(rt: HostRuntime) {
    for nth in 0..=49_u64 {
        let imported = with_failing_reader(rt.alloc(), nth);
        assert!(rt; tells_failure(&imported, replied(nth as usize)), "at {nth}");
    }
    assert!(rt; tells_all(&with_failing_reader(rt.alloc(), 50)));
}

// The replies have 52 bytes, and each byte is one call.
#[test]
fn tells_each_write_that_fails(rt: HostRuntime) {
    for nth in 0..52_u64 {
        let imported = with_failing_writer(rt.alloc(), nth);
        assert!(rt; tells_failure(&imported, nth as usize), "at {nth}");
    }
    assert!(rt; tells_all(&with_failing_writer(rt.alloc(), 52)));
}

// A stream that ends before its bytes do, the answer to it, and the number of bytes that are read.
const ENDED_EARLY: &[(&[u8], Result<(), StepFault>, u64)] = &[
    (b"progress x\ndone\nprogress y\n", Ok(()), 16),
    (
        b"progress x\nget-mark :9\nprogress y\n",
        Err(StepFault::Refused(13)),
        23,
    ),
];

// The answer of an import that gets one byte a call, the number of bytes that it read, and the
// number of its calls.
fn read_early(alloc: Global, bytes: &[u8]) -> (Result<(), StepFault>, u64, u64) {
    let mut reader = Counted::new(OneByte::new(bytes));
    let mut writer = Counted::new(Vec::new(alloc));
    let ended = import_one(alloc, Sha1Naming, &mut reader, &mut writer);
    (ended, reader.passed(), reader.calls())
}

#[test]
fn reads_no_further_after_done_or_a_fault(rt: HostRuntime) {
    for (bytes, ended, passed) in ENDED_EARLY {
        assert_eq!(rt; read_early(rt.alloc(), bytes), (*ended, *passed, *passed));
    }
}
