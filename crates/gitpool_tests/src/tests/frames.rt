//! Frames of steps over a whole service, compared with bytes derived by hand.

use super::one_byte::OneByte;
use byte_devices::{FailingReader, FailingWriter};
use gitpool::{Counted, FrameFault, Naming, Service, Sha1Naming, TailNaming, serve};
use std::alloc::Global;
use std::io::{Read, Write};

/// The frames of an Open of `t`, a Feed of `progress x` and its line end, an Ask and the End: 8,
/// 19, 12 and 8 bytes.
pub const FRAMES: &[u8] =
    b"\x01\0\x01t\0\0\0\0\x02\0\x01t\0\0\0\x0bprogress x\n\x04\0\x01t\0\0\0\x04refs\x03\0\x01t\0\0\0\0";

/// The answers to these frames: three of 17 bytes, and one, the second, of 17 and 11.
pub const ANSWERS: &[u8] =
    b"\0\0\0\0\0\0\0\0\0\0\0\0\0\0\0\0\0\0\0\0\0\0\0\0\0\0\0\0\0\0\0\0\0\x0bprogress x\n\0\0\0\0\0\0\0\0\0\0\0\0\0\0\0\0\0\0\0\0\0\0\0\0\0\0\0\0\0\0\0\0\0\0";

/// The number of bytes of the answers to the first `given` bytes of the frames.
pub fn answered(given: usize) -> usize {
    match given {
        0..=7 => 0,
        8..=26 => 17,
        27..=38 => 45,
        39..=46 => 62,
        _ => 79,
    }
}

/// Serves frames over an empty service. The result is how serving ended.
pub fn serve_empty<N: Naming, R: Read, W: Write>(
    alloc: Global,
    naming: N,
    reader: &mut Counted<R>,
    writer: &mut Counted<W>,
) -> Result<(), FrameFault> {
    let mut service = Service::new(alloc, naming);
    let ended = serve(alloc, &mut service, reader, writer);
    drop(service);
    ended
}

// Serves these bytes over an empty service. `out` gets what was written.
fn served<N: Naming>(
    alloc: Global,
    naming: N,
    bytes: &[u8],
    out: &mut Vec<u8>,
) -> Result<(), FrameFault> {
    let mut writer = Counted::new(Vec::new(alloc));
    let ended = serve_empty(alloc, naming, &mut Counted::new(bytes), &mut writer);
    *out = writer.into_inner();
    ended
}

// Whether serving these bytes ends like this, with these answers.
fn go<N: Naming>(
    alloc: Global,
    naming: N,
    bytes: &[u8],
    ended: Result<(), FrameFault>,
    answers: &[u8],
) -> bool {
    let mut out = Vec::new(alloc);
    served(alloc, naming, bytes, &mut out) == ended && out.as_slice() == answers
}

#[test]
fn answers_each_frame(rt: HostRuntime) {
    assert!(rt; go(rt.alloc(), Sha1Naming, FRAMES, Ok(()), ANSWERS));
    assert!(rt; go(rt.alloc(), TailNaming, b"", Ok(()), b""));
}

// Bytes that are not a frame, or are cut off inside one.
const ENDS: &[(&[u8], FrameFault)] = &[
    (b"\x06", FrameFault::BadFrame),
    (b"\x01\0\x01t\0\0\0\x01", FrameFault::BadFrame),
    (b"\x01\0", FrameFault::CutOff),
    (b"\x02\0\x01t\0\0\0\x02x", FrameFault::CutOff),
];

// Whether serving these bytes after whole frames ends with this fault.
fn end_after_frames(alloc: Global, bytes: &[u8], fault: FrameFault) -> bool {
    let mut both = Vec::new(alloc);
    both.extend_from_slice(FRAMES).is_ok()
        && both.extend_from_slice(bytes).is_ok()
        && go(alloc, Sha1Naming, &both, Err(fault), ANSWERS)
}

// Whether serving these bytes ends with this fault, alone and after whole frames.
fn end_with(alloc: Global, bytes: &[u8], fault: FrameFault) -> bool {
    go(alloc, Sha1Naming, bytes, Err(fault), b"") && end_after_frames(alloc, bytes, fault)
}

// The place of the first text that ends differently.
fn first_otherwise(alloc: Global) -> Option<usize> {
    for (place, (bytes, fault)) in ENDS.iter().enumerate() {
        if !end_with(alloc, bytes, *fault) {
            return Some(place);
        }
    }
    None
}

#[test]
fn ends_at_a_bad_frame_after_the_answers(rt: HostRuntime) {
    assert_eq!(rt; first_otherwise(rt.alloc()), None);
}

// Whether a prefix of the frames is answered up to its last whole frame.
fn answers_front(alloc: Global, front: &[u8]) -> bool {
    let size = front.len();
    let mut out = Vec::new(alloc);
    let ended = served(alloc, Sha1Naming, front, &mut out);
    let wanted = match size {
        0 | 8 | 27 | 39 | 47 => Ok(()),
        _ => Err(FrameFault::CutOff),
    };
    ended == wanted && Some(out.as_slice()) == ANSWERS.get(..answered(size))
}

#[test]
fn tells_frames_that_are_cut_off(rt: HostRuntime) {
    for size in 0..FRAMES.len() + 1 {
        let front = FRAMES.split_at(size).0;
        assert!(rt; answers_front(rt.alloc(), front), "at {size}");
    }
}

// Serves the frames from a reader whose nth call fails. The result is how serving ended and how
// many calls failed; `out` gets what was written.
fn with_failing_reader(
    alloc: Global,
    nth: u64,
    out: &mut Vec<u8>,
) -> (Result<(), FrameFault>, u64) {
    let mut reader = Counted::new(FailingReader::new(OneByte::new(FRAMES), nth));
    let mut writer = Counted::new(Vec::new(alloc));
    let ended = serve_empty(alloc, Sha1Naming, &mut reader, &mut writer);
    *out = writer.into_inner();
    (ended, reader.faults())
}

fn tells_read(alloc: Global, nth: u64) -> bool {
    let mut out = Vec::new(alloc);
    let ended = with_failing_reader(alloc, nth, &mut out);
    let wanted = ANSWERS.get(..answered(nth as usize));
    ended == (Err(FrameFault::Device), 1) && Some(out.as_slice()) == wanted
}

// The frames have 47 bytes, and the call after them finds their end.
#[test]
fn tells_each_read_that_fails(rt: HostRuntime) {
    for nth in 0..=47_u64 {
        assert!(rt; tells_read(rt.alloc(), nth), "at {nth}");
    }
}

fn with_failing_writer(alloc: Global, nth: u64, out: &mut Vec<u8>) -> Result<(), FrameFault> {
    let mut writer = Counted::new(FailingWriter::new(Vec::new(alloc), nth));
    let ended = serve_empty(alloc, Sha1Naming, &mut Counted::new(FRAMES), &mut writer);
    *out = writer.into_inner().into_inner();
    ended
}

fn tells_write(alloc: Global, nth: u64) -> bool {
    let mut out = Vec::new(alloc);
    let ended = with_failing_writer(alloc, nth, &mut out);
    let wanted = if nth == 79 {
        Ok(())
    } else {
        Err(FrameFault::Device)
    };
    ended == wanted && Some(out.as_slice()) == ANSWERS.get(..nth as usize)
}

// The answers have 79 bytes, and each byte is one call.
#[test]
fn tells_each_write_that_fails(rt: HostRuntime) {
    for nth in 0..=79_u64 {
        assert!(rt; tells_write(rt.alloc(), nth), "at {nth}");
    }
}
