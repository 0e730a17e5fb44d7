//! Frames that are read and answers that are written, compared with bytes derived by hand.

use byte_devices::{FailingReader, FailingWriter};
use gitpool::{Answer, Counted, FrameFault, Step};
use service_steps::{Frames, write_answer};
use std::alloc::Global;
use std::io::Read;

// One frame of each kind.
const FRAMES: &[u8] = b"\x01\0\x01t\0\0\0\0\
    \x02\0\x03a/b\0\0\0\x02x\n\
    \x03\0\0\0\0\0\0\
    \x04\0\x01t\0\0\0\x04refs\
    \x05\0\0\0\0\0\0";

// The steps of these frames.
const STEPS: &[Step<'static>] = &[
    Step::Open { tenant: b"t" },
    Step::Feed {
        tenant: b"a/b",
        bytes: b"x\n",
    },
    Step::End { tenant: b"" },
    Step::Ask {
        tenant: b"t",
        query: b"refs",
    },
    Step::Restart,
];

// The places where the first frame begins and where each frame ends.
const ENDS: &[usize] = &[0, 8, 20, 27, 39, 46];

// A frame with a wrong part, and the number of bytes that are read until it shows.
const BAD: &[(&[u8], u64)] = &[
    (b"\x06\0\x01t\0\0\0\0", 1),
    (b"\0\0\0\0\0\0\0", 1),
    (b"\x05\0\x01t\0\0\0\0", 3),
    (b"\x05\x01\0\0\0\0\0\0", 3),
    (b"\x01\0\x01t\0\0\0\x01x", 8),
    (b"\x03\0\x01t\x01\0\0\0x", 8),
    (b"\x05\0\0\0\0\0\x01x", 7),
    (b"\x02\0\x01t\x01\0\0\x01x", 8),
    (b"\x04\0\0\xff\xff\xff\xffx", 7),
];

// An answer whose reply is `x` and a line feed, and its bytes.
const TOLD: &[(Answer, &[u8])] = &[
    (Answer::Ok, b"\0\0\0\0\0\0\0\0\0\0\0\0\0\0\0\0\x02x\n"),
    (
        Answer::Fault(513),
        b"\x01\0\0\0\0\0\0\x02\x01\0\0\0\0\0\0\0\x02x\n",
    ),
    (
        Answer::Memory(0x0102_0304_0506_0708),
        b"\x02\x01\x02\x03\x04\x05\x06\x07\x08\0\0\0\0\0\0\0\x02x\n",
    ),
];

// Whether the next frame is this step.
fn is_next<R: Read>(frames: &mut Frames, reader: &mut Counted<R>, step: Step<'_>) -> bool {
    frames.next(reader) == Ok(Some(step))
}

// Whether these steps are read from a reader, and no more.
fn are_read<R: Read>(frames: &mut Frames, reader: &mut Counted<R>, steps: &[Step<'_>]) -> bool {
    for step in steps {
        if !is_next(frames, reader, *step) {
            return false;
        }
    }
    frames.next(reader) == Ok(None)
}

// The same for these bytes, and the number of bytes that are read.
fn reads_steps(alloc: Global, bytes: &[u8], steps: &[Step<'_>]) -> (bool, u64) {
    let mut reader = Counted::new(bytes);
    let mut frames = Frames::new(alloc);
    let are_read = are_read(&mut frames, &mut reader, steps);
    drop(frames);
    (are_read, reader.passed())
}

// The number of frames that a reader has, at most six, and the fault that ends them.
fn count_frames<R: Read>(
    frames: &mut Frames,
    reader: &mut Counted<R>,
) -> (usize, Option<FrameFault>) {
    for count in 0..6usize {
        match frames.next(reader) {
            Ok(Some(_)) => {}
            Ok(None) => return (count, None),
            Err(fault) => return (count, Some(fault)),
        }
    }
    (6, None)
}

fn read_frames<R: Read>(alloc: Global, reader: &mut Counted<R>) -> (usize, Option<FrameFault>) {
    let mut frames = Frames::new(alloc);
    let read = count_frames(&mut frames, reader);
    drop(frames);
    read
}

// The fault that ends a prefix of this size: `None` at the beginning and where a frame ends.
fn fault_at(size: usize) -> Option<FrameFault> {
    if ENDS.contains(&size) {
        None
    } else {
        Some(FrameFault::CutOff)
    }
}

// Whether the frames that end in this prefix are read from it, and then it is cut off or has no
// more bytes.
fn is_read_to_its_end(alloc: Global, front: &[u8]) -> bool {
    let size = front.len();
    let mut reader = Counted::new(front);
    let (count, fault) = read_frames(alloc, &mut reader);
    let ends = ENDS.iter().filter(|end| **end <= size).count();
    ends.checked_sub(1) == Some(count) && fault == fault_at(size)
}

// The size of the first frame's body in bytes; `None` if the frame is not a Feed.
fn size_of_body<R: Read>(frames: &mut Frames, reader: &mut Counted<R>) -> Option<usize> {
    match frames.next(reader) {
        Ok(Some(Step::Feed { bytes, .. })) => Some(bytes.len()),
        _ => None,
    }
}

fn size_of_body_of(alloc: Global, bytes: &[u8]) -> Option<usize> {
    let mut reader = Counted::new(bytes);
    let mut frames = Frames::new(alloc);
    let size = size_of_body(&mut frames, &mut reader);
    drop(frames);
    size
}

// Whether a frame with the largest body is read.
fn is_longest_read(alloc: Global) -> bool {
    let mut bytes = Vec::new(alloc);
    bytes.extend_from_slice(b"\x02\0\x01t\x01\0\0\0").is_ok()
        && bytes.resize(16_777_216 + 8, b'x').is_ok()
        && size_of_body_of(alloc, &bytes) == Some(16_777_216)
}

// What is read from a reader that fails in the second frame, and how often it failed.
fn read_to_a_failure(alloc: Global) -> (usize, Option<FrameFault>, u64) {
    let mut reader = Counted::new(FailingReader::new(FRAMES, 4));
    let (count, fault) = read_frames(alloc, &mut reader);
    (count, fault, reader.faults())
}

#[test]
fn reads_a_step_of_each_kind(rt: HostRuntime) {
    assert_eq!(rt; reads_steps(rt.alloc(), FRAMES, STEPS), (true, 46));
}

#[test]
fn reads_a_body_of_the_most_bytes(rt: HostRuntime) {
    assert!(rt; is_longest_read(rt.alloc()));
}

// Whether these bytes are refused after so many of them are read.
fn is_refused_at(alloc: Global, bytes: &[u8], passed: u64) -> bool {
    let mut reader = Counted::new(bytes);
    let seen = read_frames(alloc, &mut reader);
    seen == (0, Some(FrameFault::BadFrame)) && reader.passed() == passed
}

#[test]
fn tells_a_wrong_part(rt: HostRuntime) {
    for (place, (bytes, passed)) in BAD.iter().enumerate() {
        assert!(rt; is_refused_at(rt.alloc(), bytes, *passed), "at {place}");
    }
}

#[test]
fn tells_a_frame_that_is_cut_off(rt: HostRuntime) {
    for size in 0..FRAMES.len() + 1 {
        let front = FRAMES.split_at(size).0;
        assert!(rt; is_read_to_its_end(rt.alloc(), front), "at {size}");
    }
}

#[test]
fn tells_a_reader_that_fails(rt: HostRuntime) {
    let failed = read_to_a_failure(rt.alloc());
    assert_eq!(rt; failed, (1, Some(FrameFault::Device), 1));
}

// Whether an answer is written as these bytes.
fn is_told(alloc: Global, answer: Answer, text: &[u8]) -> bool {
    let mut writer = Counted::new(Vec::new(alloc));
    let is_written = write_answer(&mut writer, answer, b"x\n").is_ok();
    is_written && writer.into_inner().as_slice() == text
}

#[test]
fn writes_each_answer(rt: HostRuntime) {
    for (place, (answer, text)) in TOLD.iter().enumerate() {
        assert!(rt; is_told(rt.alloc(), *answer, text), "at {place}");
    }
}

// Whether an answer is written by a writer whose nth call fails, how often the writer failed, and
// how many bytes it took. Each call takes one byte; the answer has 19.
fn told_to_a_failure(alloc: Global, nth: u64) -> (bool, u64, u64) {
    let mut writer = Counted::new(FailingWriter::new(Vec::new(alloc), nth));
    let is_told = write_answer(&mut writer, Answer::Fault(13), b"x\n").is_ok();
    (is_told, writer.faults(), writer.passed())
}

#[test]
fn tells_a_writer_that_fails(rt: HostRuntime) {
    for nth in 0..19_u64 {
        assert_eq!(rt; told_to_a_failure(rt.alloc(), nth), (false, 1, nth));
    }
    assert_eq!(rt; told_to_a_failure(rt.alloc(), 19), (true, 0, 19));
}

#[test]
fn has_a_number_for_each_fault(rt: HostRuntime) {
    let faults = [
        FrameFault::BadFrame,
        FrameFault::CutOff,
        FrameFault::Device,
        FrameFault::Memory,
    ];
    assert_eq!(rt; faults.map(|fault| fault.code()), [50, 51, 68, 90]);
}
