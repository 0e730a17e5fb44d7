//! Frames of steps and of the operator over a whole service whose pool file is in memory, compared
//! with the calls themselves, and with bytes written by hand.

use super::memory_place::MemoryPlace;
use gitpool::{Answer, Counted, FrameFault, Service, Sha1Naming, Step, host, sizes};
use service_steps::write_answer;
use std::alloc::{AllocError, Global};

/// A frame: its kind, its name and its body.
pub type Frame = (u8, &'static [u8], &'static [u8]);

// A blob of 6 bytes, a tree of 29 and a commit of 98.
const COMMIT: &[u8] = b"blob\nmark :1\ndata 6\nhello\n\n\
    commit refs/heads/main\ncommitter A <a@b> 0 +0000\ndata 2\nx\nM 100644 :1 f\n\ncheckpoint\n";

const BLOB: &[u8] = b"blob\ndata 3\nab\n\n";

// Each kind of frame, and each refusal of the operator's requests.
const ALL: &[Frame] = &[
    (21, b"", b""),
    (16, b"", b""),
    (1, b"acme", b""),
    (2, b"acme", COMMIT),
    (2, b"acme", BLOB),
    (16, b"", b""),
    (16, b"", b"\x01"),
    (18, b"acme", b""),
    (19, b"acme", b""),
    (20, b"other", b"acme"),
    (17, b"acme", b""),
    (17, b"acme", b""),
    (4, b"acme", b"refs"),
    (21, b"", b""),
    (20, b"acme", b"other"),
    (20, b"acme", b"other"),
    (19, b"acme", b""),
    (21, b"", b""),
    (18, b"other", b""),
    (18, b"never", b""),
    (17, b"..", b""),
    (18, b"..", b""),
    (19, b"..", b""),
    (20, b"acme", b".."),
    (1, b"acme", b""),
    (2, b"acme", BLOB),
    (3, b"acme", b""),
    (5, b"", b""),
    (16, b"", b"\x01"),
    (3, b"acme", b""),
];

// Appends a frame whose name and body have less than 65,536 bytes.
fn put_frame(out: &mut Vec<u8>, frame: Frame) -> Result<(), AllocError> {
    let (kind, name, body) = frame;
    out.push(kind)?;
    out.extend_from_slice(&((name.len() & 0xffff) as u16).to_be_bytes())?;
    out.extend_from_slice(name)?;
    out.extend_from_slice(&((body.len() & 0xffff) as u32).to_be_bytes())?;
    out.extend_from_slice(body)?;
    Ok(())
}

/// Appends these frames.
pub fn put_frames(out: &mut Vec<u8>, frames: &[Frame]) -> Result<(), AllocError> {
    for frame in frames {
        put_frame(out, *frame)?;
    }
    Ok(())
}

// A Save by the calls themselves. `file` gets the pool file.
fn saved(
    alloc: Global,
    service: &Service<Sha1Naming>,
    as_opened: bool,
    file: &mut Vec<u8>,
) -> Answer {
    let mut writer = Counted::new(Vec::new(alloc));
    let ended = if as_opened {
        service.save_as_opened(&mut writer)
    } else {
        service.save(&mut writer)
    };
    *file = writer.into_inner();
    match ended {
        Ok(()) => Answer::Ok,
        Err(fault) => Answer::Fault(fault.code()),
    }
}

// A Sizes by the call itself.
fn sized(alloc: Global, service: &Service<Sha1Naming>, reply: &mut Vec<u8>) -> Answer {
    let mut writer = Counted::new(Vec::new(alloc));
    let ended = sizes(alloc, service, &mut writer);
    *reply = writer.into_inner();
    match ended {
        Ok(()) => Answer::Ok,
        Err(fault) => Answer::Fault(fault.code()),
    }
}

fn stepped(service: &mut Service<Sha1Naming>, frame: Frame, reply: &mut Vec<u8>) -> Answer {
    let (kind, tenant, bytes) = frame;
    match kind {
        1 => service.step(Step::Open { tenant }, reply),
        2 => service.step(Step::Feed { tenant, bytes }, reply),
        3 => service.step(Step::End { tenant }, reply),
        4 => {
            let query = bytes;
            service.step(Step::Ask { tenant, query }, reply)
        }
        _ => service.step(Step::Restart, reply),
    }
}

// The answer of the calls themselves to a frame, and their reply.
fn told(
    alloc: Global,
    service: &mut Service<Sha1Naming>,
    file: &mut Vec<u8>,
    frame: Frame,
    reply: &mut Vec<u8>,
) -> Answer {
    let (kind, name, body) = frame;
    match kind {
        16 => saved(alloc, service, !body.is_empty(), file),
        17 => service.abandon(name),
        18 => service.remove_tenant(name),
        19 => service.compact_tenant(name),
        20 => service.copy_tenant(name, body),
        21 => sized(alloc, service, reply),
        _ => stepped(service, frame, reply),
    }
}

// Writes the answers of the calls themselves to these frames.
fn tell_all(
    alloc: Global,
    service: &mut Service<Sha1Naming>,
    file: &mut Vec<u8>,
    frames: &[Frame],
    writer: &mut Counted<Vec<u8>>,
) -> bool {
    let mut reply = Vec::new(alloc);
    for frame in frames {
        let answer = told(alloc, service, file, *frame, &mut reply);
        if write_answer(writer, answer, &reply).is_err() {
            return false;
        }
        reply.clear();
    }
    true
}

// The answers of the calls themselves over an empty service; `file` gets the pool file.
fn told_all(alloc: Global, frames: &[Frame], file: &mut Vec<u8>, out: &mut Vec<u8>) -> bool {
    let mut service = Service::new(alloc, Sha1Naming);
    let mut writer = Counted::new(Vec::new(alloc));
    let all = tell_all(alloc, &mut service, file, frames, &mut writer);
    drop(service);
    *out = writer.into_inner();
    all
}

/// Hosts these bytes over an empty service. `out` gets the answers.
pub fn hosted(
    alloc: Global,
    place: &mut MemoryPlace,
    bytes: &[u8],
    out: &mut Vec<u8>,
) -> Result<(), FrameFault> {
    let mut service = Service::new(alloc, Sha1Naming);
    let mut writer = Counted::new(Vec::new(alloc));
    let mut reader = Counted::new(bytes);
    let ended = host(alloc, &mut service, place, &mut reader, &mut writer);
    drop(service);
    *out = writer.into_inner();
    ended
}

// Whether a host answers these frames as the calls do, and leaves the same pool file.
fn answers_alike(alloc: Global, frames: &[Frame], place: &mut MemoryPlace) -> bool {
    let mut bytes = Vec::new(alloc);
    let mut file = Vec::new(alloc);
    let mut wanted = Vec::new(alloc);
    let mut out = Vec::new(alloc);
    let put = put_frames(&mut bytes, frames).is_ok();
    let told = told_all(alloc, frames, &mut file, &mut wanted);
    let ended = hosted(alloc, place, &bytes, &mut out) == Ok(());
    put && told
        && ended
        && out.as_slice() == wanted.as_slice()
        && place.file.as_slice() == file.as_slice()
}

#[test]
fn answers_each_frame_as_the_calls_do(rt: HostRuntime) {
    let mut place = MemoryPlace::new(rt.alloc(), 0);
    assert!(rt; answers_alike(rt.alloc(), ALL, &mut place));
}

// A tenant with a checkpoint in its stream, and one of both Saves after it.
const SAVED: &[Frame] = &[
    (1, b"acme", b""),
    (2, b"acme", COMMIT),
    (2, b"acme", BLOB),
    (16, b"", b""),
];

const SAVED_AS_OPENED: &[Frame] = &[
    (1, b"acme", b""),
    (2, b"acme", COMMIT),
    (2, b"acme", BLOB),
    (16, b"", b"\x01"),
];

#[test]
fn a_save_has_the_last_checkpoint_or_what_a_stream_was_opened_on(rt: HostRuntime) {
    let mut place = MemoryPlace::new(rt.alloc(), 0);
    assert!(rt; answers_alike(rt.alloc(), SAVED, &mut place));
    assert!(rt; place.file.len() > EMPTY.len());
    assert!(rt; answers_alike(rt.alloc(), SAVED_AS_OPENED, &mut place));
    assert!(rt; place.file.as_slice() == EMPTY);
}

// Whether hosting these bytes ends like this, with these answers and this pool file.
fn go(
    place: &mut MemoryPlace,
    bytes: &[u8],
    ended: Result<(), FrameFault>,
    answers: &[u8],
    file: &[u8],
) -> bool {
    let mut out = Vec::new(place.alloc);
    let alloc = place.alloc;
    hosted(alloc, place, bytes, &mut out) == ended
        && out.as_slice() == answers
        && place.file.as_slice() == file
}

// Two Saves, by hand, and one with the byte 01.
const SAVES: &[u8] = b"\x10\0\0\0\0\0\0\x10\0\0\0\0\0\0\x10\0\0\0\0\0\x01\x01";

const TWO_SAVES: &[u8] = b"\x10\0\0\0\0\0\0\x10\0\0\0\0\0\0";

// Fault(68) twice, and Ok.
const REFUSED: &[u8] =
    b"\x01\0\0\0\0\0\0\0\x44\0\0\0\0\0\0\0\0\x01\0\0\0\0\0\0\0\x44\0\0\0\0\0\0\0\0";

const REFUSED_AND_OK: &[u8] =
    b"\x01\0\0\0\0\0\0\0\x44\0\0\0\0\0\0\0\0\x01\0\0\0\0\0\0\0\x44\0\0\0\0\0\0\0\0\0\0\0\0\0\0\0\0\0\0\0\0\0\0\0\0\0";

// A pool file of no tenant, in version 2.
const EMPTY: &[u8] = b"gitpool\n\0\0\0\x02\0\0\0\0\0\0\0\0\0\0\0\0\0\0\0\0\
    \xac\x76\x83\x2e\x33\x45\x80\xf2\x4c\xeb\x8a\xad\x0e\x22\xed\x51\x8b\xd0\x81\xe9";

#[test]
fn a_refused_save_leaves_the_pool_file_and_the_run(rt: HostRuntime) {
    let mut place = MemoryPlace::new(rt.alloc(), 2);
    assert!(rt; place.file.extend_from_slice(b"old").is_ok());
    assert!(rt; go(&mut place, TWO_SAVES, Ok(()), REFUSED, b"old"));
    place.refuses = 2;
    assert!(rt; go(&mut place, SAVES, Ok(()), REFUSED_AND_OK, EMPTY));
}

// A Sizes of nobody, which is Ok without a line, and the bytes of a wrong frame.
const BAD: &[&[u8]] = &[
    b"\x15\0\0\0\0\0\0\x06",
    b"\x15\0\0\0\0\0\0\x0f",
    b"\x15\0\0\0\0\0\0\x18",
    b"\x15\0\0\0\0\0\0\x16\0\x01t\0\0\0\0",
    b"\x15\0\0\0\0\0\0\x16\0\x01t\0\0\0\x04\0\0\0\x01",
    b"\x15\0\0\0\0\0\0\x17\0\x01t\0\0\0\x09\0\0\0\0\0\0\0\0\0",
    b"\x15\0\0\0\0\0\0\x10\0\x01",
    b"\x15\0\0\0\0\0\0\x10\0\0\0\0\0\x02",
    b"\x15\0\0\0\0\0\0\x10\0\0\0\0\0\x01\x02",
    b"\x15\0\0\0\0\0\0\x10\0\0\0\0\0\x01\0",
    b"\x15\0\0\0\0\0\0\x11\0\x01t\0\0\0\x01",
    b"\x15\0\0\0\0\0\0\x12\0\x01t\0\0\0\x01",
    b"\x15\0\0\0\0\0\0\x13\0\x01t\0\0\0\x01",
    b"\x15\0\0\0\0\0\0\x14\0\x01t\x01\0\0\x01",
    b"\x15\0\0\0\0\0\0\x15\0\x01",
    b"\x15\0\0\0\0\0\0\x15\0\0\0\0\0\x01",
    b"\x15\0\0\0\0\0\0\x05\0\x01",
];

// The same, and a frame that is cut off.
const CUT_OFF: &[&[u8]] = &[
    b"\x15\0\0\0\0\0\0\x10",
    b"\x15\0\0\0\0\0\0\x10\0\0\0\0\0\x01",
    b"\x15\0\0\0\0\0\0\x11\0\x02t",
    b"\x15\0\0\0\0\0\0\x14\0\x01a\0\0\0\x02b",
];

const OK: &[u8] = b"\0\0\0\0\0\0\0\0\0\0\0\0\0\0\0\0\0";

fn end_with(place: &mut MemoryPlace, runs: &[&[u8]], fault: FrameFault) -> bool {
    for bytes in runs {
        if !go(place, bytes, Err(fault), OK, b"") {
            return false;
        }
    }
    true
}

#[test]
fn tells_a_wrong_frame_and_one_that_is_cut_off(rt: HostRuntime) {
    let mut place = MemoryPlace::new(rt.alloc(), 0);
    assert!(rt; end_with(&mut place, BAD, FrameFault::BadFrame));
    assert!(rt; end_with(&mut place, CUT_OFF, FrameFault::CutOff));
}

// The frames of a tenant with a commit, and then a Sizes.
const SIZES: &[Frame] = &[(1, b"acme", b""), (2, b"acme", COMMIT), (21, b"", b"")];

// Two answers Ok, and one with a line of 40 bytes.
const SIZED: &[u8] = b"\0\0\0\0\0\0\0\0\0\0\0\0\0\0\0\0\0\0\0\0\0\0\0\0\0\0\0\0\0\0\0\0\0\0\
    \0\0\0\0\0\0\0\0\0\0\0\0\0\0\0\0\x28acme objects 3 bytes 133 own 133 refs 1\n";

fn sizes_are_told(place: &mut MemoryPlace) -> bool {
    let mut bytes = Vec::new(place.alloc);
    put_frames(&mut bytes, SIZES).is_ok() && go(place, &bytes, Ok(()), SIZED, b"")
}

#[test]
fn sizes_are_lines(rt: HostRuntime) {
    let mut place = MemoryPlace::new(rt.alloc(), 0);
    assert!(rt; sizes_are_told(&mut place));
}
