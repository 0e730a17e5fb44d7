//! Frames of steps of any tenants, from a reader to a writer.
//!
//! Each answer is written before the next frame is read, since whoever sends frames may wait for
//! it.

ghost use Rattle.std.specs.Prelude.{◌≡◌, ℕ, List, [], false, true};
ghost use Rattle.git_objects.specs.Device.{device_of, seen};
ghost use Rattle.tenant_service.specs.{Kept.{is_ask}, TenantState.{held_of}};
ghost use Rattle.gitpool.specs.Serving.{Serves};

use git_objects::{Counted, Naming};
use service_steps::{FrameFault, Frames, Step, write_answer};
use std::alloc::Global;
use std::io::{Read, Write};
use tenant_service::Service;

// How many frames are taken before their sender counts as one that never ends.
const FRAMES_LIMIT: u64 = 1 << 32;

// Notes a step that may change a tenant.
fn note(step: Step<'_>, is_changed: &mut bool)
    ensures before { is_changed.new ≡ false → is_changed.old ≡ false }
    ensures asks { is_changed.new ≡ false → is_ask step.entry ≡ true }
{
    match step {
        Step::Ask { .. } => {}
        _ => *is_changed = true,
    }
}

// Takes the steps that come as frames, and writes each answer. `out` is empty between two frames.
fn answer_frames<N: Naming, R: Read, W: Write>(
    service: &mut Service<N>,
    reader: &mut Counted<R>,
    writer: &mut Counted<W>,
    frames: &mut Frames,
    out: &mut Vec<u8>,
    is_changed: &mut bool,
) -> Result<(), FrameFault>
    requires { out.old.items ≡ [] }
    ensures unchanged { is_changed.new ≡ false
        → (name : List ℕ) → held_of name service.new ≡ held_of name service.old }
    ensures serves { Serves N.digest_of service.old service.new
        (seen (R.remaining (device_of reader.old)) reader.old)
        (seen (R.remaining (device_of reader.new)) reader.new)
        (seen (W.contents (device_of writer.old)) writer.old)
        (seen (W.contents (device_of writer.new)) writer.new) result }
{
    let _passed = reader.passed();
    for _ in 0..FRAMES_LIMIT {
        let step = match frames.next(reader) {
            Ok(Some(step)) => step,
            Ok(None) => return Ok(()),
            Err(fault) => return Err(fault),
        };
        note(step, is_changed);
        let answer = service.step(step, out);
        write_answer(writer, answer, out)?;
        out.clear();
    }
    Err(FrameFault::Device)
}

/// Takes the steps that `reader` gives as frames, and writes each answer to `writer` before it
/// reads on. It ends well if the input ends between frames. After a call of a device fails, no
/// further call is made.
///
/// `BadFrame` (50): a frame is wrong, which is answered as soon as the wrong part is read. `CutOff`
/// (51): the input ends inside a frame. `Memory` (90): there was no room for a frame. After these
/// three the answers to all frames before it are written. `Device` (68): a call of the reader or
/// the writer failed, or 2^32 frames were taken. Then a prefix of the answers is written, and all
/// of them if no write failed. In each case the service has taken the steps of all whole frames
/// that were read.
pub fn serve<N: Naming, R: Read, W: Write>(
    alloc: Global,
    service: &mut Service<N>,
    reader: &mut Counted<R>,
    writer: &mut Counted<W>,
) -> Result<(), FrameFault>
    ensures { Serves N.digest_of service.old service.new
        (seen (R.remaining (device_of reader.old)) reader.old)
        (seen (R.remaining (device_of reader.new)) reader.new)
        (seen (W.contents (device_of writer.old)) writer.old)
        (seen (W.contents (device_of writer.new)) writer.new) result }
{
    let mut is_changed = false;
    serve_noting(alloc, service, reader, writer, &mut is_changed)
}

/// Serves as `serve` does, for a caller that saves only if there is something new: `is_changed` is
/// set if a step other than an Ask was read. If it is not set afterwards, every tenant has what it
/// had. The refusals are those of `serve`.
pub fn serve_noting<N: Naming, R: Read, W: Write>(
    alloc: Global,
    service: &mut Service<N>,
    reader: &mut Counted<R>,
    writer: &mut Counted<W>,
    is_changed: &mut bool,
) -> Result<(), FrameFault>
    ensures unchanged { is_changed.new ≡ false
        → (name : List ℕ) → held_of name service.new ≡ held_of name service.old }
    ensures serves { Serves N.digest_of service.old service.new
        (seen (R.remaining (device_of reader.old)) reader.old)
        (seen (R.remaining (device_of reader.new)) reader.new)
        (seen (W.contents (device_of writer.old)) writer.old)
        (seen (W.contents (device_of writer.new)) writer.new) result }
{
    let mut frames = Frames::new(alloc);
    let mut out = Vec::new(alloc);
    let served = answer_frames(service, reader, writer, &mut frames, &mut out, is_changed);
    drop(frames);
    served
}
