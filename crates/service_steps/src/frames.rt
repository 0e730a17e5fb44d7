//! Steps, read from a reader frame by frame.
//!
//! Nothing is read ahead. When a frame is whole, no byte after it has been asked for. When a part
//! of a frame is wrong, no byte after that part has been asked for.

ghost use Rattle.std.specs.Prelude.{◌≡◌, ◌≤◌, length, true, IfOk, IfSome};
ghost use Rattle.service_steps.specs.FrameKinds.{Kinds};
ghost use Rattle.service_steps.specs.Frames.{tenant_limit, body_limit, framed, framed_by, frame_of};
ghost use Rattle.service_steps.specs.Reading.{ReadsFrame, ReadsKindBy, ReadsStep};
ghost use Rattle.byte_devices.specs.Device.{device_of, seen};

use crate::Step;
use crate::frame_fault::FrameFault;
use crate::kind::{FrameKind, Kind};
use crate::sized::{read_after_u16, read_after_u32};
use byte_devices::{Counted, FillFault, fill};
use std::alloc::Global;
use std::io::Read;

// The kind of the next frame; `None` if the input ends before it.
fn read_kind<R: Read, K: FrameKind>(reader: &mut Counted<R>) -> Result<Option<K>, FrameFault>
    ensures { ReadsKindBy K.rules.kind_of (seen (R.remaining (device_of reader.old)) reader.old) result
        (seen (R.remaining (device_of reader.new)) reader.new) }
{
    let mut byte = [0];
    match fill(reader, &mut byte) {
        Ok(()) => match K::of(byte[0]) {
            Some(kind) => Ok(Some(kind)),
            None => Err(FrameFault::BadFrame),
        },
        Err(FillFault::Ended) => Ok(None),
        Err(FillFault::Failed) => Err(FrameFault::Device),
    }
}

/// Reads the name and the body of the next frame, and answers its kind.
pub(crate) fn read_frame<R: Read, K: FrameKind>(
    reader: &mut Counted<R>,
    name: &mut Vec<u8>,
    body: &mut Vec<u8>,
) -> Result<Option<K>, FrameFault>
    requires { Kinds K.rules }
    ensures reads { ReadsFrame K.rules.wrong_at
        (λ kind. framed_by K.rules.number kind name.new.items body.new.items)
        (seen (R.remaining (device_of reader.old)) reader.old) result
        (seen (R.remaining (device_of reader.new)) reader.new) }
    ensures fits { IfOk result (λ o. IfSome o (λ k. (length name.new.items ≤ K.rules.names k)
        × (length body.new.items ≤ K.rules.bodies k) × (K.rules.good k body.new.items ≡ true))) }
{
    let Some(kind) = read_kind::<R, K>(reader)? else {
        return Ok(None);
    };
    read_after_u16(reader, kind.name_limit(), name)?;
    read_after_u32(reader, kind.body_limit(), body)?;
    if !kind.is_body(body) {
        return Err(FrameFault::BadFrame);
    }
    Ok(Some(kind))
}

/// Reads frames, and reuses the memory of one frame for the next.
#[derive(Drop)]
pub struct Frames {
    tenant: Vec<u8>,
    body: Vec<u8>,
}

impl Frames {
    /// Has read no frame yet. Takes no memory; `next` allocates from `alloc`.
    pub fn new(alloc: Global) -> Frames {
        Frames {
            tenant: Vec::new(alloc),
            body: Vec::new(alloc),
        }
    }

    /// Reads the next frame and lends its step. `None` if the input ends before a frame.
    ///
    /// - `BadFrame` (50) as soon as a wrong part has been read: an unknown kind, a name in a
    ///   Restart, a body in a kind that has none, or a body of more than 16,777,216 bytes.
    /// - `CutOff` (51) if the input ends inside a frame.
    /// - `Device` (68) if a call of the reader failed.
    /// - `Memory` (90) if there is no memory for a name or a body.
    ///
    /// After an error no further frame can be read.
    pub fn next<R: Read>(&mut self, reader: &mut Counted<R>) -> Result<Option<Step<'_>>, FrameFault>
        ensures { ReadsStep (seen (R.remaining (device_of reader.old)) reader.old) result
            (seen (R.remaining (device_of reader.new)) reader.new) }
    {
        match read_frame(reader, &mut self.tenant, &mut self.body) {
            Ok(Some(kind)) => Ok(Some(step_of(kind, &self.tenant, &self.body))),
            Ok(None) => Ok(None),
            Err(fault) => Err(fault),
        }
    }
}

/// The step of a frame.
pub(crate) fn step_of<'a>(kind: Kind, tenant: &'a [u8], body: &'a [u8]) -> Step<'a>
    requires tenant { length tenant.now ≤ tenant_limit kind }
    requires body { length body.now ≤ body_limit kind }
    ensures { frame_of result ≡ framed kind tenant.now body.now }
{
    match kind {
        Kind::Open => Step::Open { tenant },
        Kind::Feed => Step::Feed {
            tenant,
            bytes: body,
        },
        Kind::End => Step::End { tenant },
        Kind::Ask => Step::Ask {
            tenant,
            query: body,
        },
        Kind::Restart => Step::Restart,
    }
}
