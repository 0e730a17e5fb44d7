//! Requests, read from a reader frame by frame.
//!
//! Nothing is read ahead, as by `Frames`.

ghost use Rattle.std.specs.Prelude.{◌≡◌, ◌≤◌, length, true};
ghost use Rattle.byte_devices.specs.Device.{device_of, seen};
ghost use Rattle.service_steps.specs.Requests.{is_body, name_limit, request_framed, request_frame};
ghost use Rattle.service_steps.specs.Requests.{request_limit, is_save_body, save_body};
ghost use Rattle.service_steps.specs.Requests.{is_missing_body, is_entries_body, IsWhole};
ghost use Rattle.service_steps.specs.RequestReading.{ReadsRequest};
ghost use Rattle.service_steps.specs.declared.request_kind.RequestKind.TheVariants as of;

use crate::frame_fault::FrameFault;
use crate::frames::{read_frame, step_of};
use crate::request::{Request, SavedAs};
use crate::request_kind::RequestKind;
use byte_devices::Counted;
use std::alloc::Global;
use std::io::Read;

/// Reads frames of requests, and reuses the memory of one frame for the next.
#[derive(Drop)]
pub struct RequestFrames {
    name: Vec<u8>,
    body: Vec<u8>,
}

impl RequestFrames {
    /// Has read no frame yet. Takes no memory; `next` allocates from `alloc`.
    pub fn new(alloc: Global) -> RequestFrames {
        RequestFrames {
            name: Vec::new(alloc),
            body: Vec::new(alloc),
        }
    }

    /// Reads the next frame and lends its request. `None` if the input ends before a frame.
    ///
    /// - `BadFrame` (50) as soon as a wrong part has been read: an unknown kind, a name in a
    ///   Restart, a Save or a Sizes, a body in a kind that has none, a body of more than 16,777,216
    ///   bytes, a body of a Save that is neither empty nor the byte 01, or one of a Missing or an
    ///   Entries that does not end with a whole name or has fewer names than it counts.
    /// - `CutOff` (51) if the input ends inside a frame.
    /// - `Device` (68) if a call of the reader failed.
    /// - `Memory` (90) if there is no memory for a name or a body.
    ///
    /// After an error no further frame can be read.
    pub fn next<R: Read>(
        &mut self,
        reader: &mut Counted<R>,
    ) -> Result<Option<Request<'_>>, FrameFault>
        ensures { ReadsRequest (seen (R.remaining (device_of reader.old)) reader.old) result
            (seen (R.remaining (device_of reader.new)) reader.new) }
    {
        match read_frame(reader, &mut self.name, &mut self.body) {
            Ok(Some(kind)) => Ok(Some(request_of(kind, &self.name, &self.body))),
            Ok(None) => Ok(None),
            Err(fault) => Err(fault),
        }
    }
}

// What is saved of a tenant with a stream, by the body of a Save.
fn saved_as(body: &[u8]) -> SavedAs
    requires short { length body.now ≤ 1 }
    requires good { is_save_body body.now ≡ true }
    ensures { save_body result ≡ body.now }
{
    match body {
        [] => SavedAs::LastCheckpoint,
        _ => SavedAs::Opened,
    }
}

// The request of a Missing with this body.
fn missing_request<'a>(tenant: &'a [u8], body: &'a [u8]) -> Request<'a>
    requires { is_missing_body body.now ≡ true }
    ensures framed { request_frame result ≡ request_framed of.Missing tenant.now body.now }
    ensures whole { IsWhole result }
{
    let (count, names) = body.split_first_chunk::<4>().unwrap();
    let (wants, haves) = names.split_at(u32::from_be_bytes(*count) as usize * 20);
    Request::Missing {
        tenant,
        wants,
        haves,
    }
}

// The request of an Entries with this body.
fn entries_request<'a>(tenant: &'a [u8], body: &'a [u8]) -> Request<'a>
    requires { is_entries_body body.now ≡ true }
    ensures framed { request_frame result ≡ request_framed of.Entries tenant.now body.now }
    ensures whole { IsWhole result }
{
    let (limit, names) = body.split_first_chunk::<8>().unwrap();
    Request::Entries {
        tenant,
        limit: u64::from_be_bytes(*limit),
        names,
    }
}

// The request of a frame.
fn request_of<'a>(kind: RequestKind, name: &'a [u8], body: &'a [u8]) -> Request<'a>
    requires name { length name.now ≤ name_limit kind }
    requires body { length body.now ≤ request_limit kind }
    requires good { is_body kind body.now ≡ true }
    ensures framed { request_frame result ≡ request_framed kind name.now body.now }
    ensures whole { IsWhole result }
{
    match kind {
        RequestKind::Step(kind) => Request::Step(step_of(kind, name, body)),
        RequestKind::Save => Request::Save(saved_as(body)),
        RequestKind::Abandon => Request::Abandon { tenant: name },
        RequestKind::Remove => Request::Remove { tenant: name },
        RequestKind::Compact => Request::Compact { tenant: name },
        RequestKind::Copy => Request::Copy {
            from: name,
            to: body,
        },
        RequestKind::Sizes => Request::Sizes,
        RequestKind::Missing => missing_request(name, body),
        RequestKind::Entries => entries_request(name, body),
    }
}
