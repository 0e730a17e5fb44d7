//! Frames of steps, requests of the operator and questions for a pack, over one service
//! that is saved while it runs.
//!
//! Each answer is written before the next frame is read, as by `serve`.

ghost use Rattle.std.specs.Prelude.{◌≡◌, []};
ghost use Rattle.git_objects.specs.Device.{device_of, seen};
ghost use Rattle.pool_file.specs.Saves.{Saves};
ghost use Rattle.gitpool.specs.{Places.{Replaces}, Hosting.{Hosts}};
ghost use Rattle.gitpool.specs.Requests.{IsSaved, IsSized, Takes, hosted, pool_text, told_with};

use crate::packing::{answer_entries, answer_missing};
use crate::pool_place::PoolPlace;
use crate::sizing::append_sizes;
use byte_devices::WriteFault;
use git_objects::{Counted, Memory, Naming};
use pool_file_format::{Fault as PoolFault, StreamingDigest};
use service_steps::{Answer, FrameFault, Request, RequestFrames, SavedAs, write_answer};
use std::alloc::Global;
use std::io::{Read, Write};
use tenant_service::Service;

// How many frames are taken before their sender counts as one that never ends.
const FRAMES_LIMIT: u64 = 1 << 32;

// Writes a pool file to a new file.
fn write_pool<N: StreamingDigest, W: Write>(
    service: &Service<N>,
    saved: SavedAs,
    writer: &mut Counted<W>,
) -> Result<(), PoolFault>
    ensures { Saves (seen (W.contents (device_of writer.old)) writer.old) result
        (seen (W.contents (device_of writer.new)) writer.new)
        (pool_text N.digest_of saved service.now) }
{
    match saved {
        SavedAs::LastCheckpoint => service.save(writer),
        SavedAs::Opened => service.save_as_opened(writer),
    }
}

// Replaces the pool file by one of what the service has.
fn save<N: StreamingDigest, P: PoolPlace>(
    service: &Service<N>,
    saved: SavedAs,
    place: &mut P,
) -> Result<(), WriteFault>
    ensures { Replaces (P.file place.old) result (P.file place.new)
        (pool_text N.digest_of saved service.now) }
{
    let new = match place.begin() {
        Ok(new) => new,
        Err(fault) => return Err(fault),
    };
    let mut writer = Counted::new(new);
    let written = write_pool(service, saved, &mut writer);
    let new = writer.into_inner();
    match written {
        Ok(()) => place.put_in_place(new),
        Err(PoolFault::Memory) => {
            place.give_up(new);
            Err(WriteFault::Memory)
        }
        Err(_) => {
            place.give_up(new);
            Err(WriteFault::Device)
        }
    }
}

// The answer to a Save.
fn answer_save<N: StreamingDigest, P: PoolPlace>(
    service: &Service<N>,
    saved: SavedAs,
    place: &mut P,
) -> Answer
    ensures { IsSaved (pool_text N.digest_of saved service.now) (P.file place.old) result
        (P.file place.new) }
{
    match save(service, saved, place) {
        Ok(()) => Answer::Ok,
        Err(WriteFault::Device) => Answer::Fault(WriteFault::Device.code()),
        Err(WriteFault::Memory) => Answer::Memory(0),
    }
}

// The answer to a Sizes, whose lines go to `out`.
fn answer_sizes<N: Naming>(alloc: Global, service: &Service<N>, out: &mut Vec<u8>) -> Answer
    requires { out.old.items ≡ [] }
    ensures { IsSized service.now result out.new.items }
{
    match append_sizes(alloc, service, out) {
        Ok(()) => Answer::Ok,
        Err(Memory) => {
            out.clear();
            Answer::Memory(0)
        }
    }
}

// Takes one request. `out` is empty, and gets the bytes of its reply.
fn take<N: StreamingDigest, P: PoolPlace>(
    alloc: Global,
    service: &mut Service<N>,
    place: &mut P,
    request: Request<'_>,
    out: &mut Vec<u8>,
) -> Answer
    requires { out.old.items ≡ [] }
    ensures { Takes N.digest_of request.entry (hosted service.old (P.file place.old))
        (told_with result out.new.items) (hosted service.new (P.file place.new)) }
{
    match request {
        Request::Step(step) => service.step(step, out),
        Request::Save(saved) => answer_save(service, saved, place),
        Request::Abandon { tenant } => service.abandon(tenant),
        Request::Remove { tenant } => service.remove_tenant(tenant),
        Request::Compact { tenant } => service.compact_tenant(tenant),
        Request::Copy { from, to } => service.copy_tenant(from, to),
        Request::Sizes => answer_sizes(alloc, service, out),
        Request::Missing {
            tenant,
            wants,
            haves,
        } => answer_missing(alloc, service, tenant, wants, haves, out),
        Request::Entries {
            tenant,
            limit,
            names,
        } => answer_entries(alloc, service, tenant, limit, names, out),
    }
}

// Takes the requests that come as frames, and writes each answer. `out` is empty between two
// frames.
fn answer_requests<N: StreamingDigest, P: PoolPlace, R: Read, W: Write>(
    alloc: Global,
    service: &mut Service<N>,
    place: &mut P,
    reader: &mut Counted<R>,
    writer: &mut Counted<W>,
    frames: &mut RequestFrames,
    out: &mut Vec<u8>,
) -> Result<(), FrameFault>
    requires { out.old.items ≡ [] }
    ensures { Hosts N.digest_of (hosted service.old (P.file place.old))
        (hosted service.new (P.file place.new))
        (seen (R.remaining (device_of reader.old)) reader.old)
        (seen (R.remaining (device_of reader.new)) reader.new)
        (seen (W.contents (device_of writer.old)) writer.old)
        (seen (W.contents (device_of writer.new)) writer.new) result }
{
    let _passed = reader.passed();
    for _ in 0..FRAMES_LIMIT {
        let request = match frames.next(reader) {
            Ok(Some(request)) => request,
            Ok(None) => return Ok(()),
            Err(fault) => return Err(fault),
        };
        let answer = take(alloc, service, place, request, out);
        write_answer(writer, answer, out)?;
        out.clear();
    }
    Err(FrameFault::Device)
}

/// Takes the steps and the requests of the operator that `reader` gives as frames, and writes each
/// answer to `writer` before it reads on. It ends well if the input ends between frames. After a
/// call of the reader or the writer fails, no further call of them is made.
///
/// Steps are answered as by `serve`. The answers of the operator's requests are those of
/// `Service::abandon`, `remove_tenant`, `compact_tenant` and `copy_tenant`. A Save replaces the
/// pool file at `place`, and leaves the service as it is, its streams too: Ok after the file was
/// replaced; Fault(68) if a call of the place failed, and Memory(0) if memory ran out, which leave
/// the old file: see `PoolPlace::put_in_place`. A Sizes has the lines of `sizes` as its reply, or
/// Memory(0) without a reply. A Missing has 29 bytes for each object of `Service::missing`, and an
/// Entries what `Service::entries` appends, or the number of their refusal or Memory(0) without a
/// reply. At the end of the run nothing is saved.
///
/// `BadFrame` (50), `CutOff` (51), `Memory` (90) and `Device` (68) are those of `serve`.
pub fn host<N: StreamingDigest, P: PoolPlace, R: Read, W: Write>(
    alloc: Global,
    service: &mut Service<N>,
    place: &mut P,
    reader: &mut Counted<R>,
    writer: &mut Counted<W>,
) -> Result<(), FrameFault>
    ensures { Hosts N.digest_of (hosted service.old (P.file place.old))
        (hosted service.new (P.file place.new))
        (seen (R.remaining (device_of reader.old)) reader.old)
        (seen (R.remaining (device_of reader.new)) reader.new)
        (seen (W.contents (device_of writer.old)) writer.old)
        (seen (W.contents (device_of writer.new)) writer.new) result }
{
    let mut frames = RequestFrames::new(alloc);
    let mut out = Vec::new(alloc);
    let hosted = answer_requests(alloc, service, place, reader, writer, &mut frames, &mut out);
    drop(frames);
    hosted
}
