//! One stream of git-fast-import(1) of a tenant, from a reader to a writer.
//!
//! Each reply is written before more is read, since whoever feeds the reader may wait for it.

ghost use Rattle.std.specs.Prelude.{◌≡◌, ◌∷◌, ℕ, List, [], OnOk, OnErr, Some};
ghost use Rattle.std.specs.Io.KnownBytes.{Appends};
ghost use Rattle.git_objects.specs.Device.{device_of, faults_of, AppendsFront, HasFault, seen};
ghost use Rattle.git_model.specs.Repository.{Repository};
ghost use Rattle.tenant_service.specs.Alone.{Open, Feed, End};
ghost use Rattle.gitpool.specs.{Import.{ImportsInto}, Importing.{EndsImport, GivesUp}};
ghost use Rattle.gitpool.specs.Importing.{CanOpen, open_refusal, HasTakenCalls, HasFed};
ghost use Rattle.gitpool.specs.Importing.{HasImported, IsUnopened, IsStreaming, PassesOn, ReadsAll};

use crate::step_fault::{StepFault, as_result};
use git_objects::{Counted, DeviceFault, Naming, write_all};
use service_steps::{Answer, Step};
use std::alloc::Global;
use std::io::{Read, Write};
use tenant_service::Service;

// The most bytes that one call of `read` may give.
const BLOCK: usize = 65_536;

// How often a reader is called before it counts as one that never ends.
const READS_LIMIT: u64 = 1 << 32;

// Writes the replies in `out`, and empties it.
fn write_replies<W: Write>(writer: &mut Counted<W>, out: &mut Vec<u8>) -> Result<(), DeviceFault>
    ensures written { OnOk result (Appends (W.contents (device_of writer.old))
        (W.contents (device_of writer.new)) out.old.items) }
    ensures well { OnOk result (faults_of writer.new ≡ faults_of writer.old) }
    ensures emptied { OnOk result (out.new.items ≡ []) }
    ensures front { OnErr result (AppendsFront (W.contents (device_of writer.old))
        (W.contents (device_of writer.new)) out.old.items) }
    ensures cause { OnErr result (HasFault (faults_of writer.old) (faults_of writer.new)) }
{
    write_all(writer, out)?;
    out.clear();
    Ok(())
}

// Feeds a piece, and writes what it printed.
fn pass_on<N: Naming, W: Write>(
    service: &mut Service<N>,
    tenant: &[u8],
    piece: &[u8],
    writer: &mut Counted<W>,
    out: &mut Vec<u8>,
) -> Result<(), StepFault>
    requires emptied { out.old.items ≡ [] }
    ensures emptied { OnOk result (out.new.items ≡ []) }
    ensures taken { HasTakenCalls N.digest_of tenant.now service.old service.new
        (Feed piece.now ∷ []) }
    ensures passed { (repository : Repository) (bytes : List ℕ)
        → IsStreaming N.digest_of tenant.now repository bytes service.old
        → PassesOn N.digest_of tenant.now repository bytes piece.now
        (seen (W.contents (device_of writer.old)) writer.old) result service.new
        (seen (W.contents (device_of writer.new)) writer.new) }
{
    let bytes = piece;
    let fed = service.step(Step::Feed { tenant, bytes }, out);
    write_replies(writer, out)?;
    as_result(fed)
}

// Reads pieces and passes them on, until the input ends or `done` was read.
fn read_all<N: Naming, R: Read, W: Write>(
    service: &mut Service<N>,
    tenant: &[u8],
    reader: &mut Counted<R>,
    writer: &mut Counted<W>,
    out: &mut Vec<u8>,
) -> Result<(), StepFault>
    requires emptied { out.old.items ≡ [] }
    ensures emptied { OnOk result (out.new.items ≡ []) }
    ensures read { (repository : Repository)
        → IsStreaming N.digest_of tenant.now repository [] service.old
        → ReadsAll N.digest_of tenant.now repository service.old
        (seen (R.remaining (device_of reader.old)) reader.old)
        (seen (R.remaining (device_of reader.new)) reader.new)
        (seen (W.contents (device_of writer.old)) writer.old) result service.new
        (seen (W.contents (device_of writer.new)) writer.new) }
{
    let _passed = reader.passed();
    let mut block = [0; BLOCK];
    for _ in 0..READS_LIMIT {
        let n = match reader.read(&mut block) {
            Ok(n) => n,
            Err(_) => return Err(StepFault::Device),
        };
        if n == 0 {
            return Ok(());
        }
        pass_on(service, tenant, block.split_at(n).0, writer, out)?;
        if service.has_read_done(tenant) {
            return Ok(());
        }
    }
    Err(StepFault::Device)
}

// Ends the stream, and writes the reply of its end.
fn end<N: Naming, W: Write>(
    service: &mut Service<N>,
    tenant: &[u8],
    writer: &mut Counted<W>,
    out: &mut Vec<u8>,
) -> Result<(), StepFault>
    requires emptied { out.old.items ≡ [] }
    ensures taken { HasTakenCalls N.digest_of tenant.now service.old service.new (End ∷ []) }
    ensures ended { (repository : Repository) (bytes : List ℕ)
        → IsStreaming N.digest_of tenant.now repository bytes service.old
        → EndsImport N.digest_of repository bytes
        (seen (W.contents (device_of writer.old)) writer.old) result
        (seen (W.contents (device_of writer.new)) writer.new) }
{
    let ended = service.step(Step::End { tenant }, out);
    write_replies(writer, out)?;
    as_result(ended)
}

// Ends a stream that was refused, or ran out of memory. Such an end prints nothing. If a device
// failed, the stream is left as it is.
fn give_up<N: Naming>(service: &mut Service<N>, tenant: &[u8], out: &mut Vec<u8>, fault: StepFault)
    ensures { GivesUp N.digest_of tenant.now service.old service.new fault }
{
    match fault {
        StepFault::Device => {}
        _ => {
            let _told = service.step(Step::End { tenant }, out);
        }
    }
}

// Feeds a stream that was opened, and ends it, unless a device failed.
fn carry_out<N: Naming, R: Read, W: Write>(
    service: &mut Service<N>,
    tenant: &[u8],
    reader: &mut Counted<R>,
    writer: &mut Counted<W>,
    out: &mut Vec<u8>,
) -> Result<(), StepFault>
    requires emptied { out.old.items ≡ [] }
    ensures { (repository : Repository)
        → IsStreaming N.digest_of tenant.now repository [] service.old
        → ImportsInto N.digest_of repository
        (HasFed N.digest_of tenant.now service.old service.new)
        (seen (R.remaining (device_of reader.old)) reader.old)
        (seen (R.remaining (device_of reader.new)) reader.new)
        (seen (W.contents (device_of writer.old)) writer.old)
        (seen (W.contents (device_of writer.new)) writer.new) result }
{
    match read_all(service, tenant, reader, writer, out) {
        Ok(()) => end(service, tenant, writer, out),
        Err(fault) => {
            give_up(service, tenant, out, fault);
            Err(fault)
        }
    }
}

/// Carries out one stream of git-fast-import(1) for a tenant: opens it, feeds it the bytes that
/// `reader` has, and ends it. The replies go to `writer`, and the replies to what was read are
/// written before more is read. The stream ends with the input, or earlier at `done` or a fault;
/// then nothing more is read. After a call of a device fails, no further call is made. The service
/// takes these steps of the tenant and no others.
///
/// `StepFault::Refused`: 32 if the tenant's name is bad, and 31 if the tenant has a stream, even a
/// dead one. Then nothing was read, and nothing has changed. Any other number is the fault of the
/// stream or of its end. Then exactly the replies before it are written, and the tenant is at its
/// last checkpoint and has no stream.
///
/// `StepFault::Device` (68): a call of the reader or the writer failed, or 2^32 reads have not
/// come to the end. A prefix of the replies to what was read is written, and all of them if no
/// write failed. They include the reply of the end if the stream came to its end. The stream is
/// left as it is: an End saves what it read, and a Restart gives it up. If the write of the reply
/// of the end failed, the stream has ended.
///
/// `StepFault::Memory` (90): memory ran out after a prefix of the replies was written, and no
/// call failed. The tenant is at its last checkpoint and has no stream.
pub fn import<N: Naming, R: Read, W: Write>(
    alloc: Global,
    service: &mut Service<N>,
    tenant: &[u8],
    reader: &mut Counted<R>,
    writer: &mut Counted<W>,
) -> Result<(), StepFault>
    ensures imported { (repository : Repository) → CanOpen tenant.now service.old repository
        → ImportsInto N.digest_of repository
        (HasImported N.digest_of tenant.now service.old service.new)
        (seen (R.remaining (device_of reader.old)) reader.old)
        (seen (R.remaining (device_of reader.new)) reader.new)
        (seen (W.contents (device_of writer.old)) writer.old)
        (seen (W.contents (device_of writer.new)) writer.new) result }
    ensures refused { (code : ℕ) → open_refusal tenant.now service.old ≡ Some code
        → IsUnopened N.digest_of tenant.now service.old service.new code
        (seen (R.remaining (device_of reader.old)) reader.old)
        (seen (R.remaining (device_of reader.new)) reader.new)
        (seen (W.contents (device_of writer.old)) writer.old)
        (seen (W.contents (device_of writer.new)) writer.new) result }
{
    service.is_led();
    let _passed = reader.passed();
    let mut out = Vec::new(alloc);
    let opened = service.step(Step::Open { tenant }, &mut out);
    as_result(opened)?;
    carry_out(service, tenant, reader, writer, &mut out)
}
