//! One stream of git-fast-import(1) over an empty repository that is not kept.

ghost use Rattle.std.specs.Prelude.{[]};
ghost use Rattle.git_objects.specs.Device.{device_of, seen};
ghost use Rattle.git_model.specs.Repository.{Repository};
ghost use Rattle.import_session.specs.Sound.{IsSoundRepository};
ghost use Rattle.export_laws.specs.Copies.{CanBeCopied};
ghost use Rattle.tenant_service.specs.TenantState.{empty_repository};
ghost use Rattle.gitpool.specs.{Exports.{HasExport, TakesExport}, Import.{Imports, ImportsInto}};
ghost use Rattle.gitpool.specs.Importing.{HasImported};

use crate::importing::import;
use crate::step_fault::StepFault;
use git_objects::{Counted, Naming};
use std::alloc::Global;
use std::io::{Read, Write};
use tenant_service::Service;

// The only tenant of the service.
const TENANT: &[u8] = b"one";

/// Carries out one stream as `import_one` does, and hands back the service that took it. A program
/// that ends then need not wait until each object is freed.
///
/// The faults are those of `import_one`.
pub fn import_new<N: Naming, R: Read, W: Write>(
    alloc: Global,
    naming: N,
    reader: &mut Counted<R>,
    writer: &mut Counted<W>,
) -> (Service<N>, Result<(), StepFault>)
    ensures imported { Imports N.digest_of
        (seen (R.remaining (device_of reader.old)) reader.old)
        (seen (R.remaining (device_of reader.new)) reader.new)
        (seen (W.contents (device_of writer.old)) writer.old)
        (seen (W.contents (device_of writer.new)) writer.new) result.1 }
    // The service is a new one that took the steps of this import, and no others.
    ensures taken { ImportsInto N.digest_of empty_repository
        (HasImported N.digest_of TENANT.now [] result.0)
        (seen (R.remaining (device_of reader.old)) reader.old)
        (seen (R.remaining (device_of reader.new)) reader.new)
        (seen (W.contents (device_of writer.old)) writer.old)
        (seen (W.contents (device_of writer.new)) writer.new) result.1 }
    ensures exports { (repository : Repository) → IsSoundRepository N.digest_of repository
        → CanBeCopied repository
        → HasExport (R.remaining (device_of reader.old)) repository
        → TakesExport N.digest_of repository
        (seen (W.contents (device_of writer.old)) writer.old)
        (seen (W.contents (device_of writer.new)) writer.new) result.1 }
{
    let mut service = Service::new(alloc, naming);
    let imported = import(alloc, &mut service, TENANT, reader, writer);
    (service, imported)
}

/// Carries out one stream of git-fast-import(1) over an empty repository: reads it from `reader`,
/// and writes its replies to `writer`, with object names by `naming`. The replies to what was read
/// are written before more is read. The stream ends with the input, or earlier at `done` or a
/// fault; then nothing more is read. After a call of a device fails, no further call is made. It is
/// `import` for a tenant of a new service, and nothing of it is kept.
///
/// `StepFault::Refused`: the stream or its end is refused under this number; exactly the replies
/// before that are written. `StepFault::Device` (68): a call of the reader or the writer failed,
/// or 2^32 reads have not come to the end. Then a prefix of the replies to what was read is
/// written, and all of them if no write failed. They include the reply of the end if the stream
/// came to its end. `StepFault::Memory` (90): memory ran out after a prefix of the replies was
/// written, and no call failed.
///
/// Give it the export of a good repository, from a reader that has that text and nothing after it.
/// If each object of the repository fits into a stream, reached by a ref or not, and the refs are
/// few enough for an export and reach at most 65,536 tags, the stream is never refused and nothing
/// is written; at its end it leaves a copy (`exports`).
pub fn import_one<N: Naming, R: Read, W: Write>(
    alloc: Global,
    naming: N,
    reader: &mut Counted<R>,
    writer: &mut Counted<W>,
) -> Result<(), StepFault>
    ensures imported { Imports N.digest_of
        (seen (R.remaining (device_of reader.old)) reader.old)
        (seen (R.remaining (device_of reader.new)) reader.new)
        (seen (W.contents (device_of writer.old)) writer.old)
        (seen (W.contents (device_of writer.new)) writer.new) result }
    ensures exports { (repository : Repository) → IsSoundRepository N.digest_of repository
        → CanBeCopied repository
        → HasExport (R.remaining (device_of reader.old)) repository
        → TakesExport N.digest_of repository
        (seen (W.contents (device_of writer.old)) writer.old)
        (seen (W.contents (device_of writer.new)) writer.new) result }
{
    let (service, imported) = import_new(alloc, naming, reader, writer);
    drop(service);
    imported
}
