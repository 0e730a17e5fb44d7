//! What a service stores, as one line to a writer. This is for the operator.

ghost use Rattle.std.specs.Prelude.{◌≡◌, IfOk, string_bytes};
ghost use Rattle.git_objects.specs.Device.{device_of, seen};
ghost use Rattle.gitpool.specs.Checking.{check_text, Checks};

use byte_devices::WriteFault;
use git_objects::{Counted, Naming, write_all};
use std::alloc::{AllocError, Global};
use std::io::Write;
use tenant_service::Service;

// The line of a check, from the numbers of `Service::stored` and of `Service::tenants`.
fn check_text(alloc: Global, stored: (u64, u64), tenants: u64) -> Result<String, AllocError>
    ensures { IfOk result (λ text. string_bytes text ≡ check_text stored tenants) }
{
    let (objects, bytes) = stored;
    format!(in alloc; "objects {objects} bytes {bytes} tenants {tenants}\n")
}

/// Writes how much a service stores, in one line such as `objects 3 bytes 133 tenants 1`: the
/// number of distinct contents, the sum of their sizes in bytes (`Service::stored`), and the number
/// of tenants that have an object at their last checkpoint (`Service::tenants`).
///
/// `WriteFault::Memory` (90): there was no memory for the line, and no call of the writer was made.
/// `WriteFault::Device` (68): a call of the writer failed, and a prefix of the line is written.
pub fn check<N: Naming, W: Write>(
    alloc: Global,
    service: &Service<N>,
    writer: &mut Counted<W>,
) -> Result<(), WriteFault>
    ensures { Checks service.now
        (seen (W.contents (device_of writer.old)) writer.old)
        (seen (W.contents (device_of writer.new)) writer.new) result }
{
    let text = check_text(alloc, service.stored(), service.tenants())?;
    write_all(writer, text.as_bytes())?;
    Ok(())
}
