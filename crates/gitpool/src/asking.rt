//! One query of a tenant, with its reply to a writer.

ghost use Rattle.std.specs.Prelude.{◌≡◌, ℕ, List, false, Err};
ghost use Rattle.git_objects.specs.Device.{device_of, seen};
ghost use Rattle.tenant_refs.specs.TenantName.{is_tenant_name};
ghost use Rattle.tenant_service.specs.TenantState.{held_of};
ghost use Rattle.gitpool.specs.Asking.{Asks};

use crate::step_fault::{StepFault, as_result};
use git_objects::{Counted, Naming, write_all};
use service_steps::{Answer, Step};
use std::alloc::Global;
use std::io::Write;
use tenant_service::Service;

/// Asks a query of a tenant, and writes its reply to `writer`. The query is answered from the
/// repository at the last checkpoint, also while a stream runs. The service takes this step and no
/// other, and every tenant has what it had.
///
/// `StepFault::Refused`: the number that refuses the query, and 32 if the tenant's name is bad.
/// `StepFault::Memory` (90): memory ran out. After both, no call of the writer was made.
/// `StepFault::Device` (68): a call of the writer failed, and a prefix of the reply is written.
pub fn ask<N: Naming, W: Write>(
    alloc: Global,
    service: &mut Service<N>,
    tenant: &[u8],
    query: &[u8],
    writer: &mut Counted<W>,
) -> Result<(), StepFault>
    ensures asked { Asks N.digest_of tenant.now query.now service.old service.new
        (seen (W.contents (device_of writer.old)) writer.old)
        (seen (W.contents (device_of writer.new)) writer.new) result }
    ensures unchanged { (name : List ℕ) → held_of name service.new ≡ held_of name service.old }
    ensures bad_names { is_tenant_name tenant.now ≡ false → result ≡ Err (StepFault.Refused 32) }
{
    service.is_led();
    let mut reply = Vec::new(alloc);
    let answer = service.step(Step::Ask { tenant, query }, &mut reply);
    as_result(answer)?;
    write_all(writer, &reply)?;
    Ok(())
}
