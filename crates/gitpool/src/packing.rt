//! Questions for a pack that come as frames.

ghost use Rattle.std.specs.Prelude.{◌≡◌, ℕ, List, [], Result};
ghost use Rattle.gitpool.specs.Packing.{IsTold, Tells, entries_told, missing_told};
ghost use Rattle.pack_objects.specs.declared.fault.PackFault.{PackFault};

use git_objects::Naming;
use pack_objects::{append_listing, names_in};
use service_steps::Answer;
use std::alloc::Global;
use tenant_service::{PackFault, Service};

// Appends 29 bytes for each missing object.
fn append_missing<N: Naming>(
    alloc: Global,
    service: &Service<N>,
    tenant: &[u8],
    wants: &[u8],
    haves: &[u8],
    out: &mut Vec<u8>,
) -> Result<(), PackFault>
    ensures { Tells (missing_told tenant.now service.now wants.now haves.now) out.old.items result
        out.new.items }
{
    let wants = names_in(alloc, wants)?;
    let haves = names_in(alloc, haves)?;
    let objects = service.missing(tenant, &wants, &haves)?;
    Ok(append_listing(&objects, out)?)
}

// Appends the entries of the objects of these names.
fn append_entries<N: Naming>(
    alloc: Global,
    service: &Service<N>,
    tenant: &[u8],
    limit: u64,
    names: &[u8],
    out: &mut Vec<u8>,
) -> Result<(), PackFault>
    ensures { Tells (entries_told tenant.now service.now limit names.now) out.old.items result
        out.new.items }
{
    let names = names_in(alloc, names)?;
    service.entries(tenant, &names, limit, out)
}

// The answer to a question. A refused one has no reply.
fn answer_of(told: Result<(), PackFault>, out: &mut Vec<u8>) -> Answer
    ensures { (expected : Result (List ℕ) PackFault) → Tells expected [] told out.old.items
        → IsTold expected result out.new.items }
{
    match told {
        Ok(()) => Answer::Ok,
        Err(PackFault::Memory) => {
            out.clear();
            Answer::Memory(0)
        }
        Err(refused) => {
            out.clear();
            Answer::Fault(refused.code())
        }
    }
}

/// The answer to a Missing: 29 bytes for each object go to `out`.
pub(crate) fn answer_missing<N: Naming>(
    alloc: Global,
    service: &Service<N>,
    tenant: &[u8],
    wants: &[u8],
    haves: &[u8],
    out: &mut Vec<u8>,
) -> Answer
    requires { out.old.items ≡ [] }
    ensures { IsTold (missing_told tenant.now service.now wants.now haves.now) result
        out.new.items }
{
    let told = append_missing(alloc, service, tenant, wants, haves, out);
    answer_of(told, out)
}

/// The answer to an Entries: the entries go to `out`.
pub(crate) fn answer_entries<N: Naming>(
    alloc: Global,
    service: &Service<N>,
    tenant: &[u8],
    limit: u64,
    names: &[u8],
    out: &mut Vec<u8>,
) -> Answer
    requires { out.old.items ≡ [] }
    ensures { IsTold (entries_told tenant.now service.now limit names.now) result out.new.items }
{
    let told = append_entries(alloc, service, tenant, limit, names, out);
    answer_of(told, out)
}
