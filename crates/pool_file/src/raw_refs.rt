//! The refs of a tenant, with their full names and the places of their targets.

ghost use Rattle.std.specs.Prelude.{◌≡◌, ◌++◌, IfOk, map};
ghost use Rattle.content_pool.specs.Pool.{Cells};
ghost use Rattle.git_model.specs.{References.{place_of}, RefStore.{listed_refs}};
ghost use Rattle.pool_file_format.specs.Shown.{refs_of};
ghost use Rattle.pool_file_checks.specs.Repositories.{raw_ref};
ghost use Rattle.pool_file.specs.Worth.{named_in};

use crate::tenant_view::TenantView;
use git_names::{Memory, Name};
use pool_file_format::RawRef;
use std::alloc::Global;
use tenant_refs::namespaces;

// One text after another.
fn joined(alloc: Global, front: &[u8], rest: &[u8]) -> Result<Vec<u8>, Memory>
    ensures { IfOk result (λ whole. whole.items ≡ front.now ++ rest.now) }
{
    let mut whole = Vec::with_capacity(alloc, front.len())?;
    whole.extend_from_slice(front)?;
    whole.extend_from_slice(rest)?;
    Ok(whole)
}

// A ref as the file has it. `front` are the namespaces of its tenant.
fn raw_ref(
    alloc: Global,
    front: &[u8],
    tenant: &TenantView<'_>,
    ref_name: &[u8],
    target: &Name,
) -> Result<RawRef, Memory>
    ensures { IfOk result (λ one. (one.name.items ≡ front.now ++ ref_name.now)
        × ((pool : Cells)
        → one.place ≡ place_of target.now (named_in pool tenant.now).repository.objects)) }
{
    let name = joined(alloc, front, ref_name)?;
    let place = tenant.place(target) as u64;
    Ok(RawRef { name, place })
}

/// All refs of a tenant, as the file has them.
///
/// `Memory` (90) if there is no memory for them.
pub fn raw_refs(alloc: Global, tenant: &TenantView<'_>) -> Result<Vec<RawRef>, Memory>
    ensures { IfOk result (λ refs. (pool : Cells) → refs_of refs.items
        ≡ map (raw_ref (named_in pool tenant.now)) (listed_refs tenant.now.refs.now)) }
{
    let front = namespaces(alloc, tenant.name.as_bytes())?;
    let mut refs = Vec::new(alloc);
    for position in 0..tenant.refs.len() {
        let Some(entry) = tenant.refs.at(position) else {
            return Ok(refs);
        };
        refs.push(raw_ref(alloc, &front, tenant, entry.0, &entry.1)?)?;
    }
    Ok(refs)
}
