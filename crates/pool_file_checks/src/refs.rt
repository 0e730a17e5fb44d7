//! The checks of a tenant's refs and HEAD, in their order.

ghost use Rattle.std.specs.Prelude.{◌↔◌, ◌<◌, map, IfOk, IsTrue, All, None};
ghost use Rattle.tenant_refs.specs.FullName.{namespaces as namespaces_of};
ghost use Rattle.pool_file_checks.specs.Checks.{Checked};
ghost use Rattle.pool_file_checks.specs.FileRefs.{IsGoodRef, AreRising, ref_checks};
ghost use Rattle.pool_file_format.specs.Shown.{objects_of, ref_of, refs_of, tenant_of};

use crate::order::is_after;
use crate::targets::{is_short_ref_name, may_stand, target_at};
use git_objects::Memory;
use pool_file_format::{Fault, RawObject, RawRef, RawTenant, Refusal};
use std::alloc::Global;
use tenant_refs::namespaces;

fn is_good_ref(
    alloc: Global,
    front: &[u8],
    objects: &[RawObject],
    numbers: &[u64],
    one: &RawRef,
) -> Result<bool, Memory>
    ensures { IfOk result (λ b. IsTrue b
        ↔ IsGoodRef front.now (objects_of objects.now) numbers.now (ref_of one.now)) }
{
    match one.name.as_slice().strip_prefix(front) {
        Some(name) => may_stand(alloc, name, target_at(objects, numbers, one.place)),
        None => Ok(false),
    }
}

fn are_good_refs(
    alloc: Global,
    front: &[u8],
    objects: &[RawObject],
    numbers: &[u64],
    refs: &[RawRef],
) -> Result<bool, Memory>
    ensures { IfOk result (λ b. IsTrue b
        ↔ All (IsGoodRef front.now (objects_of objects.now) numbers.now) (refs_of refs.now)) }
{
    for one in refs {
        if !is_good_ref(alloc, front, objects, numbers, one)? {
            return Ok(false);
        }
    }
    Ok(true)
}

// Whether each ref of a tenant is a good one by itself.
fn has_good_refs(alloc: Global, objects: &[RawObject], tenant: &RawTenant) -> Result<bool, Memory>
    ensures { IfOk result (λ b. let t = tenant_of tenant.now in IsTrue b
        ↔ All (IsGoodRef (namespaces_of t.name) (objects_of objects.now) t.numbers) t.refs) }
{
    let front = namespaces(alloc, &tenant.name)?;
    are_good_refs(alloc, &front, objects, &tenant.numbers, &tenant.refs)
}

fn are_rising(refs: &[RawRef]) -> bool
    ensures { IsTrue result ↔ AreRising None (map (λ r. r.name) (refs_of refs.now)) }
{
    let mut last: Option<&[u8]> = None;
    for one in refs {
        if !is_after(last, &one.name) {
            return false;
        }
        last = Some(one.name.as_slice());
    }
    true
}

// Whether the place of each ref is below the count.
fn are_placed(count: u64, refs: &[RawRef]) -> bool
    ensures { IsTrue result ↔ All (λ r. r.place < count) (refs_of refs.now) }
{
    refs.iter().all(|one| one.place < count)
}

/// Judges the refs and HEAD of a tenant. `objects` are all objects of the file.
///
/// `Refused` with the first fault in this order; each is looked for in all refs before the next:
///
/// 1. `BadRef` (67) if a ref is outside of the tenant's namespaces, has a bad name or one of more
///    than 1,024 bytes, or has a target that is neither a commit nor the tag with the ref's name.
/// 2. `NotCanonical` (64) if a ref does not come after the one before it.
/// 3. `MissingReference` (66) if the tenant has no object at the place of a ref.
/// 4. `BadRef` (67) if HEAD has a bad name or one of more than 1,024 bytes.
///
/// `Memory` (90) if there is no memory to read a tag or for the namespaces.
pub fn check_refs(alloc: Global, objects: &[RawObject], tenant: &RawTenant) -> Result<(), Fault>
    ensures { Checked (ref_checks (objects_of objects.now) (tenant_of tenant.now)) result }
{
    if !has_good_refs(alloc, objects, tenant)? {
        return Err(Fault::Refused(Refusal::BadRef));
    }
    if !are_rising(&tenant.refs) {
        return Err(Fault::Refused(Refusal::NotCanonical));
    }
    if !are_placed(tenant.numbers.as_slice().len() as u64, &tenant.refs) {
        return Err(Fault::Refused(Refusal::MissingReference));
    }
    if !is_short_ref_name(&tenant.head) {
        return Err(Fault::Refused(Refusal::BadRef));
    }
    Ok(())
}
