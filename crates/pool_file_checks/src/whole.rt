//! All checks of a pool file, in their order.

ghost use Rattle.std.specs.Prelude.{◌≡◌, ◌<◌, ℕ, List, length, All, IfOk, None};
ghost use Rattle.std.specs.Option.{option_map};
ghost use Rattle.pool_file_checks.specs.{Checks.{Passes, Checked}, Objects.{CanStore}};
ghost use Rattle.pool_file_checks.specs.{Own.{names_of}, Quick.{KnowsSums}, Whole.{file_checks}};
ghost use Rattle.pool_file_checks.specs.Whole.{own_checks, one_tenant_checks, tenant_checks};
ghost use Rattle.pool_file_format.specs.Shown.{objects_of, tenant_of, tenants_of, file_of};
ghost use Rattle.pool_file_format.specs.Taking.{shown};

use crate::held::check_held;
use crate::judging::check_objects;
use crate::known::KnownSums;
use crate::own::{are_same, index_objects};
use crate::quick::pass_file;
use crate::references::check_references;
use crate::refs::check_refs;
use crate::sums::check_sums;
use crate::tenants::{check_name, check_numbers};
use git_names::Name;
use pool_file_format::{Fault, RawFile, RawObject, RawTenant};
use std::alloc::Global;

// Judges the names of a tenant's objects, what they refer to, and the sizes of its trees. The objects
// of the numbers in `judged` have passed, and are not judged again.
fn check_own(
    alloc: Global,
    objects: &[RawObject],
    names: &[Name],
    judged: &[u64],
    numbers: &[u64],
) -> Result<(), Fault>
    ensures { (digest : List ℕ → List ℕ) → names.now ≡ names_of digest (objects_of objects.now)
        → All CanStore (objects_of objects.now) → All (λ n. n < length objects.now) numbers.now
        → Passes (own_checks digest (objects_of objects.now) judged.now)
        → Checked (own_checks digest (objects_of objects.now) numbers.now) result }
{
    if are_same(judged, numbers) {
        return Ok(());
    }
    let index = index_objects(alloc, names, numbers)?;
    check_references(alloc, objects, &index)?;
    check_sums(alloc, objects, &index)
}

fn check_tenant(
    alloc: Global,
    version: u32,
    objects: &[RawObject],
    names: &[Name],
    last: Option<&[u8]>,
    judged: &[u64],
    tenant: &RawTenant,
) -> Result<(), Fault>
    ensures { (digest : List ℕ → List ℕ) → names.now ≡ names_of digest (objects_of objects.now)
        → All CanStore (objects_of objects.now)
        → Passes (own_checks digest (objects_of objects.now) judged.now)
        → Checked (one_tenant_checks digest version (objects_of objects.now)
        (option_map (λ o. o.now) last.entry) (tenant_of tenant.now)) result }
{
    check_name(version, last, tenant)?;
    check_numbers(objects.len() as u64, tenant)?;
    check_own(alloc, objects, names, judged, &tenant.numbers)?;
    check_refs(alloc, objects, tenant)
}

fn check_tenants(
    alloc: Global,
    version: u32,
    objects: &[RawObject],
    names: &[Name],
    tenants: &[RawTenant],
) -> Result<(), Fault>
    ensures { (digest : List ℕ → List ℕ) → names.now ≡ names_of digest (objects_of objects.now)
        → All CanStore (objects_of objects.now)
        → Checked (tenant_checks digest version (objects_of objects.now) None
        (tenants_of tenants.now)) result }
{
    let mut last: Option<&[u8]> = None;
    let mut judged: &[u64] = &[];
    for tenant in tenants {
        check_tenant(alloc, version, objects, names, last, judged, tenant)?;
        last = Some(tenant.name.as_slice());
        judged = tenant.numbers.as_slice();
    }
    Ok(())
}

// Makes all checks of a file in their order.
fn check_in_order(alloc: Global, names: &[Name], file: &RawFile) -> Result<(), Fault>
    ensures { (digest : List ℕ → List ℕ)
        → names.now ≡ names_of digest (objects_of file.now.objects.items)
        → Checked (file_checks digest (file_of file.now)) result }
{
    check_objects(alloc, &file.objects)?;
    check_tenants(alloc, file.version, &file.objects, names, &file.tenants)?;
    check_held(alloc, file.objects.as_slice().len(), &file.tenants)
}

/// `check_file`, which also answers the summaries of a tenant's objects, if they were found.
pub fn judge_file(alloc: Global, names: &[Name], file: &RawFile) -> Result<KnownSums, Fault>
    ensures checks { (digest : List ℕ → List ℕ)
        → names.now ≡ names_of digest (objects_of file.now.objects.items)
        → Checked (file_checks digest (file_of file.now)) (shown (λ _. tt) result) }
    ensures known { (digest : List ℕ → List ℕ)
        → names.now ≡ names_of digest (objects_of file.now.objects.items)
        → IfOk result (KnowsSums digest (objects_of file.now.objects.items)) }
{
    match pass_file(alloc, names, file) {
        Ok(known) => Ok(known),
        Err(Fault::Memory) => Err(Fault::Memory),
        Err(_) => match check_in_order(alloc, names, file) {
            Ok(()) => Ok(KnownSums::none(alloc)),
            Err(refused) => Err(refused),
        },
    }
}

/// Judges what a pool file says. `names` are the names of its objects, as `name_objects` answers
/// them. Objects with which several tenants begin are mostly judged once.
///
/// - `Refused` with the first fault. First come the objects: `BadObject` (65) and `NotCanonical`
///   (64), as in `check_objects`. Then comes each tenant in turn, with the refusals of
///   `check_name`, `check_numbers`, `index_objects`, `check_references`, `check_sums` and
///   `check_refs`, in this order. Last comes `NotCanonical` if an object belongs to no tenant.
/// - `Memory` (90) if there is no memory for what is read or marked.
///
/// Nothing is changed.
pub fn check_file(alloc: Global, names: &[Name], file: &RawFile) -> Result<(), Fault>
    ensures { (digest : List ℕ → List ℕ)
        → names.now ≡ names_of digest (objects_of file.now.objects.items)
        → Checked (file_checks digest (file_of file.now)) result }
{
    match judge_file(alloc, names, file) {
        Ok(_) => Ok(()),
        Err(refused) => Err(refused),
    }
}
