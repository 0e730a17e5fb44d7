//! A quick look at a whole file, in which each object of a tenant is read once.
//!
//! `Ok` says that all checks of a file hold. A refusal only says that they do not, or that the look
//! does not tell: which refusal is the first is left to the checks in their order.

ghost use Rattle.std.specs.{Prelude.{◌≡◌, ℕ, List, map, All, None, IfOk, OnOk}, Bool.{OnTrue}};
ghost use Rattle.std.specs.Option.{option_map};
ghost use Rattle.pool_file_checks.specs.{Checks.{Passes}, FileRefs.{AreRising}, Fronts.{IsFront}};
ghost use Rattle.pool_file_checks.specs.{Held.{numbers_of}, Objects.{IsContent, object_key}};
ghost use Rattle.pool_file_checks.specs.{Own.{content_at, names_of}, Quick.{HasKind, KnowsSums}};
ghost use Rattle.pool_file_checks.specs.Whole.{one_tenant_checks, tenant_checks, file_checks};
ghost use Rattle.pool_file_format.specs.Shown.{object_of, objects_of, tenant_of, tenants_of};
ghost use Rattle.pool_file_format.specs.Shown.{file_of};

use crate::contents::kind_from;
use crate::fronts::{Front, take_front};
use crate::held::check_held;
use crate::judging::is_after;
use crate::known::KnownSums;
use crate::refs::check_refs;
use crate::tenants::{check_name, check_numbers};
use git_names::Name;
use pool_file_format::{Fault, RawFile, RawObject, RawTenant, Refusal};
use std::alloc::Global;

fn has_kind(object: &RawObject) -> bool
    ensures { OnTrue result (HasKind (object_of object.now)) }
{
    match kind_from(object.kind) {
        Some(_) => true,
        None => false,
    }
}

// Whether each object has the byte of a kind.
fn have_kinds(objects: &[RawObject]) -> bool
    ensures { OnTrue result (All HasKind (objects_of objects.now)) }
{
    for object in objects {
        if !has_kind(object) {
            return false;
        }
    }
    true
}

// Whether each object comes after the one before it.
fn are_rising(objects: &[RawObject]) -> bool
    ensures { OnTrue result (AreRising None (map object_key (objects_of objects.now))) }
{
    let mut last: Option<&RawObject> = None;
    for object in objects {
        if !is_after(last, object) {
            return false;
        }
        last = Some(object);
    }
    true
}

// Both.
fn are_in_order(objects: &[RawObject]) -> bool
    ensures kinds { OnTrue result (All HasKind (objects_of objects.now)) }
    ensures rising { OnTrue result (AreRising None (map object_key (objects_of objects.now))) }
{
    have_kinds(objects) && are_rising(objects)
}

fn pass_tenant(
    alloc: Global,
    version: u32,
    objects: &[RawObject],
    names: &[Name],
    last: Option<&[u8]>,
    front: &mut Front,
    tenant: &RawTenant,
) -> Result<(), Fault>
    ensures checks { (digest : List ℕ → List ℕ)
        → names.now ≡ names_of digest (objects_of objects.now)
        → IsFront digest (objects_of objects.now) front.old
        → OnOk result (Passes (one_tenant_checks digest version (objects_of objects.now)
        (option_map (λ o. o.now) last.entry) (tenant_of tenant.now))) }
    ensures front { (digest : List ℕ → List ℕ)
        → names.now ≡ names_of digest (objects_of objects.now)
        → IsFront digest (objects_of objects.now) front.old
        → OnOk result (IsFront digest (objects_of objects.now) front.new
        × (front.new.numbers.items ≡ (tenant_of tenant.now).numbers)) }
{
    check_name(version, last, tenant)?;
    check_numbers(objects.len() as u64, tenant)?;
    front.pass(alloc, objects, names, &tenant.numbers)?;
    check_refs(alloc, objects, tenant)?;
    Ok(())
}

// Passes the tenants, and answers the summaries of the first one that has any.
fn pass_tenants(
    alloc: Global,
    version: u32,
    objects: &[RawObject],
    names: &[Name],
    tenants: &[RawTenant],
) -> Result<KnownSums, Fault>
    ensures checks { (digest : List ℕ → List ℕ)
        → names.now ≡ names_of digest (objects_of objects.now)
        → OnOk result (Passes (tenant_checks digest version (objects_of objects.now) None
        (tenants_of tenants.now))) }
    ensures contents { (digest : List ℕ → List ℕ)
        → names.now ≡ names_of digest (objects_of objects.now)
        → OnOk result (All (λ n. IsContent (content_at (objects_of objects.now) n))
        (numbers_of (tenants_of tenants.now))) }
    ensures known { (digest : List ℕ → List ℕ)
        → names.now ≡ names_of digest (objects_of objects.now)
        → IfOk result (KnowsSums digest (objects_of objects.now)) }
{
    let mut known = KnownSums::none(alloc);
    let mut last: Option<&[u8]> = None;
    let mut fronts = Vec::new(alloc);
    for tenant in tenants {
        let mut front = take_front(alloc, &mut fronts, objects.len(), &tenant.numbers)?;
        pass_tenant(alloc, version, objects, names, last, &mut front, tenant)?;
        known.note(alloc, &tenant.numbers, front.sums())?;
        last = Some(tenant.name.as_slice());
        fronts.push(front)?;
    }
    Ok(known)
}

/// Passes a file in which all is good, and answers the summaries of a tenant's objects. `names` are the names of its objects, as `name_objects`
/// answers them. Objects with which several tenants begin are mostly read once.
///
/// A refusal only says that the look does not tell; it need not be the first one of the file.
/// `Memory` (90) if there is no memory for what is read or marked.
///
/// Nothing is changed.
pub fn pass_file(alloc: Global, names: &[Name], file: &RawFile) -> Result<KnownSums, Fault>
    ensures checks { (digest : List ℕ → List ℕ)
        → names.now ≡ names_of digest (objects_of file.now.objects.items)
        → OnOk result (Passes (file_checks digest (file_of file.now))) }
    ensures known { (digest : List ℕ → List ℕ)
        → names.now ≡ names_of digest (objects_of file.now.objects.items)
        → IfOk result (KnowsSums digest (objects_of file.now.objects.items)) }
{
    if !are_in_order(&file.objects) {
        return Err(Fault::Refused(Refusal::NotCanonical));
    }
    let known = pass_tenants(alloc, file.version, &file.objects, names, &file.tenants)?;
    check_held(alloc, file.objects.as_slice().len(), &file.tenants)?;
    Ok(known)
}
