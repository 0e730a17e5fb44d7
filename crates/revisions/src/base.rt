//! What a base names: gitrevisions(7), "Specifying Revisions", `<sha1>`, `<refname>` and `@`.

ghost use Rattle.std.specs.Prelude.{◌≡◌, ◌++◌, ◌∷◌, [], Option, IfOk, codes, filter_map, slice_get};
ghost use Rattle.git_model.specs.{RefStore.{target_of}, Results.{or_fault}};
ghost use Rattle.revisions.specs.Faults.{Gives};
ghost use Rattle.revisions.specs.Resolution.{is_head, ref_meant_by, only_one, abbreviated};
ghost use Rattle.revisions.specs.Resolution.{ref_or_abbreviation, if_there, base_named};
ghost use Rattle.revisions.specs.declared.fault.Fault.TheVariants as fault;

use crate::fault::Fault;
use git_objects::{Memory, Name, Naming};
use std::alloc::Global;
use tenant_refs::Refs;
use tenant_tables::{Found, Objects};

// Whether a base means the ref that HEAD names.
fn is_head(base: &[u8]) -> bool
    ensures { result ≡ is_head base.now }
{
    base == b"HEAD".as_slice() || base == b"@".as_slice()
}

fn only_one(found: Found) -> Result<Name, Fault>
    ensures { result ≡ only_one found }
{
    match found {
        Found::None => Err(Fault::UnknownRevision),
        Found::One(id) => Ok(id),
        Found::Many => Err(Fault::Ambiguous),
    }
}

// The one object whose name begins with 4 to 39 digits.
#[tactic(auto, unfolding(crate::specs::Resolution::abbreviated))]
fn abbreviated<N: Naming>(objects: &Objects<'_, N>, base: &[u8]) -> Result<Name, Fault>
    ensures { result ≡ abbreviated objects.now base.now }
{
    if base.len() < 4 || base.len() >= 40 {
        return Err(Fault::UnknownRevision);
    }
    only_one(objects.starting_with(base))
}

// What a ref in this directory holds.
fn held_in(
    alloc: Global,
    refs: &Refs,
    directory: &[u8],
    base: &[u8],
) -> Result<Option<Name>, Memory>
    ensures { IfOk result (λ held. held ≡ target_of refs.now (directory.now ++ base.now)) }
{
    let mut ref_name = Vec::from_slice(alloc, directory)?;
    ref_name.extend_from_slice(base)?;
    Ok(refs.get(&ref_name))
}

// What the HEAD of the remote of this name holds.
fn held_by_remote(alloc: Global, refs: &Refs, base: &[u8]) -> Result<Option<Name>, Memory>
    ensures { IfOk result
        (λ held. held ≡ target_of refs.now (codes "refs/remotes/" ++ base.now ++ codes "/HEAD")) }
{
    let mut ref_name = Vec::from_slice(alloc, b"refs/remotes/")?;
    ref_name.extend_from_slice(base)?;
    ref_name.extend_from_slice(b"/HEAD")?;
    Ok(refs.get(&ref_name))
}

// What the first branch that a base may mean holds: a branch of this repository, or of a remote.
fn held_by_branch(alloc: Global, refs: &Refs, base: &[u8]) -> Result<Option<Name>, Memory>
    ensures { IfOk result (λ held. held ≡ slice_get (filter_map (target_of refs.now)
        ((codes "refs/heads/" ++ base.now) ∷ (codes "refs/remotes/" ++ base.now)
        ∷ (codes "refs/remotes/" ++ base.now ++ codes "/HEAD") ∷ [])) 0) }
{
    if let Some(id) = held_in(alloc, refs, b"refs/heads/", base)? {
        return Ok(Some(id));
    }
    if let Some(id) = held_in(alloc, refs, b"refs/remotes/", base)? {
        return Ok(Some(id));
    }
    held_by_remote(alloc, refs, base)
}

// What the first ref that a base may mean holds.
fn ref_meant_by(alloc: Global, refs: &Refs, base: &[u8]) -> Result<Option<Name>, Memory>
    ensures { IfOk result (λ held. held ≡ ref_meant_by refs.now base.now) }
{
    if let Some(id) = refs.get(base) {
        return Ok(Some(id));
    }
    if let Some(id) = held_in(alloc, refs, b"refs/", base)? {
        return Ok(Some(id));
    }
    if let Some(id) = held_in(alloc, refs, b"refs/tags/", base)? {
        return Ok(Some(id));
    }
    held_by_branch(alloc, refs, base)
}

// The object of a base that is neither HEAD nor forty digits. A ref comes before an abbreviation.
fn ref_or_abbreviation<N: Naming>(
    alloc: Global,
    objects: &Objects<'_, N>,
    refs: &Refs,
    base: &[u8],
) -> Result<Name, Fault>
    ensures { Gives result
        (ref_or_abbreviation objects.now base.now (ref_meant_by refs.now base.now)) }
{
    match ref_meant_by(alloc, refs, base)? {
        Some(id) => Ok(id),
        None => abbreviated(objects, base),
    }
}

/// This name, where an object has it; else `Fault::UnknownRevision` (16).
pub(crate) fn if_there<N: Naming>(objects: &Objects<'_, N>, id: Name) -> Result<Name, Fault>
    ensures { result ≡ if_there objects.now id }
{
    if objects.has(&id) {
        Ok(id)
    } else {
        Err(Fault::UnknownRevision)
    }
}

// What the ref that HEAD names holds.
fn head_target(refs: &Refs) -> Result<Name, Fault>
    ensures { result ≡ or_fault fault.UnknownRevision (target_of refs.now refs.now.head) }
{
    match refs.get(refs.head()) {
        Some(id) => Ok(id),
        None => Err(Fault::UnknownRevision),
    }
}

/// What a base names. HEAD and `@` name what the ref that HEAD names holds. Forty digits name the
/// object of that name, and nothing else is tried. Any other base names what the first ref that it
/// may mean holds, or else the one object whose name begins with it.
///
/// `Fault::UnknownRevision` (16) where there is none of these, `Fault::Ambiguous` (17) where
/// several names begin with it, `Fault::Memory` (90) where there is no room for a ref's name.
pub(crate) fn base_named<N: Naming>(
    alloc: Global,
    objects: &Objects<'_, N>,
    refs: &Refs,
    base: &[u8],
) -> Result<Name, Fault>
    ensures { Gives result (base_named objects.now refs.now base.now) }
{
    if is_head(base) {
        return head_target(refs);
    }
    match Name::from_hex(base) {
        Some(id) => if_there(objects, id),
        None => ref_or_abbreviation(alloc, objects, refs, base),
    }
}
