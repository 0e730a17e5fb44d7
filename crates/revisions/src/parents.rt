//! Parents of commits: gitrevisions(7), `<rev>^<n>`.

ghost use Rattle.std.specs.Prelude.{◌≡◌, IfOk, slice_get};
ghost use Rattle.git_model.specs.References.{parents_in, parents_of};
ghost use Rattle.git_model.specs.{HeldObjects.{AreHeld}, Readable.{IsReadable}};
ghost use Rattle.revisions.specs.{Faults.{Gives}, Resolution.{nth_parent}};

use crate::contents::parent_in;
use crate::fault::Fault;
use git_objects::{Kind, Memory, Name, Naming};
use std::alloc::Global;
use tenant_tables::Objects;

// The parent at a position of an object of this kind with these contents.
fn parent_from(
    alloc: Global,
    kind: Kind,
    contents: &[u8],
    position: usize,
) -> Result<Option<Name>, Memory>
    ensures { IsReadable kind contents.now
        → IfOk result (λ parent. parent ≡ slice_get (parents_in kind contents.now) position) }
{
    match kind {
        Kind::Commit => parent_in(alloc, contents, position),
        _ => Ok(None),
    }
}

// The parent at a position, counted from 0; no other object than a commit has any.
fn parent_at<N: Naming>(
    alloc: Global,
    objects: &Objects<'_, N>,
    id: &Name,
    position: usize,
) -> Result<Option<Name>, Memory>
    ensures { AreHeld N.digest_of objects.now
        → IfOk result (λ parent. parent ≡ slice_get (parents_of objects.now id.now) position) }
{
    match objects.get(id) {
        Some((kind, contents)) => parent_from(alloc, kind, contents, position),
        None => Ok(None),
    }
}

/// The nth parent of a commit, counted from 1; the commit itself where n is 0.
///
/// `Fault::UnknownRevision` (16) where it has fewer parents; `Fault::Memory` (90) where there is no
/// room to read the commit.
pub(crate) fn nth_parent<N: Naming>(
    alloc: Global,
    objects: &Objects<'_, N>,
    n: u32,
    commit: Name,
) -> Result<Name, Fault>
    ensures { AreHeld N.digest_of objects.now → Gives result (nth_parent objects.now n commit) }
{
    if n == 0 {
        return Ok(commit);
    }
    match parent_at(alloc, objects, &commit, (n - 1) as usize)? {
        Some(parent) => Ok(parent),
        None => Err(Fault::UnknownRevision),
    }
}
