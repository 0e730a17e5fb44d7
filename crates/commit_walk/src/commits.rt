//! Commits among objects, and their parents.

ghost use Rattle.std.specs.Prelude.{◌≡◌, ◌<◌, length, true, false, MatchOption, IfOk};
ghost use Rattle.git_model.specs.{References.{place_of, object_at, parents_of}, Peeling.{is_of}};
ghost use Rattle.git_model.specs.HeldObjects.{AreHeld};

use crate::lines::parents_in;
use git_objects::{Kind, Memory, Name, Naming};
use std::alloc::Global;
use tenant_tables::Objects;

/// The position of a commit; `None` if the name is not that of a commit. Takes no memory.
pub fn commit_place<N: Naming>(objects: &Objects<'_, N>, id: &Name) -> Option<usize>
    ensures { MatchOption result (is_of objects.now Kind.Commit id.now ≡ false)
        (λ place. (is_of objects.now Kind.Commit id.now ≡ true)
        × (place_of id.now objects.now ≡ place) × (place < length objects.now)) }
{
    let place = objects.place(id)?;
    let Some((_, kind, _)) = objects.at(place) else {
        return None;
    };
    if kind == Kind::Commit {
        Some(place)
    } else {
        None
    }
}

/// The names of the parents of the object at a position. Only a commit has parents. `Memory` (90)
/// if there is no room for them.
pub fn parents_at<N: Naming>(
    alloc: Global,
    objects: &Objects<'_, N>,
    place: usize,
) -> Result<Vec<Name>, Memory>
    requires { place < length objects.now }
    ensures { AreHeld N.digest_of objects.now → IfOk result
        (λ parents. parents.items ≡ parents_of objects.now (object_at place objects.now).id) }
{
    let Some((_, kind, contents)) = objects.at(place) else {
        return Ok(Vec::new(alloc));
    };
    if kind != Kind::Commit {
        return Ok(Vec::new(alloc));
    }
    let parents = parents_in(alloc, contents)?;
    Ok(parents)
}
