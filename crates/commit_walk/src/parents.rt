//! The positions of the parents of commits, for walks that go over them again and again.

ghost use Rattle.std.specs.Prelude.{◌≡◌, ◌<◌, length, IfOk};
ghost use Rattle.git_model.specs.{References.{object_at}, HeldObjects.{AreHeld}};
ghost use Rattle.commit_walk.specs.Remembered.{AreParentPlaces, parent_places};

use crate::commits::parents_at;
use git_objects::{Memory, Naming};
use std::alloc::Global;
use tenant_tables::Objects;

/// The positions of the parents of each object, the oldest object first. `Memory` (90) if there is
/// no room for them.
pub(crate) fn parent_places<N: Naming>(
    alloc: Global,
    objects: &Objects<'_, N>,
) -> Result<Vec<Vec<usize>>, Memory>
    ensures size { IfOk result (λ rows. length rows.items ≡ length objects.now) }
    ensures places { AreHeld N.digest_of objects.now
        → IfOk result (λ rows. AreParentPlaces objects.now rows.items) }
{
    let count = objects.len();
    let mut rows = Vec::with_capacity(alloc, count)?;
    for place in 0..count {
        let row = places_at(alloc, objects, place)?;
        rows.push(row)?;
    }
    Ok(rows)
}

// The positions of the parents of the object at a position.
fn places_at<N: Naming>(
    alloc: Global,
    objects: &Objects<'_, N>,
    place: usize,
) -> Result<Vec<usize>, Memory>
    requires { place < length objects.now }
    ensures { AreHeld N.digest_of objects.now → IfOk result (λ row. row.items
        ≡ parent_places objects.now (object_at place objects.now).id) }
{
    let ids = parents_at(alloc, objects, place)?;
    let mut places = Vec::with_capacity(alloc, ids.len())?;
    for id in &ids {
        let parent = objects.place(id).unwrap_or(objects.len());
        places.push(parent)?;
    }
    Ok(places)
}
