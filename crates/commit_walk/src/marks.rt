//! Marks of objects: one flag for each position from `floor` on.

ghost use Rattle.std.specs.Prelude.{◌≡◌, ◌+◌, ◌≤◌, ℕ, List, [], ◌∷◌, length, map};
ghost use Rattle.git_model.specs.{Repository.{Object}, References.{place_of}};
ghost use Rattle.commit_walk.specs.Marks.{Marks};

use git_objects::{Name, Naming};
use tenant_tables::Objects;

/// Marks the objects of these names whose positions have a flag. Takes no memory.
pub fn mark_all<N: Naming>(objects: &Objects<'_, N>, floor: usize, ids: &[Name], flags: &mut [bool])
    ensures { Marks objects.now floor flags.old flags.new ids.now }
{
    for id in ids {
        mark(objects, floor, id, flags);
    }
}

fn mark<N: Naming>(objects: &Objects<'_, N>, floor: usize, id: &Name, flags: &mut [bool])
    ensures { Marks objects.now floor flags.old flags.new (id.now ∷ []) }
{
    let Some(place) = objects.place(id) else {
        return;
    };
    if place < floor {
        return;
    }
    let offset = place - floor;
    if offset < flags.len() {
        flags[offset] = true;
    }
}

/// Marks the objects at these positions that have a flag. Takes no memory.
pub fn mark_places(places: &[usize], floor: usize, flags: &mut [bool])
    ensures { (os : List Object) (ids : List (List ℕ)) → floor + length flags.old ≤ length os
        → places.now ≡ map (λ id. place_of id os) ids → Marks os floor flags.old flags.new ids }
{
    for place in places {
        mark_place(*place, floor, flags);
    }
}

fn mark_place(place: usize, floor: usize, flags: &mut [bool])
    ensures { (os : List Object) (id : List ℕ) → floor + length flags.old ≤ length os
        → place ≡ place_of id os → Marks os floor flags.old flags.new (id ∷ []) }
{
    if place < floor {
        return;
    }
    let offset = place - floor;
    if offset < flags.len() {
        flags[offset] = true;
    }
}
