//! Walks from a commit to all that it reaches.

ghost use Rattle.std.specs.Prelude.{◌≡◌, ◌+◌, ◌-◌, ◌<◌, ◌≤◌, ℕ, List, length, map, replicate};
ghost use Rattle.std.specs.Prelude.{false, IfOk, OnOk};
ghost use Rattle.git_model.specs.{References.{object_at, parents_of}, HeldObjects.{AreHeld}};
ghost use Rattle.git_model.specs.{Reach.{reaches}, Repository.{Object}};
ghost use Rattle.tenant_tables.specs.{Objects.{objects}, IsBackedBy.{IsBackedBy}};
ghost use Rattle.commit_walk.specs.{Marks.{Marks, IsReached}, Remembered.{AreParentPlaces}};

use crate::ancestry::Ancestry;
use crate::commits::{commit_place, parents_at};
use crate::marks::{mark_all, mark_places};
use content_pool::Pool;
use git_objects::{Memory, Name, Naming};
use std::alloc::Global;
use tenant_tables::{Objects, Sight, Table};

/// Whether the commit `old` is reachable from the commit `tip` ("reachable" of gitglossary(7)):
/// whether it is that commit, one of its parents, one of theirs, and so on. `false` if one of the
/// names is not that of a commit in the table.
///
/// The pool must be the one that holds the contents of the table. The answer is right if the
/// objects of the table are held (`AreHeld` of git_model). The walk reads only commits after
/// `old`. `Memory` (90) if there is no room for the walk.
pub fn reaches<N: Naming>(
    alloc: Global,
    pool: &Pool<N>,
    table: &Table,
    tip: &Name,
    old: &Name,
) -> Result<bool, Memory>
    requires { IsBackedBy N.digest_of pool.now table.now.entries }
    ensures { let os = objects pool.now table.now.entries in
        AreHeld N.digest_of os → IfOk result (λ yes. yes ≡ reaches os tip.now old.now) }
{
    let mut ancestry = Ancestry::of(Objects::of(pool, table, Sight::All));
    let is_reached = ancestry.reaches(alloc, tip, old)?;
    Ok(is_reached)
}

/// Which objects are commits that are reachable from the commit `tip`: one flag for each object,
/// the oldest object first. All are `false` if the name is not that of a commit.
///
/// The answer is right if the objects are held (`AreHeld` of git_model). `Memory` (90) if there
/// is no room for the walk.
pub fn reached_from<N: Naming>(
    alloc: Global,
    objects: &Objects<'_, N>,
    tip: &Name,
) -> Result<Vec<bool>, Memory>
    ensures size { IfOk result (λ flags. length flags.items ≡ length objects.now) }
    ensures reached { AreHeld N.digest_of objects.now → IfOk result
        (λ flags. flags.items ≡ map (λ o. reaches objects.now tip.now o.id) objects.now) }
{
    let mut flags = vec![in alloc; false; objects.len()]?;
    mark_reached(alloc, objects, tip, &mut flags)?;
    Ok(flags)
}

// Marks the commits that are reachable from the commit `tip`; none if the name is not of a commit.
fn mark_reached<N: Naming>(
    alloc: Global,
    objects: &Objects<'_, N>,
    tip: &Name,
    flags: &mut [bool],
) -> Result<(), Memory>
    requires { flags.old ≡ replicate (length objects.now) false }
    ensures { AreHeld N.digest_of objects.now → OnOk result
        (flags.new ≡ map (λ o. reaches objects.now tip.now o.id) objects.now) }
{
    let Some(top) = commit_place(objects, tip) else {
        return Ok(());
    };
    walk(alloc, objects, 0, top, flags)
}

/// Marks all that the commit at position `top` reaches, from position `floor` on. `Memory` (90) if
/// there is no room for the parents of a commit.
pub(crate) fn walk<N: Naming>(
    alloc: Global,
    objects: &Objects<'_, N>,
    floor: usize,
    top: usize,
    flags: &mut [bool],
) -> Result<(), Memory>
    requires above { floor ≤ top }
    requires within { top < floor + length flags.old }
    requires there { floor + length flags.old ≤ length objects.now }
    requires blank { flags.old ≡ replicate (length flags.old) false }
    ensures { AreHeld N.digest_of objects.now → OnOk result
        (IsReached objects.now (object_at top objects.now).id floor flags.new) }
{
    flags[top - floor] = true;
    let mut place = top;
    while place > floor {
        if flags[place - floor] {
            mark_parents(alloc, objects, floor, place, flags)?;
        }
        place -= 1;
    }
    Ok(())
}

// Marks the parents of the commit at a position.
fn mark_parents<N: Naming>(
    alloc: Global,
    objects: &Objects<'_, N>,
    floor: usize,
    place: usize,
    flags: &mut [bool],
) -> Result<(), Memory>
    requires { place < length objects.now }
    ensures { AreHeld N.digest_of objects.now → OnOk result (Marks objects.now floor flags.old
        flags.new (parents_of objects.now (object_at place objects.now).id)) }
{
    let parents = parents_at(alloc, objects, place)?;
    mark_all(objects, floor, &parents, flags);
    Ok(())
}

/// The same by the positions of the parents of each object, the oldest first. Takes no memory.
pub(crate) fn walk_by(parents: &[Vec<usize>], floor: usize, top: usize, flags: &mut [bool])
    requires above { floor ≤ top }
    requires within { top < floor + length flags.old }
    requires there { floor + length flags.old ≤ length parents.now }
    requires blank { flags.old ≡ replicate (length flags.old) false }
    ensures { (digest : List ℕ → List ℕ) (os : List Object) → AreHeld digest os
        → AreParentPlaces os parents.now
        → IsReached os (object_at top os).id floor flags.new }
{
    flags[top - floor] = true;
    let mut place = top;
    while place > floor {
        if flags[place - floor] {
            mark_places(&parents[place], floor, flags);
        }
        place -= 1;
    }
}
