//! The sweep from the last object to the first.
//!
//! When it comes to an object, it has read all that refers to the object, so whether the object is
//! wanted and whether it is had is settled. It stops when no open object lies below.

ghost use Rattle.std.specs.Prelude.{◌≡◌, ◌<◌, ◌≤◌, ℕ, List, [], length, IfOk, OnOk};
ghost use Rattle.git_model.specs.{HeldObjects.{AreHeld}, References.{object_at, referred_by}};
ghost use Rattle.missing_objects.specs.Marks.{AreMarksOf, first_marks, is_open, marks_at};
ghost use Rattle.missing_objects.specs.{Marks.{open_places, with_marks}, Missing.{is_missing}};

use crate::marks::{Mark, Marks, mark_objects};
use export_text::referring::referred_by;
use git_objects::{Memory, Naming};
use std::alloc::Global;
use tenant_tables::Objects;

// Marks what the object at a place refers to.
fn mark_references<N: Naming>(
    alloc: Global,
    objects: &Objects<'_, N>,
    place: usize,
    with: Mark,
    marks: &mut Marks,
) -> Result<(), Memory>
    requires size { AreMarksOf objects.now marks.old }
    requires there { place < length objects.now }
    ensures size { AreMarksOf objects.now marks.new }
    ensures marked { AreHeld N.digest_of objects.now
        → OnOk result (marks.new ≡ with_marks with objects.now marks.old
        (referred_by objects.now (object_at place objects.now).id)) }
{
    let ids = referred_by(alloc, objects, place)?;
    mark_objects(objects, &ids, with, marks);
    Ok(())
}

// Passes on what the object at a place is marked as. Gives whether the object is open.
fn visit<N: Naming>(
    alloc: Global,
    objects: &Objects<'_, N>,
    place: usize,
    marks: &mut Marks,
) -> Result<bool, Memory>
    requires size { AreMarksOf objects.now marks.old }
    requires there { place < length objects.now }
    ensures size { AreMarksOf objects.now marks.new }
    ensures told { IfOk result (λ found. found ≡ is_open marks.old place) }
    ensures passed { AreHeld N.digest_of objects.now
        → OnOk result (marks.new ≡ marks_at objects.now marks.old place) }
{
    if marks.is_had(place) {
        mark_references(alloc, objects, place, Mark::Had, marks)?;
        return Ok(false);
    }
    if marks.is_open(place) {
        mark_references(alloc, objects, place, Mark::Wanted, marks)?;
        return Ok(true);
    }
    Ok(false)
}

/// Sweeps from the last object down until no open object lies below, and gives the place that the
/// sweep came to. Then the open objects are the missing ones.
///
/// `Memory` (90) where there is no room to read an object.
pub fn sweep<N: Naming>(
    alloc: Global,
    objects: &Objects<'_, N>,
    marks: &mut Marks,
) -> Result<usize, Memory>
    requires size { AreMarksOf objects.now marks.old }
    ensures size { AreMarksOf objects.now marks.new }
    ensures within { IfOk result (λ low. low ≤ length objects.now) }
    ensures none { AreHeld N.digest_of objects.now → (wants haves : List (List ℕ))
        → marks.old ≡ first_marks objects.now wants haves
        → IfOk result (λ low. open_places marks.new low ≡ []) }
    ensures settled { AreHeld N.digest_of objects.now → (wants haves : List (List ℕ))
        → marks.old ≡ first_marks objects.now wants haves
        → OnOk result ((p : ℕ) → p < length objects.now
        → is_open marks.new p ≡ is_missing objects.now wants haves (object_at p objects.now)) }
{
    let mut place = objects.len();
    let mut found = 0;
    while place > 0 && found < marks.open_count() {
        place -= 1;
        found += usize::from(visit(alloc, objects, place, marks)?);
    }
    Ok(place)
}
