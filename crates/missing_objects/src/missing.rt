//! The places of the missing objects.

ghost use Rattle.std.specs.Prelude.{◌≡◌, ◌≤◌, [], length, IfOk, IfErr, Err, true, false};
ghost use Rattle.git_model.specs.HeldObjects.{AreHeld};
ghost use Rattle.missing_objects.specs.{Marks.{open_places}, Missing.{has_all, missing_places}};
ghost use Rattle.missing_objects.specs.declared.fault.MissingFault.TheVariants as fault;

use crate::fault::MissingFault;
use crate::marks::{Mark, Marks, mark_objects};
use crate::sweep::sweep;
use git_objects::{Memory, Name, Naming};
use std::alloc::Global;
use tenant_tables::Objects;

fn has_all<N: Naming>(objects: &Objects<'_, N>, ids: &[Name]) -> bool
    ensures { result ≡ has_all objects.now ids.now }
{
    ids.iter().all(|id| objects.has(id))
}

// The open places from a place on.
fn open_places(alloc: Global, marks: &Marks, len: usize, low: usize) -> Result<Vec<usize>, Memory>
    requires wanted { length marks.now.wanted ≡ len }
    requires had { length marks.now.had ≡ len }
    requires within { low ≤ len }
    ensures { open_places marks.now low ≡ []
        → IfOk result (λ places. places.items ≡ open_places marks.now len) }
{
    let mut places = Vec::new(alloc);
    for place in low..len {
        if marks.is_open(place) {
            places.push(place)?;
        }
    }
    Ok(places)
}

fn swept_places<N: Naming>(
    alloc: Global,
    objects: &Objects<'_, N>,
    wants: &[Name],
    haves: &[Name],
) -> Result<Vec<usize>, Memory>
    ensures { AreHeld N.digest_of objects.now → IfOk result (λ places. places.items
        ≡ missing_places objects.now wants.now haves.now) }
{
    let len = objects.len();
    let mut marks = Marks::none(alloc, len)?;
    mark_objects(objects, wants, Mark::Wanted, &mut marks);
    mark_objects(objects, haves, Mark::Had, &mut marks);
    let low = sweep(alloc, objects, &mut marks)?;
    open_places(alloc, &marks, len, low)
}

/// The places of the objects that the wanted names reach and the had names do not, in the order of
/// the repository, counted from 0: git-rev-list(1), `--objects WANT.. ^HAVE..`, but exact. An object
/// comes after all that it refers to. A had name that is that of no object counts for nothing.
///
/// The answer is right where the objects are held (`AreHeld` of git_model). `UnknownWant` (16) if a
/// wanted name is that of no object; else `Memory` (90) if an allocation fails. Nothing changes.
pub fn missing_places<N: Naming>(
    alloc: Global,
    objects: &Objects<'_, N>,
    wants: &[Name],
    haves: &[Name],
) -> Result<Vec<usize>, MissingFault>
    ensures known { IfOk result (λ places. has_all objects.now wants.now ≡ true) }
    ensures unknown { has_all objects.now wants.now ≡ false → result ≡ Err fault.UnknownWant }
    ensures refused { has_all objects.now wants.now ≡ true → IfErr result (λ e. e ≡ fault.Memory) }
    ensures missing { AreHeld N.digest_of objects.now → IfOk result (λ places. places.items
        ≡ missing_places objects.now wants.now haves.now) }
{
    if !has_all(objects, wants) {
        return Err(MissingFault::UnknownWant);
    }
    Ok(swept_places(alloc, objects, wants, haves)?)
}
