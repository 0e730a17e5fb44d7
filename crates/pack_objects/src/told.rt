//! The missing objects with their kinds and sizes.

ghost use Rattle.std.specs.Prelude.{◌≡◌, IfOk, filter_map, slice_get, true, false, Err, IfErr};
ghost use Rattle.std.specs.Option.{option_map};
ghost use Rattle.git_model.specs.HeldObjects.{AreHeld};
ghost use Rattle.missing_objects.specs.Missing.{has_all};
ghost use Rattle.pack_objects.specs.Missing.{TellsMissing, missing_asked, told_of};
ghost use Rattle.pack_objects.specs.declared.fault.PackFault.TheVariants as fault;

use crate::fault::PackFault;
use crate::missing_object::MissingObject;
use git_objects::{Memory, Name, Naming};
use missing_objects::missing_places;
use std::alloc::Global;
use tenant_tables::Objects;

// The object at a place, as it is told. No contents are read.
fn told_of<N: Naming>(objects: &Objects<'_, N>, place: usize) -> Option<MissingObject>
    ensures { result ≡ option_map told_of (slice_get objects.now place) }
{
    match objects.at(place) {
        Some((id, kind, contents)) => Some(MissingObject {
            id,
            kind,
            size: contents.len() as u64,
        }),
        None => None,
    }
}

// The objects at these places, as they are told.
fn told_at<N: Naming>(
    alloc: Global,
    objects: &Objects<'_, N>,
    places: &[usize],
) -> Result<Vec<MissingObject>, Memory>
    ensures { IfOk result (λ told. told.items
        ≡ filter_map (λ place. option_map told_of (slice_get objects.now place)) places.now) }
{
    let mut told = Vec::with_capacity(alloc, places.len())?;
    for place in places {
        if let Some(object) = told_of(objects, *place) {
            told.push(object)?;
        }
    }
    Ok(told)
}

/// The objects that the wanted names reach and the had names do not, each with its kind and size, in
/// the order of the repository: an object comes after all that it refers to. A had name that is that
/// of no object counts for nothing.
///
/// The answer is right where the objects are held (`AreHeld` of git_model). `UnknownObject` (16) if
/// a wanted name is that of no object; else `Memory` (90) if an allocation fails. Nothing changes.
pub fn missing<N: Naming>(
    alloc: Global,
    objects: &Objects<'_, N>,
    wants: &[Name],
    haves: &[Name],
) -> Result<Vec<MissingObject>, PackFault>
    ensures unknown { has_all objects.now wants.now ≡ false → result ≡ Err fault.UnknownObject }
    ensures refused { has_all objects.now wants.now ≡ true → IfErr result (λ e. e ≡ fault.Memory) }
    ensures told { AreHeld N.digest_of objects.now
        → TellsMissing (missing_asked objects.now wants.now haves.now) result }
{
    let places = missing_places(alloc, objects, wants, haves)?;
    Ok(told_at(alloc, objects, &places)?)
}
