//! The check of what a tenant's objects refer to.

ghost use Rattle.std.specs.Prelude.{◌↔◌, [], ◌∷◌, IsTrue, IfOk, All};
ghost use Rattle.git_model.specs.References.{references_of, references_in, object_at};
ghost use Rattle.git_model.specs.GoodRepository.{StandsBefore};
ghost use Rattle.pool_file_checks.specs.{Checks.{Checked}, Connecting.{AreConnected}};
ghost use Rattle.pool_file_checks.specs.{Objects.{IsText, CanStore}, Own.{objects_in}};
ghost use Rattle.pool_file_format.specs.Shown.{objects_of};
ghost use Rattle.pool_file_format.specs.declared.refusal.Refusal.TheVariants as refusal;

use crate::naming::content_at;
use crate::standing::{commit_stands, entries_stand, stands_before};
use git_names::Name;
use git_objects::{Kind, Memory, read_commit, read_tag, read_tree};
use indexmap::IndexMap;
use pool_file_format::{Fault, RawObject, Refusal};
use std::alloc::Global;

// Whether the objects to which a text of a kind refers stand before a place.
fn is_connected(
    alloc: Global,
    objects: &[RawObject],
    index: &IndexMap<Name, usize>,
    place: usize,
    kind: Kind,
    bytes: &[u8],
) -> Result<bool, Memory>
    ensures { IsText kind bytes.now → IfOk result (λ b. IsTrue b
        ↔ All (StandsBefore (objects_in (objects_of objects.now) index.now.entries) place)
        (references_of kind bytes.now)) }
{
    match kind {
        Kind::Blob => Ok(true),
        Kind::Tree => match read_tree(alloc, bytes) {
            Ok(Some(entries)) => Ok(entries_stand(objects, index, place, &entries)),
            Ok(None) => Ok(false),
            Err(refused) => Err(refused),
        },
        Kind::Commit => match read_commit(alloc, bytes) {
            Ok(Some(parts)) => Ok(commit_stands(objects, index, place, &parts)),
            Ok(None) => Ok(false),
            Err(refused) => Err(refused),
        },
        Kind::Tag => match read_tag(alloc, bytes) {
            Ok(Some(parts)) => Ok(stands_before(objects, index, place, &parts.target, parts.kind)),
            Ok(None) => Ok(false),
            Err(refused) => Err(refused),
        },
    }
}

// Whether the objects to which the object at a place refers stand before it.
fn place_is_connected(
    alloc: Global,
    objects: &[RawObject],
    index: &IndexMap<Name, usize>,
    place: usize,
) -> Result<bool, Memory>
    ensures { All CanStore (objects_of objects.now) → IfOk result (λ b. IsTrue b
        ↔ All (StandsBefore (objects_in (objects_of objects.now) index.now.entries) place)
        (references_in (object_at place
        (objects_in (objects_of objects.now) index.now.entries)).content)) }
{
    match index.get_index(place) {
        Some((_, number)) => {
            let (kind, bytes) = content_at(objects, *number);
            is_connected(alloc, objects, index, place, kind, bytes)
        }
        None => Ok(true),
    }
}

/// Judges what the objects of a tenant refer to. `index` has the numbers of its objects under their
/// names, in the tenant's order. `objects` are all objects of the file, and have passed
/// `check_objects`; for any others, only that the call returns is promised.
///
/// `Refused` with `MissingReference` (66) if an object refers to one that does not stand before it
/// in the tenant's order, or that has another kind than the mode, the header or the tag's type asks
/// for. A gitlink refers to nothing. `Memory` (90) if there is no memory to read an object.
pub fn check_references(
    alloc: Global,
    objects: &[RawObject],
    index: &IndexMap<Name, usize>,
) -> Result<(), Fault>
    ensures { All CanStore (objects_of objects.now)
        → Checked ((
          AreConnected (objects_in (objects_of objects.now) index.now.entries),
          refusal.MissingReference,
        ) ∷ []) result }
{
    for place in 0..index.len() {
        if !place_is_connected(alloc, objects, index, place)? {
            return Err(Fault::Refused(Refusal::MissingReference));
        }
    }
    Ok(())
}
