//! The checks of objects, in their order.

ghost use Rattle.std.specs.{Prelude.{◌≡◌, ◌↔◌, [], ◌∷◌, IsTrue, IfOk, None}, Option.{option_map}};
ghost use Rattle.std.specs.{Ordering.{nat_cmp}, Cmp.Lexicographic.{slice_cmp}};
ghost use Rattle.std.specs.declared.cmp.Ordering.TheVariants.{Less};
ghost use Rattle.pool_file_checks.specs.Checks.{Checked};
ghost use Rattle.pool_file_checks.specs.Objects.{CanStore, IsAfter, object_key, object_checks};
ghost use Rattle.pool_file_format.specs.Shown.{object_of, objects_of};

use crate::contents::{is_content, kind_from};
use git_objects::Memory;
use pool_file_format::{Fault, RawObject, Refusal};
use std::alloc::Global;
use std::cmp::Ordering;

// Whether the byte is that of a kind, and the bytes are contents of it.
fn can_store(alloc: Global, object: &RawObject) -> Result<bool, Memory>
    ensures { IfOk result (λ b. IsTrue b ↔ CanStore (object_of object.now)) }
{
    match kind_from(object.kind) {
        Some(kind) => is_content(alloc, kind, object.bytes.as_slice()),
        None => Ok(false),
    }
}

// Whether an object comes after another one.
fn is_above(last: &RawObject, object: &RawObject) -> bool
    ensures { IsTrue result ↔ (slice_cmp nat_cmp (object_key (object_of last.now))
        (object_key (object_of object.now)) ≡ Less) }
{
    match last.kind.cmp(&object.kind) {
        Ordering::Less => true,
        Ordering::Equal => last.bytes.as_slice().cmp(object.bytes.as_slice()) == Ordering::Less,
        Ordering::Greater => false,
    }
}

/// Whether an object comes after the one before it, by kind and then by contents.
pub fn is_after(last: Option<&RawObject>, object: &RawObject) -> bool
    ensures { IsTrue result ↔ IsAfter (option_map (λ o. object_key (object_of o.now)) last.entry)
        (object_key (object_of object.now)) }
{
    match last {
        None => true,
        Some(last) => is_above(last, object),
    }
}

fn check_object(alloc: Global, last: Option<&RawObject>, object: &RawObject) -> Result<(), Fault>
    ensures { Checked (object_checks (option_map (λ o. object_key (object_of o.now)) last.entry)
        (object_of object.now ∷ [])) result }
{
    if !can_store(alloc, object)? {
        return Err(Fault::Refused(Refusal::BadObject));
    }
    if !is_after(last, object) {
        return Err(Fault::Refused(Refusal::NotCanonical));
    }
    Ok(())
}

/// Judges the objects of a file in turn.
///
/// - `Refused` with the first fault. `BadObject` (65) if the byte is that of no kind, if no tree,
///   commit or tag has the contents, or if they are past a limit: 134,217,728 bytes, 1,024 parents
///   of a commit, 1,014 bytes of a tag's name. `NotCanonical` (64) if an object does not come after
///   the one before it, by kind and then by contents.
/// - `Memory` (90) if there is no memory to read an object.
pub fn check_objects(alloc: Global, objects: &[RawObject]) -> Result<(), Fault>
    ensures { Checked (object_checks None (objects_of objects.now)) result }
{
    let mut last: Option<&RawObject> = None;
    for object in objects {
        check_object(alloc, last, object)?;
        last = Some(object);
    }
    Ok(())
}
