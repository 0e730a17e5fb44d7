//! What the refs reach: "reachable" of gitglossary(7).
//!
//! An object comes after all that it refers to. So the walk goes from the last object to the first,
//! and reads each reached object once.

ghost use Rattle.std.specs.Prelude.{◌≡◌, length, map, replicate, false, IfOk, OnOk};
ghost use Rattle.git_model.specs.{HeldObjects.{AreHeld}, RefStore.{listed_refs}};
ghost use Rattle.export_text.specs.Marking.{with_flags, reached_flags};

use crate::marking::{mark, mark_all};
use crate::referring::referred_by;
use git_objects::{Memory, Naming};
use std::alloc::Global;
use tenant_refs::Refs;
use tenant_tables::Objects;

// Marks what the refs hold.
fn mark_targets<N: Naming>(objects: &Objects<'_, N>, refs: &Refs, flags: &mut [bool])
    requires size { length flags.old ≡ length objects.now }
    ensures { flags.new ≡ with_flags objects.now flags.old (map (λ ref. ref.1) (listed_refs refs.now)) }
{
    for position in 0..refs.len() {
        let Some(entry) = refs.at(position) else {
            return;
        };
        mark(objects, &entry.1, flags);
    }
}

// Marks what the refs reach.
fn walk<N: Naming>(
    alloc: Global,
    objects: &Objects<'_, N>,
    refs: &Refs,
    flags: &mut [bool],
) -> Result<(), Memory>
    requires blank { flags.old ≡ replicate (length objects.now) false }
    ensures { AreHeld N.digest_of objects.now → OnOk result
        (flags.new ≡ reached_flags (record { objects = objects.now; refs = refs.now })) }
{
    mark_targets(objects, refs, flags);
    let mut place = objects.len();
    while place > 0 {
        if flags[place - 1] {
            let ids = referred_by(alloc, objects, place - 1)?;
            mark_all(objects, &ids, flags);
        }
        place -= 1;
    }
    Ok(())
}

/// Which of the objects the refs reach: a flag for each, the oldest object first.
///
/// The answer is right where the objects are held (`AreHeld` of git_model). `Memory` (90) where
/// there is no room for the flags or to read what is reached.
pub fn reached<N: Naming>(
    alloc: Global,
    objects: &Objects<'_, N>,
    refs: &Refs,
) -> Result<Vec<bool>, Memory>
    ensures size { IfOk result (λ flags. length flags.items ≡ length objects.now) }
    ensures reached { AreHeld N.digest_of objects.now → IfOk result
        (λ flags. flags.items ≡ reached_flags (record { objects = objects.now; refs = refs.now })) }
{
    let mut flags = vec![in alloc; false; objects.len()]?;
    walk(alloc, objects, refs, &mut flags)?;
    Ok(flags)
}
