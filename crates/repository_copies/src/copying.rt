//! The places of the objects of a copy: git-fast-export(1), git-fast-import(1).

ghost use Rattle.std.specs.Prelude.{◌≡◌, ◌<◌, [], Some, IfOk, IfSome, IsNone, OnOk, length};
ghost use Rattle.git_model.specs.Commit.{Commit, CanWriteCommit, commit_contents};
ghost use Rattle.git_model.specs.{Content.{content_from}, GoodRepository.{AreObjects}};
ghost use Rattle.git_model.specs.{References.{object_at, place_of}, RefStore.{RefStore}};
ghost use Rattle.git_model.specs.Repository.{Repository};
ghost use Rattle.export_text.specs.Marking.{reached_flags};
ghost use Rattle.export_laws.specs.{Copies.{CanBeCopied}, Order.{AreWhole, names_by, names_with}};
ghost use Rattle.repository_copies.specs.Copied.{AreCopied};
ghost use Rattle.repository_copies.specs.Found.{Adds, AreFound, HasCopied, found_objects};
ghost use Rattle.git_model.specs.declared.kind.Kind.TheVariants as kind;

use crate::found::Found;
use crate::limits::can_be_copied;
use crate::trees::add_trees;
use export_text::reached::reached;
use git_objects::{Kind, Memory, Naming, read_commit_tree};
use std::alloc::Global;
use tenant_refs::Refs;
use tenant_tables::Objects;

// The place of the tree of the commit with these contents.
fn place_of_tree<N: Naming>(objects: &Objects<'_, N>, contents: &[u8]) -> Option<usize>
    ensures { (c : Commit) → CanWriteCommit c → contents.now ≡ commit_contents c
        → place_of c.tree objects.now < length objects.now
        → result ≡ Some (place_of c.tree objects.now) }
{
    match read_commit_tree(contents) {
        Some(tree) => objects.place(&tree),
        None => None,
    }
}

// Adds the commit at a place, after its trees.
fn add_commit<N: Naming>(
    alloc: Global,
    objects: &Objects<'_, N>,
    place: usize,
    contents: &[u8],
    found: &mut Found,
) -> Result<(), Memory>
    ensures { AreObjects N.digest_of objects.now → place < length objects.now
        → (object_at place objects.now).content ≡ content_from kind.Commit contents.now
        → AreFound objects.now found.old → AreWhole objects.now (found_objects objects.now found.old)
        → OnOk result (Adds objects.now
        (names_by objects.now (object_at place objects.now).id kind.Commit contents.now)
        found.old found.new) }
{
    let Some(tree) = place_of_tree(objects, contents) else {
        return Ok(());
    };
    add_trees(alloc, objects, tree, found)?;
    found.add(place)
}

// Adds what comes with the object at a place, which is of this kind and has these contents.
fn add_content<N: Naming>(
    alloc: Global,
    objects: &Objects<'_, N>,
    place: usize,
    kind: Kind,
    contents: &[u8],
    found: &mut Found,
) -> Result<(), Memory>
    ensures { AreObjects N.digest_of objects.now → place < length objects.now
        → (object_at place objects.now).content ≡ content_from kind contents.now
        → AreFound objects.now found.old → AreWhole objects.now (found_objects objects.now found.old)
        → OnOk result (Adds objects.now
        (names_by objects.now (object_at place objects.now).id kind contents.now)
        found.old found.new) }
{
    match kind {
        Kind::Blob => found.add(place),
        Kind::Tag => found.add(place),
        Kind::Tree => Ok(()),
        Kind::Commit => add_commit(alloc, objects, place, contents, found),
    }
}

// Adds what comes with the object at a place.
fn add_object<N: Naming>(
    alloc: Global,
    objects: &Objects<'_, N>,
    place: usize,
    found: &mut Found,
) -> Result<(), Memory>
    ensures { AreObjects N.digest_of objects.now → place < length objects.now
        → AreFound objects.now found.old → AreWhole objects.now (found_objects objects.now found.old)
        → OnOk result (Adds objects.now (names_with objects.now (object_at place objects.now))
        found.old found.new) }
{
    match objects.at(place) {
        Some((_, kind, contents)) => add_content(alloc, objects, place, kind, contents, found),
        None => Ok(()),
    }
}

// Adds what comes with the objects that have a flag, in their order.
fn add_reached<N: Naming>(
    alloc: Global,
    objects: &Objects<'_, N>,
    reached: &[bool],
    found: &mut Found,
) -> Result<(), Memory>
    ensures { (refs : RefStore)
        → let r : Repository = record { objects = objects.now; refs = refs } in
        AreObjects N.digest_of objects.now → reached.now ≡ reached_flags r
        → AreFound objects.now found.old → found.old.places.items ≡ []
        → OnOk result (HasCopied r found.new) }
{
    for (place, is_reached) in reached.iter().enumerate() {
        if *is_reached {
            add_object(alloc, objects, place, found)?;
        }
    }
    Ok(())
}

// The places of a copy, given a flag for each object.
fn places_of<N: Naming>(
    alloc: Global,
    objects: &Objects<'_, N>,
    reached: &[bool],
) -> Result<Vec<usize>, Memory>
    ensures { (refs : RefStore)
        → let r : Repository = record { objects = objects.now; refs = refs } in
        AreObjects N.digest_of objects.now → reached.now ≡ reached_flags r → CanBeCopied r
        → IfOk result (λ places. AreCopied r places.items) }
{
    let mut found = Found::none(alloc, objects.len())?;
    add_reached(alloc, objects, reached, &mut found)?;
    Ok(found.places)
}

// The places of a copy if the repository can be copied, given a flag for each object.
fn places_if_can<N: Naming>(
    alloc: Global,
    objects: &Objects<'_, N>,
    refs: &Refs,
    reached: &[bool],
) -> Result<Option<Vec<usize>>, Memory>
    ensures places { let r : Repository = record { objects = objects.now; refs = refs.now } in
        AreObjects N.digest_of objects.now → reached.now ≡ reached_flags r
        → IfOk result (λ found. IfSome found (λ places. AreCopied r places.items)) }
    ensures none { let r : Repository = record { objects = objects.now; refs = refs.now } in
        AreObjects N.digest_of objects.now → reached.now ≡ reached_flags r
        → IfOk result (λ found. IsNone found → CanBeCopied r → ⊥) }
{
    if can_be_copied(alloc, objects, refs, reached)? {
        let places = places_of(alloc, objects, reached)?;
        Ok(Some(places))
    } else {
        Ok(None)
    }
}

/// The places of the objects of a copy, in the order in which the import of an export stores them:
/// what the refs reach, in the order of the repository, but each commit after its trees. Nothing is
/// written.
///
/// `None` if the repository cannot be copied (`CanBeCopied` of export_laws): an object does not fit
/// into a stream, its refs are too many for an export, or they reach more than 65,536 tags.
/// `Memory` (90) if there is no memory for a flag of each object, for the places, or to read an
/// object. The answer is right if the objects are good (`AreObjects` of git_model).
pub fn copied_places<N: Naming>(
    alloc: Global,
    objects: &Objects<'_, N>,
    refs: &Refs,
) -> Result<Option<Vec<usize>>, Memory>
    ensures places { let r : Repository = record { objects = objects.now; refs = refs.now } in
        AreObjects N.digest_of objects.now
        → IfOk result (λ found. IfSome found (λ places. AreCopied r places.items)) }
    ensures none { let r : Repository = record { objects = objects.now; refs = refs.now } in
        AreObjects N.digest_of objects.now
        → IfOk result (λ found. IsNone found → CanBeCopied r → ⊥) }
{
    let reached = reached(alloc, objects, refs)?;
    places_if_can(alloc, objects, refs, &reached)
}
