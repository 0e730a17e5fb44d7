//! The refs that the import of the reached tags sets: git-fast-import(1), `tag`.

ghost use Rattle.std.specs.Prelude.{◌≡◌, ◌++◌, ◌≤◌, ◌<◌, [], ◌∷◌, ℕ, List, length, map, filter};
ghost use Rattle.std.specs.Prelude.{IfOk, OnOk};
ghost use Rattle.git_model.specs.{Limits.{ref_name_limit}, References.{object_at}, Tag.{Tag}};
ghost use Rattle.git_model.specs.{GoodRepository.{AreObjects, IsTag, IsValid}, RefStore.{RefStore}};
ghost use Rattle.git_model.specs.{Content.{content_from}, Repository.{Object}};
ghost use Rattle.git_model.specs.TagReading.{tag_read};
ghost use Rattle.git_names.specs.StoredName.{NamesRef};
ghost use Rattle.export_text.specs.Marking.{WhereReached};
ghost use Rattle.export_text.specs.Reached.{is_tag, reached_tags, ref_of_tag, tag_ref, tag_refs};

use git_names::{RefName, RefNameFault};
use git_objects::{Kind, Memory, Naming, read_tag};
use std::alloc::Global;
use tenant_tables::Objects;

// Appends the ref of the tag of this name.
fn push_ref(alloc: Global, name: &[u8], names: &mut Vec<RefName>) -> Result<(), Memory>
    ensures { NamesRef (tag_ref name.now) → length (tag_ref name.now) ≤ ref_name_limit
        → OnOk result (names.new.items ≡ names.old.items ++ tag_ref name.now ∷ []) }
{
    let mut text = Vec::from_slice(alloc, b"refs/tags/")?;
    text.extend_from_slice(name)?;
    match RefName::read(alloc, &text) {
        Ok(found) => names.push(found)?,
        Err(RefNameFault::Memory) => return Err(Memory),
        Err(_) => {}
    }
    Ok(())
}

// Appends the ref of the tag with these contents.
fn push_tag(alloc: Global, contents: &[u8], names: &mut Vec<RefName>) -> Result<(), Memory>
    ensures { (t : Tag) → IsTag contents.now t → OnOk result (names.new.items
        ≡ names.old.items ++ tag_ref (tag_read contents.now).name ∷ []) }
{
    match read_tag(alloc, contents) {
        Ok(Some(parts)) => push_ref(alloc, parts.name, names),
        Ok(None) => Ok(()),
        Err(refused) => Err(refused),
    }
}

// Appends the ref of an object of this kind with these contents, where it is a tag.
fn push_in(
    alloc: Global,
    kind: Kind,
    contents: &[u8],
    names: &mut Vec<RefName>,
) -> Result<(), Memory>
    ensures { (os : List Object) (id : List ℕ) → IsValid os kind contents.now → OnOk result
        (names.new.items ≡ names.old.items ++ map ref_of_tag
        (filter is_tag (record { id = id; content = content_from kind contents.now } ∷ []))) }
{
    match kind {
        Kind::Tag => push_tag(alloc, contents, names),
        _ => Ok(()),
    }
}

// Appends the ref of the object at a place, where it is a tag.
fn push_if_tag<N: Naming>(
    alloc: Global,
    objects: &Objects<'_, N>,
    place: usize,
    names: &mut Vec<RefName>,
) -> Result<(), Memory>
    ensures { AreObjects N.digest_of objects.now → place < length objects.now
        → OnOk result (names.new.items ≡ names.old.items
        ++ map ref_of_tag (filter is_tag (object_at place objects.now ∷ []))) }
{
    match objects.at(place) {
        Some((_, kind, contents)) => push_in(alloc, kind, contents, names),
        None => Ok(()),
    }
}

// The refs of all tags that have a flag.
fn refs_of_tags<N: Naming>(
    alloc: Global,
    objects: &Objects<'_, N>,
    reached: &[bool],
) -> Result<Vec<RefName>, Memory>
    ensures { (refs : RefStore) → WhereReached N.digest_of objects.now refs reached.now
        (λ r. IfOk result (λ names. names.items ≡ map ref_of_tag (reached_tags r))) }
{
    let mut names = Vec::new(alloc);
    for (place, is_reached) in reached.iter().enumerate() {
        if *is_reached {
            push_if_tag(alloc, objects, place, &mut names)?;
        }
    }
    Ok(names)
}

/// The refs of the tags that have a flag, each once, in the order of their bytes. There is a flag
/// for each object, the oldest object first.
///
/// `Memory` (90) where there is no room for them.
pub fn tag_refs<N: Naming>(
    alloc: Global,
    objects: &Objects<'_, N>,
    reached: &[bool],
) -> Result<Vec<RefName>, Memory>
    ensures { (refs : RefStore) → WhereReached N.digest_of objects.now refs reached.now
        (λ r. IfOk result (λ names. names.items ≡ tag_refs r)) }
{
    let mut names = refs_of_tags(alloc, objects, reached)?;
    names.sort_unstable();
    names.dedup();
    Ok(names)
}
