//! Objects in a stream, each with its mark.

ghost use Rattle.std.specs.Prelude.{◌≡◌, ◌++◌, ◌<◌, ℕ, All, length, take, OnOk};
ghost use Rattle.git_model.specs.{GoodRepository.{IsValid, StandsBefore}, RefStore.{RefStore}};
ghost use Rattle.git_model.specs.References.{object_at, references_of};
ghost use Rattle.export_text.specs.{ItemText.{items_text}, Export.{object_items}};
ghost use Rattle.export_text.specs.ExportItems.{blob_items, items_of, items_of_object};
ghost use Rattle.export_text.specs.{Lines.{AreTold, WhereTold}, Marking.{WhereReached}};

use crate::commit_text::append_commit;
use crate::item_text::{append_data, append_line};
use crate::mark_text::append_marked;
use crate::tag_text::append_tag;
use crate::told::Directories;
use git_objects::{Kind, Memory, Name, Naming};
use std::alloc::Global;
use tenant_tables::Objects;

fn append_blob<N: Naming>(
    objects: &Objects<'_, N>,
    id: &Name,
    contents: &[u8],
    out: &mut Vec<u8>,
) -> Result<(), Memory>
    ensures written { OnOk result (out.new.items
        ≡ out.old.items ++ items_text (blob_items objects.now id.now contents.now)) }
    ensures kept { take (length out.old.items) out.new.items ≡ out.old.items }
{
    append_line(b"blob", b"", out)?;
    append_marked(objects, b"mark ", id, out)?;
    append_data(contents, out)
}

// Appends the object of this kind with these contents. Trees are written by their commits.
fn append_content<N: Naming>(
    alloc: Global,
    objects: &Objects<'_, N>,
    id: Name,
    kind: Kind,
    contents: &[u8],
    told: &mut Directories,
    out: &mut Vec<u8>,
) -> Result<(), Memory>
    ensures written { (place : ℕ) → WhereTold N.digest_of objects.now out.old.items told.old
        (IsValid objects.now kind contents.now
        → All (StandsBefore objects.now place) (references_of kind contents.now)
        → OnOk result (out.new.items
        ≡ out.old.items ++ items_text (items_of objects.now id kind contents.now))) }
    ensures in_mind { WhereTold N.digest_of objects.now out.old.items told.old
        (OnOk result (AreTold objects.now out.new.items told.new)) }
    ensures kept { take (length out.old.items) out.new.items ≡ out.old.items }
{
    match kind {
        Kind::Blob => append_blob(objects, &id, contents, out),
        Kind::Tree => Ok(()),
        Kind::Commit => append_commit(alloc, objects, &id, contents, told, out),
        Kind::Tag => append_tag(alloc, objects, Some(id), contents, out),
    }
}

// Appends the object at a place.
fn append_object<N: Naming>(
    alloc: Global,
    objects: &Objects<'_, N>,
    place: usize,
    told: &mut Directories,
    out: &mut Vec<u8>,
) -> Result<(), Memory>
    ensures written { WhereTold N.digest_of objects.now out.old.items told.old
        (place < length objects.now
        → OnOk result (out.new.items ≡ out.old.items
        ++ items_text (items_of_object objects.now (object_at place objects.now)))) }
    ensures in_mind { WhereTold N.digest_of objects.now out.old.items told.old
        (OnOk result (AreTold objects.now out.new.items told.new)) }
    ensures kept { take (length out.old.items) out.new.items ≡ out.old.items }
{
    let Some(found) = objects.at(place) else {
        return Ok(());
    };
    append_content(alloc, objects, found.0, found.1, found.2, told, out)
}

/// Appends the objects that have a flag, in their order. There is a flag for each object, the
/// oldest object first. After `Memory` (90) a part of them may have been appended.
pub fn append_objects<N: Naming>(
    alloc: Global,
    objects: &Objects<'_, N>,
    reached: &[bool],
    out: &mut Vec<u8>,
) -> Result<(), Memory>
    ensures written { (refs : RefStore) → WhereReached N.digest_of objects.now refs reached.now
        (λ r. OnOk result (out.new.items ≡ out.old.items ++ items_text (object_items r))) }
    ensures kept { take (length out.old.items) out.new.items ≡ out.old.items }
{
    let mut told = Directories::among(alloc, objects.len())?;
    for (place, is_reached) in reached.iter().enumerate() {
        if *is_reached {
            append_object(alloc, objects, place, &mut told, out)?;
        }
    }
    Ok(())
}
