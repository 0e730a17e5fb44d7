//! Refs in a stream: git-fast-import(1), `reset`.

ghost use Rattle.std.specs.Prelude.{◌≡◌, ◌++◌, [], ◌∷◌, List, filter, length, take, codes, OnOk};
ghost use Rattle.std.specs.List.{flat_map};
ghost use Rattle.git_model.specs.{GoodRepository.{AreObjects, IsValid}, RefStore.{listed_refs}};
ghost use Rattle.git_model.specs.Repository.{Object};
ghost use Rattle.stream_lex.specs.Items.{Line, Blank};
ghost use Rattle.export_text.specs.{ItemText.{items_text}, Reached.{is_missing}};
ghost use Rattle.export_text.specs.Export.{items_of_ref, ref_items, removal_items};
ghost use Rattle.export_text.specs.ExportItems.{marked};

use crate::item_text::{append_blank, append_line};
use crate::mark_text::append_marked;
use crate::tag_text::append_tag;
use git_names::RefName;
use git_objects::{Kind, Memory, Name, Naming};
use std::alloc::Global;
use tenant_refs::Refs;
use tenant_tables::Objects;

/// The name that no object has: a ref that is reset to it is removed.
const NO_NAME: &[u8] = b"0000000000000000000000000000000000000000";

fn append_removal(ref_name: &[u8], out: &mut Vec<u8>) -> Result<(), Memory>
    ensures written { OnOk result (out.new.items
        ≡ out.old.items ++ items_text (removal_items ref_name.now)) }
    ensures kept { take (length out.old.items) out.new.items ≡ out.old.items }
{
    append_line(b"reset ", ref_name, out)?;
    append_line(b"from ", NO_NAME, out)?;
    append_blank(out)
}

/// Appends the removal of each of these refs that the repository does not have. After `Memory` (90)
/// a part of them may have been appended.
pub fn append_removals(refs: &Refs, ref_names: &[RefName], out: &mut Vec<u8>) -> Result<(), Memory>
    ensures written { OnOk result (out.new.items ≡ out.old.items
        ++ items_text (flat_map removal_items (filter (is_missing refs.now) ref_names.now))) }
    ensures kept { take (length out.old.items) out.new.items ≡ out.old.items }
{
    for ref_name in ref_names {
        if refs.get(ref_name.as_bytes()).is_none() {
            append_removal(ref_name.as_bytes(), out)?;
        }
    }
    Ok(())
}

// Sets a ref to the commit of this name.
fn append_reset<N: Naming>(
    objects: &Objects<'_, N>,
    ref_name: &[u8],
    target: &Name,
    out: &mut Vec<u8>,
) -> Result<(), Memory>
    ensures written { OnOk result (out.new.items ≡ out.old.items ++ items_text
        (Line (codes "reset " ++ ref_name.now) ∷ marked objects.now (codes "from ") target.now
        ∷ Blank ∷ [])) }
    ensures kept { take (length out.old.items) out.new.items ≡ out.old.items }
{
    append_line(b"reset ", ref_name, out)?;
    append_marked(objects, b"from ", target, out)?;
    append_blank(out)
}

// Sets a ref to an object of this kind with these contents: a tag is written once more, without a
// mark.
fn append_ref_to<N: Naming>(
    alloc: Global,
    objects: &Objects<'_, N>,
    ref_name: &[u8],
    target: &Name,
    kind: Kind,
    contents: &[u8],
    out: &mut Vec<u8>,
) -> Result<(), Memory>
    ensures written { (os : List Object) → IsValid os kind contents.now → OnOk result (out.new.items
        ≡ out.old.items
        ++ items_text (ref_items objects.now ref_name.now target.now kind contents.now)) }
    ensures kept { take (length out.old.items) out.new.items ≡ out.old.items }
{
    match kind {
        Kind::Tag => append_tag(alloc, objects, None, contents, out),
        _ => append_reset(objects, ref_name, target, out),
    }
}

fn append_ref<N: Naming>(
    alloc: Global,
    objects: &Objects<'_, N>,
    ref_name: &[u8],
    target: &Name,
    out: &mut Vec<u8>,
) -> Result<(), Memory>
    ensures written { AreObjects N.digest_of objects.now → OnOk result (out.new.items
        ≡ out.old.items ++ items_text (items_of_ref objects.now (ref_name.now, target.now))) }
    ensures kept { take (length out.old.items) out.new.items ≡ out.old.items }
{
    match objects.get(target) {
        Some((kind, contents)) => append_ref_to(
            alloc, objects, ref_name, target, kind, contents, out,
        ),
        None => append_reset(objects, ref_name, target, out),
    }
}

/// Appends each ref, in the order of their bytes. After `Memory` (90) a part of them may have been
/// appended.
pub fn append_refs<N: Naming>(
    alloc: Global,
    objects: &Objects<'_, N>,
    refs: &Refs,
    out: &mut Vec<u8>,
) -> Result<(), Memory>
    ensures written { AreObjects N.digest_of objects.now → OnOk result (out.new.items
        ≡ out.old.items
        ++ items_text (flat_map (items_of_ref objects.now) (listed_refs refs.now))) }
    ensures kept { take (length out.old.items) out.new.items ≡ out.old.items }
{
    for position in 0..refs.len() {
        let Some(entry) = refs.at(position) else {
            return Ok(());
        };
        append_ref(alloc, objects, entry.0, &entry.1, out)?;
    }
    Ok(())
}
