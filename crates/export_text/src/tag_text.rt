//! Tags in a stream: git-fast-import(1), `tag`.

ghost use Rattle.std.specs.Prelude.{◌≡◌, ◌++◌, length, take, OnOk, Option};
ghost use Rattle.git_model.specs.{Tag.{Tag, CanWriteTag, tag_contents}, TagReading.{tag_read}};
ghost use Rattle.git_objects.specs.Parts.{tag_of};
ghost use Rattle.export_text.specs.{ItemText.{items_text}, ExportItems.{tag_items}};

use crate::item_text::{append_data, append_line, append_line_if};
use crate::mark_text::{append_mark_if, append_marked};
use git_objects::{Memory, Name, Naming, TagParts, read_tag};
use std::alloc::Global;
use tenant_tables::Objects;

fn append_parts_of_tag<N: Naming>(
    objects: &Objects<'_, N>,
    id: Option<Name>,
    parts: &TagParts<'_>,
    out: &mut Vec<u8>,
) -> Result<(), Memory>
    ensures written { OnOk result (out.new.items
        ≡ out.old.items ++ items_text (tag_items objects.now id (tag_of parts.now))) }
    ensures kept { take (length out.old.items) out.new.items ≡ out.old.items }
{
    append_line(b"tag ", parts.name, out)?;
    append_mark_if(objects, id, out)?;
    append_marked(objects, b"from ", &parts.target, out)?;
    append_line_if(b"tagger ", parts.tagger, out)?;
    append_data(parts.message, out)
}

/// Appends the tag with these contents, with the mark of this object, if there is one. After
/// `Memory` (90) a part of it may have been appended.
pub fn append_tag<N: Naming>(
    alloc: Global,
    objects: &Objects<'_, N>,
    id: Option<Name>,
    contents: &[u8],
    out: &mut Vec<u8>,
) -> Result<(), Memory>
    ensures written { (t : Tag) → CanWriteTag t → contents.now ≡ tag_contents t
        → OnOk result (out.new.items
        ≡ out.old.items ++ items_text (tag_items objects.now id (tag_read contents.now))) }
    ensures kept { take (length out.old.items) out.new.items ≡ out.old.items }
{
    match read_tag(alloc, contents) {
        Ok(Some(parts)) => append_parts_of_tag(objects, id, &parts, out),
        Ok(None) => Ok(()),
        Err(refused) => Err(refused),
    }
}
