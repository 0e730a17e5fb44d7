//! Marks: git-fast-import(1), `mark`.

ghost use Rattle.std.specs.Prelude.{◌≡◌, ◌++◌, ◌+◌, [], ◌∷◌, length, take, OnOk};
ghost use Rattle.git_model.specs.References.{place_of};
ghost use Rattle.export_text.specs.ItemText.{items_text};
ghost use Rattle.export_text.specs.ExportItems.{mark_if, mark_text, marked};

use git_objects::{Memory, Name, Naming, append_parts};
use itoa::Buffer;
use tenant_tables::Objects;

// The mark of an object: its place, counted from 1. It can be one more than the largest place.
fn mark_of<N: Naming>(objects: &Objects<'_, N>, id: &Name) -> u128
    ensures { result ≡ place_of id.now objects.now + 1 }
{
    match objects.place(id) {
        Some(place) => place as u128 + 1,
        None => objects.len() as u128 + 1,
    }
}

/// Appends the mark of an object. After `Memory` (90) a part of it may have been appended.
pub fn append_mark<N: Naming>(
    objects: &Objects<'_, N>,
    id: &Name,
    out: &mut Vec<u8>,
) -> Result<(), Memory>
    ensures written { OnOk result (out.new.items
        ≡ out.old.items ++ mark_text objects.now id.now) }
    ensures kept { take (length out.old.items) out.new.items ≡ out.old.items }
{
    let mut digits = Buffer::new();
    let digits = digits.format(mark_of(objects, id)).as_bytes();
    append_parts(&[b":", digits], out)
}

/// Appends a line of a word and the mark of an object. After `Memory` (90) a part of it may have
/// been appended.
pub fn append_marked<N: Naming>(
    objects: &Objects<'_, N>,
    word: &[u8],
    id: &Name,
    out: &mut Vec<u8>,
) -> Result<(), Memory>
    ensures written { OnOk result (out.new.items
        ≡ out.old.items ++ items_text (marked objects.now word.now id.now ∷ [])) }
    ensures kept { take (length out.old.items) out.new.items ≡ out.old.items }
{
    out.extend_from_slice(word)?;
    append_mark(objects, id, out)?;
    out.push(b'\n')?;
    Ok(())
}

/// Appends the line that gives an object its mark, or nothing where there is no object. After
/// `Memory` (90) a part of it may have been appended.
pub fn append_mark_if<N: Naming>(
    objects: &Objects<'_, N>,
    id: Option<Name>,
    out: &mut Vec<u8>,
) -> Result<(), Memory>
    ensures written { OnOk result (out.new.items
        ≡ out.old.items ++ items_text (mark_if objects.now id)) }
    ensures kept { take (length out.old.items) out.new.items ≡ out.old.items }
{
    match id {
        Some(id) => append_marked(objects, b"mark ", &id, out),
        None => Ok(()),
    }
}
