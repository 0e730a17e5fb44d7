//! How objects are printed: git-cat-file(1), git-ls-tree(1), git-log(1).

ghost use Rattle.std.specs.Prelude.{◌≡◌, ◌++◌, length, take, codes, decimal, OnOk};
ghost use Rattle.std.specs.List.{flat_map};
ghost use Rattle.hex.specs.Hex.{encode_lower};
ghost use Rattle.git_model.specs.{Content.{content_from}, HeldObjects.{AreHeld}};
ghost use Rattle.git_model.specs.{Readable.{IsReadable}, StoredPath.{entries_in}};
ghost use Rattle.git_model.specs.TreeReading.{tree_read};
ghost use Rattle.git_objects.specs.Parts.{entries_of, entry_of};
ghost use Rattle.answers.specs.Printed.{content_text, line, tree_line, tree_lines};

use git_objects::{
    Kind, Memory, Name, Naming, TreeEntry, append_listing, append_parts, kind_word, look_tree,
};
use itoa::Buffer;
use std::alloc::Global;
use tenant_tables::Objects;

// Appends an object name, the word of a kind and the size of contents, and the contents.
fn append_sized(id: Name, word: &[u8], contents: &[u8], out: &mut Vec<u8>) -> Result<(), Memory>
    ensures written { OnOk result (out.new.items
        ≡ out.old.items ++ line (encode_lower id ++ codes " " ++ word.now ++ codes " "
        ++ decimal (length contents.now)) ++ line contents.now) }
    ensures kept { take (length out.old.items) out.new.items ≡ out.old.items }
{
    let digits = id.to_hex();
    let mut size = Buffer::new();
    let size = size.format(contents.len()).as_bytes();
    append_parts(
        &[&digits, b" ", word, b" ", size, b"\n", contents, b"\n"],
        out,
    )
}

/// Appends an object: its name, kind and size on a line, and its contents with a line end.
pub fn append_object(id: Name, kind: Kind, contents: &[u8], out: &mut Vec<u8>) -> Result<(), Memory>
    ensures written { OnOk result (out.new.items
        ≡ out.old.items ++ content_text id (content_from kind contents.now)) }
    ensures kept { take (length out.old.items) out.new.items ≡ out.old.items }
{
    append_sized(id, kind_word(kind), contents, out)
}

fn append_entry(entry: &TreeEntry<'_>, out: &mut Vec<u8>) -> Result<(), Memory>
    ensures written { OnOk result (out.new.items ≡ out.old.items
        ++ tree_line (entry_of entry.now)) }
    ensures kept { take (length out.old.items) out.new.items ≡ out.old.items }
{
    append_listing(entry.mode, entry.id, entry.name, out)?;
    out.push(b'\n')?;
    Ok(())
}

fn append_entries(entries: &[TreeEntry<'_>], out: &mut Vec<u8>) -> Result<(), Memory>
    ensures written { OnOk result (out.new.items
        ≡ out.old.items ++ flat_map tree_line (entries_of entries.now)) }
    ensures kept { take (length out.old.items) out.new.items ≡ out.old.items }
{
    for entry in entries {
        append_entry(entry, out)?;
    }
    Ok(())
}

// Appends the entries of a tree with these contents.
fn append_tree_contents(alloc: Global, contents: &[u8], out: &mut Vec<u8>) -> Result<(), Memory>
    ensures written { IsReadable Kind.Tree contents.now → OnOk result (out.new.items
        ≡ out.old.items ++ flat_map tree_line (tree_read contents.now)) }
    ensures kept { take (length out.old.items) out.new.items ≡ out.old.items }
{
    match look_tree(alloc, contents)? {
        Some(entries) => append_entries(&entries, out),
        None => Ok(()),
    }
}

// Appends the entries of an object of this kind with these contents; only a tree has any.
fn append_entries_in(
    alloc: Global,
    kind: Kind,
    contents: &[u8],
    out: &mut Vec<u8>,
) -> Result<(), Memory>
    ensures written { IsReadable kind contents.now → OnOk result
        (out.new.items ≡ out.old.items ++ flat_map tree_line (entries_in kind contents.now)) }
    ensures kept { take (length out.old.items) out.new.items ≡ out.old.items }
{
    match kind {
        Kind::Tree => append_tree_contents(alloc, contents, out),
        _ => Ok(()),
    }
}

/// Appends the direct entries of a tree, each on a line; nothing for what is no tree.
pub fn append_tree<N: Naming>(
    alloc: Global,
    objects: &Objects<'_, N>,
    tree: &Name,
    out: &mut Vec<u8>,
) -> Result<(), Memory>
    ensures written { AreHeld N.digest_of objects.now → OnOk result (out.new.items
        ≡ out.old.items ++ tree_lines objects.now tree.now) }
    ensures kept { take (length out.old.items) out.new.items ≡ out.old.items }
{
    match objects.get(tree) {
        Some((kind, contents)) => append_entries_in(alloc, kind, contents, out),
        None => Ok(()),
    }
}
