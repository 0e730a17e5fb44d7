//! The files of a commit in a stream: git-fast-import(1), `M` and `deleteall`.

ghost use Rattle.std.specs.Prelude.{◌≡◌, ◌++◌, All, List, length, take, IfOk, OnOk, Some};
ghost use Rattle.git_model.specs.{GoodRepository.{AreObjects, IsValid}, References.{kind_named}};
ghost use Rattle.git_model.specs.{Repository.{Object}, StoredPath.{entries_of as stored_entries}};
ghost use Rattle.git_model.specs.StoredPath.{entries_in as stored_entries_in};
ghost use Rattle.git_model.specs.Tree.{TreeEntry as Entry, CanWriteEntry, CanWriteTree};
ghost use Rattle.git_model.specs.{Tree.{tree_contents}, TreeReading.{tree_read}};
ghost use Rattle.git_objects.specs.Parts.{entry_of, entries_of};
ghost use Rattle.git_paths.specs.Quoting.{quoted};
ghost use Rattle.export_text.specs.{ItemText.{items_text}, ExportItems.{dataref_text, file_items}};
ghost use Rattle.export_text.specs.Lines.{AreTold, WhereTold, file_line, lines_within};
ghost use Rattle.export_text.specs.Lines.{prefix_below};
ghost use Rattle.git_model.specs.declared.kind.Kind.TheVariants as kind;

use crate::item_text::append_line;
use crate::mark_text::append_mark;
use crate::told::{Directories, Lines};
use git_objects::{
    FileMode, Kind, Memory, Name, Naming, TreeEntry, append_parts, read_tree, six_digits,
};
use git_paths::quote_into;
use std::alloc::Global;
use tenant_tables::Objects;

// Appends what a file holds: a blob by its mark, and a gitlink by its name.
fn append_dataref<N: Naming>(
    objects: &Objects<'_, N>,
    mode: FileMode,
    id: &Name,
    out: &mut Vec<u8>,
) -> Result<(), Memory>
    ensures written { OnOk result (out.new.items
        ≡ out.old.items ++ dataref_text objects.now mode id.now) }
    ensures kept { take (length out.old.items) out.new.items ≡ out.old.items }
{
    match mode {
        FileMode::Gitlink => append_parts(&[&id.to_hex()], out),
        _ => append_mark(objects, id, out),
    }
}

// Appends a path, in quotes where it needs them. The name is appended to the prefix meanwhile.
fn append_path(prefix: &mut Vec<u8>, name: &[u8], out: &mut Vec<u8>) -> Result<(), Memory>
    ensures written { OnOk result (out.new.items
        ≡ out.old.items ++ quoted (prefix.old.items ++ name.now)) }
    ensures prefix { OnOk result (prefix.new.items ≡ prefix.old.items) }
    ensures kept { take (length out.old.items) out.new.items ≡ out.old.items }
{
    let above = prefix.len();
    prefix.extend_from_slice(name)?;
    quote_into(prefix, out)?;
    prefix.truncate(above);
    Ok(())
}

fn append_file<N: Naming>(
    objects: &Objects<'_, N>,
    prefix: &mut Vec<u8>,
    entry: &TreeEntry<'_>,
    out: &mut Vec<u8>,
) -> Result<(), Memory>
    ensures written { OnOk result (out.new.items
        ≡ out.old.items ++ file_line objects.now prefix.old.items (entry_of entry.now)) }
    ensures prefix { OnOk result (prefix.new.items ≡ prefix.old.items) }
    ensures kept { take (length out.old.items) out.new.items ≡ out.old.items }
{
    append_parts(&[b"M ", six_digits(entry.mode), b" "], out)?;
    append_dataref(objects, entry.mode, &entry.id, out)?;
    out.push(b' ')?;
    append_path(prefix, entry.name, out)?;
    out.push(b'\n')?;
    Ok(())
}

fn entries_in_tree(alloc: Global, contents: &[u8]) -> Result<Vec<TreeEntry<'_>>, Memory>
    ensures entries { (es : List Entry) → CanWriteTree es → contents.now ≡ tree_contents es
        → IfOk result (λ found. entries_of found.items ≡ tree_read contents.now) }
    ensures names { IfOk result (λ found. All CanWriteEntry (entries_of found.items)) }
{
    match read_tree(alloc, contents)? {
        Some(entries) => Ok(entries),
        None => Ok(Vec::new(alloc)),
    }
}

// The direct entries of an object of this kind with these contents; only a tree has any.
fn entries_in(alloc: Global, kind: Kind, contents: &[u8]) -> Result<Vec<TreeEntry<'_>>, Memory>
    ensures entries { (os : List Object) → IsValid os kind contents.now
        → IfOk result (λ found. entries_of found.items ≡ stored_entries_in kind contents.now) }
    ensures names { IfOk result (λ found. All CanWriteEntry (entries_of found.items)) }
{
    match kind {
        Kind::Tree => entries_in_tree(alloc, contents),
        _ => Ok(Vec::new(alloc)),
    }
}

// The direct entries of the tree of this name; none where there is no such tree.
fn entries_of<'a, N: Naming>(
    alloc: Global,
    objects: &Objects<'a, N>,
    tree: &Name,
) -> Result<Vec<TreeEntry<'a>>, Memory>
    ensures entries { AreObjects N.digest_of objects.now
        → IfOk result (λ found. entries_of found.items ≡ stored_entries objects.now tree.now) }
    ensures names { IfOk result (λ found. All CanWriteEntry (entries_of found.items)) }
{
    match objects.get(tree) {
        Some((kind, contents)) => entries_in(alloc, kind, contents),
        None => Ok(Vec::new(alloc)),
    }
}

// Appends a directory's name and a slash to the prefix.
fn enter(prefix: &mut Vec<u8>, name: &[u8]) -> Result<(), Memory>
    ensures { OnOk result (prefix.new.items ≡ prefix_below prefix.old.items name.now) }
{
    append_parts(&[name, b"/"], prefix)
}

// Appends the files of a tree, each below a prefix. Lines that were written before are copied. The
// tree of a directory comes before the tree that has the directory, so there are fewer levels than
// objects.
fn append_files<N: Naming>(
    alloc: Global,
    objects: &Objects<'_, N>,
    levels: usize,
    prefix: &mut Vec<u8>,
    tree: &Name,
    told: &mut Directories,
    out: &mut Vec<u8>,
) -> Result<(), Memory>
    ensures written { WhereTold N.digest_of objects.now out.old.items told.old
        (OnOk result (out.new.items
        ≡ out.old.items ++ lines_within objects.now levels prefix.old.items tree.now)) }
    ensures in_mind { WhereTold N.digest_of objects.now out.old.items told.old
        (OnOk result (AreTold objects.now out.new.items told.new)) }
    ensures prefix { OnOk result (prefix.new.items ≡ prefix.old.items) }
    ensures kept { take (length out.old.items) out.new.items ≡ out.old.items }
{
    if levels == 0 {
        return Ok(());
    }
    if told.append_again(alloc, levels, prefix, tree, out)? {
        return Ok(());
    }
    let start = out.len();
    let above = prefix.len();
    let entries = entries_of(alloc, objects, tree)?;
    for entry in &entries {
        match entry.mode {
            FileMode::Directory => {
                enter(prefix, entry.name)?;
                append_files(alloc, objects, levels - 1, prefix, &entry.id, told, out)?;
                prefix.truncate(above);
            }
            _ => append_file(objects, prefix, entry, out)?,
        }
    }
    let end = out.len();
    told.keep(alloc, levels, prefix, tree, Lines { start, end })
}

/// Appends `deleteall`, and then all files of a tree in the order of the paths' bytes. Lines of
/// directories that `told` remembers are copied, and it remembers the others then. After `Memory`
/// (90) a part of them may have been appended.
pub fn append_all_files<N: Naming>(
    alloc: Global,
    objects: &Objects<'_, N>,
    tree: &Name,
    told: &mut Directories,
    out: &mut Vec<u8>,
) -> Result<(), Memory>
    ensures written { WhereTold N.digest_of objects.now out.old.items told.old
        (kind_named tree.now objects.now ≡ Some kind.Tree → OnOk result (out.new.items
        ≡ out.old.items ++ items_text (file_items objects.now tree.now))) }
    ensures in_mind { WhereTold N.digest_of objects.now out.old.items told.old
        (OnOk result (AreTold objects.now out.new.items told.new)) }
    ensures kept { take (length out.old.items) out.new.items ≡ out.old.items }
{
    append_line(b"deleteall", b"", out)?;
    let mut prefix = Vec::new(alloc);
    append_files(alloc, objects, objects.len(), &mut prefix, tree, told, out)
}
