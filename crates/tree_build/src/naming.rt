//! The names of the trees of opened directories, without storing them.

ghost use Rattle.std.specs.Prelude.{◌≡◌, ◌≢◌, [], Some, IfOk, OnOk};
ghost use Rattle.git_objects.specs.Parts.{entry_of, entries_of};
ghost use Rattle.file_maps.specs.StoredFiles.{stored_files};
ghost use Rattle.file_maps.specs.Trees.{tree_entries, tree_id, tree_name};
ghost use Rattle.tree_build.specs.{Shape.{opened, shape_files, held_files}, Nodes.{held, shape_of}};
ghost use Rattle.tree_build.specs.{Branch.{IsShape, IsHeld}, Standing.{stands_at}};
ghost use Rattle.git_model.specs.declared.file_mode.FileMode.TheVariants as mode;

use crate::component::Component;
use crate::dir::{Dir, Entries, Node};
use file_maps::{Entry, contents_of};
use git_objects::{FileMode, Kind, Memory, Name, Naming, TreeEntry};
use std::alloc::Global;
use tenant_tables::Objects;

/// The name of the tree of an opened directory.
#[cycle(naming)]
pub(crate) fn tree_of<N: Naming>(
    alloc: Global,
    objects: &Objects<'_, N>,
    dir: &Dir,
) -> Result<Name, Memory>
    requires sound { IsHeld objects.now
        (record { what = opened dir.now.tree; inside = dir.now.entries }) }
    ensures { IfOk result (λ id. id ≡ tree_id N.digest_of
        (shape_files (stored_files objects.now) dir.now.entries)) }
{
    objects.are_backed();
    match dir.tree {
        Some(name) => Ok(name),
        None => tree_of_entries(alloc, objects, &dir.entries),
    }
}

#[cycle(naming)]
fn tree_of_entries<N: Naming>(
    alloc: Global,
    objects: &Objects<'_, N>,
    entries: &Entries,
) -> Result<Name, Memory>
    requires sound { IsShape objects.now (shape_of entries.now.items) }
    ensures { IfOk result (λ id. id ≡ tree_id N.digest_of (shape_files (stored_files objects.now)
        (shape_of entries.now.items))) }
{
    let mut rows = Vec::new(alloc);
    match push_rows(alloc, objects, entries, &mut rows) {
        Ok(()) => name_of_rows(alloc, objects, &rows),
        Err(_) => Err(Memory),
    }
}

// Fills empty `rows` with the entries of a directory as its tree lists them.
#[cycle(naming)]
fn push_rows<'a, N: Naming>(
    alloc: Global,
    objects: &Objects<'_, N>,
    entries: &'a Entries,
    rows: &mut Vec<TreeEntry<'a>>,
) -> Result<(), Memory>
    requires sound { IsShape objects.now (shape_of entries.now.items) }
    requires none { rows.old.items ≡ [] }
    ensures { OnOk result (entries_of rows.new.items ≡ tree_entries N.digest_of
        (shape_files (stored_files objects.now) (shape_of entries.now.items))) }
{
    for place in 0..entries.len() {
        let entry = entries.at(place);
        let held = entry_here(alloc, objects, &entry.1)?;
        if rows.push(row_of(entry, held)).is_err() {
            return Err(Memory);
        }
    }
    Ok(())
}

// The name of the tree with these entries.
fn name_of_rows<N: Naming>(
    alloc: Global,
    objects: &Objects<'_, N>,
    rows: &[TreeEntry<'_>],
) -> Result<Name, Memory>
    ensures { IfOk result (λ id. id ≡ tree_name N.digest_of (entries_of rows.now)) }
{
    let contents = contents_of(alloc, rows)?;
    objects.name_of(Kind::Tree, &contents)
}

fn row_of<'a>(entry: &'a (Component, Node), held: Entry) -> TreeEntry<'a>
    ensures { entry_of result ≡ record { mode = held.mode; name = entry.now.0; id = held.name } }
{
    TreeEntry {
        mode: held.mode,
        name: entry.0.as_bytes(),
        id: held.name,
    }
}

fn directory(name: Name) -> Entry
    ensures { result ≡ record { mode = mode.Directory; name = name } }
{
    let mode = FileMode::Directory;
    Entry { mode, name }
}

/// What a node is: a file, or a directory with the name of its tree.
#[cycle(naming)]
pub(crate) fn entry_here<N: Naming>(
    alloc: Global,
    objects: &Objects<'_, N>,
    node: &Node,
) -> Result<Entry, Memory>
    requires sound { IsHeld objects.now (held node.now) }
    requires some { held_files (stored_files objects.now) (held node.now) ≢ [] }
    ensures { IfOk result (λ e. Some e ≡ stands_at N.digest_of
        (held_files (stored_files objects.now) (held node.now)) []) }
{
    objects.are_backed();
    match node {
        Node::File(file) => Ok(*file),
        Node::Unopened(name) => Ok(directory(*name)),
        Node::Opened(dir) => Ok(directory(tree_of(alloc, objects, dir)?)),
    }
}
