//! Storing the trees of opened directories, children first.

ghost use Rattle.std.specs.Prelude.{◌≡◌, ◌<◌, ◌+◌, length, [], ◌∷◌, None, Some, IfOk, OnOk, get_or};
ghost use Rattle.std.specs.Prelude.{take};
ghost use Rattle.git_objects.specs.Parts.{entry_of};
ghost use Rattle.tenant_tables.specs.{Objects.{objects}, IsBackedBy.{IsBackedBy}};
ghost use Rattle.file_maps.specs.Trees.{nested_trees, tree_id, tree_name, file_of};
ghost use Rattle.file_maps.specs.{Storable.{AreStorable}, StoredFiles.{stored_files}};
ghost use Rattle.file_maps.specs.PlainTrees.{ListsPlain};
ghost use Rattle.file_maps.specs.Storing.{StoresTrees, HasHoldsLeftBeside};
ghost use Rattle.tree_build.specs.{Shape.{opened, shape_files, held_files}, Nodes.{held, shape_of}};
ghost use Rattle.tree_build.specs.Branch.{IsShape, IsHeld};
ghost use Rattle.tree_build.specs.Stores.{bare, bare_held, IsNamed, AreNamed, entry_of_what};
ghost use Rattle.tree_build.specs.Stores.{entries_of_shape, parts_of, trees_below, trees_of_parts};
ghost use Rattle.git_model.specs.declared.file_mode.FileMode.TheVariants as mode;

use crate::component::Component;
use crate::dir::{Dir, Entries, Node};
use crate::matching::{earlier_of, tree_again};
use crate::sums::summary_of;
use crate::writing::contents_of;
use content_pool::Pool;
use file_maps::{Fault, add_contents};
use git_objects::{FileMode, Name, Naming, TreeEntry};
use std::alloc::Global;
use tenant_tables::{Objects, Sight, Table};

/// Stores the trees of an opened directory that are not stored yet. The name of its own tree then
/// stands in `tree`: to answer it as well would take time at each directory. Where an earlier
/// directory has the same tree, that is kept.
#[cycle(storing)]
pub(crate) fn store_dir<N: Naming>(
    alloc: Global,
    pool: &mut Pool<N>,
    table: &mut Table,
    dir: &mut Dir,
    earlier: Option<&Dir>,
) -> Result<(), Fault>
    requires stands { IsBackedBy N.digest_of pool.old table.old.entries }
    requires room { HasHoldsLeftBeside pool.old table.old.entries }
    requires sound { IsHeld (objects pool.old table.old.entries)
        (record { what = opened dir.old.tree; inside = dir.old.entries }) }
    requires storable { AreStorable (shape_files (stored_files
        (objects pool.old table.old.entries)) dir.old.entries) }
    ensures stores { let files = shape_files (stored_files (objects pool.old table.old.entries))
        dir.old.entries in
        StoresTrees result N.digest_of pool.old table.old pool.new table.new
        (nested_trees N.digest_of files) tt }
    ensures same { bare dir.new.entries ≡ bare dir.old.entries }
    ensures sound { IsHeld (objects pool.new table.new.entries)
        (record { what = opened dir.new.tree; inside = dir.new.entries }) }
    ensures named { let files = shape_files (stored_files (objects pool.old table.old.entries))
        dir.old.entries in
        OnOk result (dir.new.tree ≡ Some (tree_id N.digest_of files)) }
{
    match dir.tree {
        Some(_) => Ok(()),
        None => {
            store_inside(alloc, pool, table, &mut dir.entries, earlier)?;
            let name = add_tree(alloc, pool, table, &dir.entries, earlier)?;
            dir.tree = Some(name);
            dir.place = table.len().saturating_sub(1);
            Ok(())
        }
    }
}

// Stores the trees of the entries of a directory.
#[cycle(storing)]
fn store_inside<N: Naming>(
    alloc: Global,
    pool: &mut Pool<N>,
    table: &mut Table,
    entries: &mut Entries,
    earlier: Option<&Dir>,
) -> Result<(), Fault>
    requires stands { IsBackedBy N.digest_of pool.old table.old.entries }
    requires room { HasHoldsLeftBeside pool.old table.old.entries }
    requires sound { IsShape (objects pool.old table.old.entries) (shape_of entries.old.items) }
    requires storable { AreStorable (shape_files (stored_files
        (objects pool.old table.old.entries)) (shape_of entries.old.items)) }
    ensures stores { let parts = parts_of (stored_files (objects pool.old table.old.entries))
        (shape_of entries.old.items) in
        StoresTrees result N.digest_of pool.old table.old pool.new table.new
        (trees_of_parts N.digest_of parts) tt }
    ensures same { bare (shape_of entries.new.items) ≡ bare (shape_of entries.old.items) }
    ensures sound { IsShape (objects pool.new table.new.entries) (shape_of entries.new.items) }
    ensures named { OnOk result (AreNamed (shape_of entries.new.items)) }
{
    for place in 0..entries.len() {
        match store_at(alloc, pool, table, entries, place, earlier) {
            Ok(()) => {}
            Err(refusal) => return Err(refusal),
        }
    }
    Ok(())
}

// Stores the trees of the entry at a place.
#[cycle(storing)]
fn store_at<N: Naming>(
    alloc: Global,
    pool: &mut Pool<N>,
    table: &mut Table,
    entries: &mut Entries,
    place: usize,
    earlier: Option<&Dir>,
) -> Result<(), Fault>
    requires place { place < length entries.old.items }
    requires stands { IsBackedBy N.digest_of pool.old table.old.entries }
    requires room { HasHoldsLeftBeside pool.old table.old.entries }
    requires sound { IsShape (objects pool.old table.old.entries) (shape_of entries.old.items) }
    requires storable { AreStorable (shape_files (stored_files
        (objects pool.old table.old.entries)) (shape_of entries.old.items)) }
    ensures stores { let parts = parts_of (stored_files (objects pool.old table.old.entries))
        (shape_of entries.old.items) in
        StoresTrees result N.digest_of pool.old table.old pool.new table.new
        (trees_below N.digest_of (get_or parts place ([], [])).1) tt }
    ensures same { bare (shape_of entries.new.items) ≡ bare (shape_of entries.old.items) }
    ensures sound { IsShape (objects pool.new table.new.entries) (shape_of entries.new.items) }
    ensures named { OnOk result (AreNamed (shape_of (take place entries.old.items)) → AreNamed
        (shape_of (take (place + 1) entries.new.items))) }
{
    let earlier = earlier_of(earlier, entries.at(place));
    store_node(alloc, pool, table, entries.node_mut(place), earlier)
}

// Stores the trees of a node, if it is a directory.
#[cycle(storing)]
fn store_node<N: Naming>(
    alloc: Global,
    pool: &mut Pool<N>,
    table: &mut Table,
    node: &mut Node,
    earlier: Option<&Dir>,
) -> Result<(), Fault>
    requires stands { IsBackedBy N.digest_of pool.old table.old.entries }
    requires room { HasHoldsLeftBeside pool.old table.old.entries }
    requires sound { IsHeld (objects pool.old table.old.entries) (held node.old) }
    requires storable { let files = held_files (stored_files (objects pool.old table.old.entries))
        (held node.old) in
        file_of files ≡ None → AreStorable files }
    ensures stores { let files = held_files (stored_files (objects pool.old table.old.entries))
        (held node.old) in
        StoresTrees result N.digest_of pool.old table.old pool.new table.new
        (trees_below N.digest_of files) tt }
    ensures same { bare_held (held node.new) ≡ bare_held (held node.old) }
    ensures sound { IsHeld (objects pool.new table.new.entries) (held node.new) }
    ensures named { OnOk result (IsNamed (held node.new).what) }
{
    match node {
        Node::File(_) => Ok(()),
        Node::Unopened(_) => Ok(()),
        Node::Opened(dir) => store_dir(alloc, pool, table, dir, earlier),
    }
}

// Adds the tree of a directory, unless it is that of an earlier one. The trees of the directories
// in it are stored already.
fn add_tree<N: Naming>(
    alloc: Global,
    pool: &mut Pool<N>,
    table: &mut Table,
    entries: &Entries,
    earlier: Option<&Dir>,
) -> Result<Name, Fault>
    requires stands { IsBackedBy N.digest_of pool.old table.old.entries }
    requires room { HasHoldsLeftBeside pool.old table.old.entries }
    requires sound { IsShape (objects pool.old table.old.entries) (shape_of entries.now.items) }
    requires named { AreNamed (shape_of entries.now.items) }
    requires storable { AreStorable (shape_files (stored_files
        (objects pool.old table.old.entries)) (shape_of entries.now.items)) }
    ensures stores { StoresTrees result N.digest_of pool.old table.old pool.new table.new
        (entries_of_shape (shape_of entries.now.items) ∷ [])
        (tree_name N.digest_of (entries_of_shape (shape_of entries.now.items))) }
    ensures lists { IfOk result (λ id. ListsPlain (objects pool.new table.new.entries) id
        (shape_files (stored_files (objects pool.old table.old.entries))
        (shape_of entries.now.items))) }
{
    let again = tree_again(&Objects::of(pool, table, Sight::All), entries, earlier);
    match again {
        Some(name) => Ok(name),
        None => write_tree(alloc, pool, table, entries),
    }
}

// Writes the tree of a directory and adds it. The trees of the directories in it are stored
// already.
fn write_tree<N: Naming>(
    alloc: Global,
    pool: &mut Pool<N>,
    table: &mut Table,
    entries: &Entries,
) -> Result<Name, Fault>
    requires stands { IsBackedBy N.digest_of pool.old table.old.entries }
    requires room { HasHoldsLeftBeside pool.old table.old.entries }
    requires sound { IsShape (objects pool.old table.old.entries) (shape_of entries.now.items) }
    requires named { AreNamed (shape_of entries.now.items) }
    requires storable { AreStorable (shape_files (stored_files
        (objects pool.old table.old.entries)) (shape_of entries.now.items)) }
    ensures stores { StoresTrees result N.digest_of pool.old table.old pool.new table.new
        (entries_of_shape (shape_of entries.now.items) ∷ [])
        (tree_name N.digest_of (entries_of_shape (shape_of entries.now.items))) }
    ensures lists { IfOk result (λ id. ListsPlain (objects pool.new table.new.entries) id
        (shape_files (stored_files (objects pool.old table.old.entries))
        (shape_of entries.now.items))) }
{
    let chunks = entries.chunks();
    let contents = contents_of(alloc, chunks)?;
    let summary = summary_of(table, chunks);
    add_contents(pool, table, contents, summary)
}

/// An entry as a tree lists it.
pub(crate) fn row_of<'a>(entry: &'a (Component, Node)) -> TreeEntry<'a>
    requires { IsNamed (held entry.now.1).what }
    ensures { entry_of result ≡ entry_of_what entry.now.0 (held entry.now.1).what }
{
    let name = entry.0.as_bytes();
    match &entry.1 {
        Node::File(file) => TreeEntry {
            mode: file.mode,
            name,
            id: file.name,
        },
        Node::Unopened(id) => directory(name, *id),
        Node::Opened(dir) => directory(name, dir.tree.unwrap()),
    }
}

fn directory<'a>(name: &'a [u8], id: Name) -> TreeEntry<'a>
    ensures { entry_of result ≡ record { mode = mode.Directory; name = name.now; id = id } }
{
    TreeEntry {
        mode: FileMode::Directory,
        name,
        id,
    }
}
