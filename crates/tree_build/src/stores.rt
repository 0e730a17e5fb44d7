//! Storing the trees at a path of a branch. An unopened directory on the way is read, and stays
//! unopened.

ghost use Rattle.std.specs.Prelude.{◌≡◌, ◌≤◌, ◌+◌, [], ◌∷◌, length, None, Some, IfOk};
ghost use Rattle.tenant_tables.specs.{Objects.{objects}, IsBackedBy.{IsBackedBy, PreservesOthers}};
ghost use Rattle.file_maps.specs.{FileMap.{Path, Listed}, Edits.{cut, files_at}};
ghost use Rattle.file_maps.specs.Trees.{nested_trees, tree_id, tree_name, file_of};
ghost use Rattle.file_maps.specs.{Storable.{AreStorable}, StoredFiles.{stored_files}};
ghost use Rattle.file_maps.specs.Storing.{StoresTrees, HasHoldsLeftBeside};
ghost use Rattle.tree_build.specs.{Shape.{shape_files, held_files}, Branch.{CountsAtMost}};
ghost use Rattle.tree_build.specs.Branch.{IsDirectory, IsShape, IsHeld, IsBranch, files_in};
ghost use Rattle.tree_build.specs.Branch.{root_name, known_tree, closed_along, closed_from};
ghost use Rattle.tree_build.specs.{Nodes.{held, shape_of}, Standing.{IsFoundAt}};
ghost use Rattle.tree_build.specs.Stores.{bare, bare_held};

use crate::dir::{Dir, Entries, Node};
use crate::files::Files;
use crate::names::place_of;
use crate::reading::stored_entry;
use crate::storing::store_dir;
use crate::sums::no_files;
use content_pool::Pool;
use file_maps::{Entry, Fault, add_entries};
use git_objects::{FileMode, Name, Naming};
use git_paths::{Components, Path};
use std::alloc::Global;
use tenant_tables::{Objects, Sight, Table};

// Stores the empty tree.
fn store_none<N: Naming>(
    alloc: Global,
    pool: &mut Pool<N>,
    table: &mut Table,
) -> Result<Name, Fault>
    requires stands { IsBackedBy N.digest_of pool.old table.old.entries }
    requires room { HasHoldsLeftBeside pool.old table.old.entries }
    ensures { StoresTrees result N.digest_of pool.old table.old pool.new table.new
        ([] ∷ []) (tree_name N.digest_of []) }
{
    add_entries(alloc, pool, table, &[], no_files())
}

// Stores the tree of what was found in a stored tree: a directory there is stored already.
fn store_found<N: Naming>(
    alloc: Global,
    pool: &mut Pool<N>,
    table: &mut Table,
    found: Option<Entry>,
) -> Result<Name, Fault>
    requires stands { IsBackedBy N.digest_of pool.old table.old.entries }
    requires room { HasHoldsLeftBeside pool.old table.old.entries }
    ensures { (files : Listed) → IsFoundAt (objects pool.old table.old.entries) found files
        → StoresTrees result N.digest_of pool.old table.old pool.new table.new
        (nested_trees N.digest_of files) (tree_id N.digest_of files) }
{
    match found {
        Some(entry) => match entry.mode {
            FileMode::Directory => Ok(entry.name),
            _ => store_none(alloc, pool, table),
        },
        None => store_none(alloc, pool, table),
    }
}

// Stores the trees of a node.
fn store_here<N: Naming>(
    alloc: Global,
    pool: &mut Pool<N>,
    table: &mut Table,
    node: &mut Node,
    earlier: Option<&Dir>,
) -> Result<Name, Fault>
    requires stands { IsBackedBy N.digest_of pool.old table.old.entries }
    requires room { HasHoldsLeftBeside pool.old table.old.entries }
    requires sound { IsHeld (objects pool.old table.old.entries) (held node.old) }
    requires storable { let files = held_files (stored_files (objects pool.old table.old.entries))
        (held node.old) in
        file_of files ≡ None → AreStorable files }
    ensures stores { let files = held_files (stored_files (objects pool.old table.old.entries))
        (held node.old) in
        StoresTrees result N.digest_of pool.old table.old pool.new table.new
        (nested_trees N.digest_of files) (tree_id N.digest_of files) }
    ensures same { bare_held (held node.new) ≡ bare_held (held node.old) }
    ensures sound { IsHeld (objects pool.new table.new.entries) (held node.new) }
    ensures named { IsDirectory (held node.old).what → IfOk result
        (λ id. known_tree (held node.new).what ≡ Some id) }
{
    match node {
        Node::File(_) => store_none(alloc, pool, table),
        Node::Unopened(tree) => Ok(*tree),
        Node::Opened(dir) => {
            store_dir(alloc, pool, table, dir, earlier)?;
            Ok(dir.tree.unwrap())
        }
    }
}

// Stores the trees at a path below a node.
#[cycle(walking)]
fn store_path<N: Naming>(
    alloc: Global,
    pool: &mut Pool<N>,
    table: &mut Table,
    node: &mut Node,
    earlier: Option<&Dir>,
    path: &Components<'_>,
    reads: &mut u64,
) -> Result<Name, Fault>
    requires stands { IsBackedBy N.digest_of pool.old table.old.entries }
    requires room { HasHoldsLeftBeside pool.old table.old.entries }
    requires sound { IsHeld (objects pool.old table.old.entries) (held node.old) }
    requires storable { let files = held_files (stored_files (objects pool.old table.old.entries))
        (held node.old) in
        file_of files ≡ None → AreStorable files }
    ensures stores { let files = cut path.now (held_files
        (stored_files (objects pool.old table.old.entries)) (held node.old)) in
        StoresTrees result N.digest_of pool.old table.old pool.new table.new
        (nested_trees N.digest_of files) (tree_id N.digest_of files) }
    ensures same { bare_held (held node.new) ≡ bare_held (held node.old) }
    ensures sound { IsHeld (objects pool.new table.new.entries) (held node.new) }
    ensures named { path.now ≡ [] → IsDirectory (held node.old).what
        → IfOk result (λ id. known_tree (held node.new).what ≡ Some id) }
    ensures counted { reads.old ≤ reads.new }
    ensures bounded { reads.new ≤ reads.old + closed_from (held node.old) path.now }
{
    let Some((name, rest)) = path.split_first() else {
        return store_here(alloc, pool, table, node, earlier);
    };
    match node {
        Node::File(_) => store_none(alloc, pool, table),
        Node::Unopened(tree) => {
            let objects = Objects::of(pool, table, Sight::All);
            match stored_entry(alloc, &objects, tree, name, &rest, reads) {
                Ok(found) => store_found(alloc, pool, table, found),
                Err(_) => Err(Fault::Memory),
            }
        }
        Node::Opened(dir) => store_below(alloc, pool, table, &mut dir.entries, name, &rest, reads),
    }
}

// Stores the trees at the path of `name` and then `rest`.
#[cycle(walking)]
#[tactic(auto, using(crate::proofs::Searched::ordered))]
fn store_below<N: Naming>(
    alloc: Global,
    pool: &mut Pool<N>,
    table: &mut Table,
    entries: &mut Entries,
    name: &[u8],
    rest: &Components<'_>,
    reads: &mut u64,
) -> Result<Name, Fault>
    requires stands { IsBackedBy N.digest_of pool.old table.old.entries }
    requires room { HasHoldsLeftBeside pool.old table.old.entries }
    requires sound { IsShape (objects pool.old table.old.entries) (shape_of entries.old.items) }
    requires storable { AreStorable (shape_files (stored_files
        (objects pool.old table.old.entries)) (shape_of entries.old.items)) }
    ensures stores { let files = cut (name.now ∷ rest.now)
        (shape_files (stored_files (objects pool.old table.old.entries))
        (shape_of entries.old.items)) in
        StoresTrees result N.digest_of pool.old table.old pool.new table.new
        (nested_trees N.digest_of files) (tree_id N.digest_of files) }
    ensures same { bare (shape_of entries.new.items) ≡ bare (shape_of entries.old.items) }
    ensures sound { IsShape (objects pool.new table.new.entries) (shape_of entries.new.items) }
    ensures counted { reads.old ≤ reads.new }
    ensures bounded { reads.new ≤ reads.old + closed_along (shape_of entries.old.items)
        (name.now ∷ rest.now) }
{
    match place_of(entries, name) {
        Some(place) => {
            let node = entries.node_mut(place);
            store_path(alloc, pool, table, node, None, rest, reads)
        }
        None => store_none(alloc, pool, table),
    }
}

// The earlier root, where the root is to be stored. It is of no use after that.
fn earlier_at(root: &mut Option<Dir>, at: &Path) -> Option<Dir> {
    if at.is_root() { root.take() } else { None }
}

impl Files {
    /// Stores the trees of the files at or below a path, children first and in the order of their
    /// entries, the tree at the path itself last, and answers its name: git-write-tree(1).
    ///
    /// `pool` and `table` hold the trees of this value, and no content has 2^64 - 2 holds besides
    /// those of the table. If no file is below the path, or a file is at it, the empty tree is
    /// stored and named. A tree that the table has is not added again, and a directory that is a
    /// stored tree is not walked. A directory that has the entries again that it had before `clear`
    /// is not written. Reads at most as many trees as the path has components.
    ///
    /// The first tree that cannot be added decides the error: `Fault::Limit` (25) if its contents
    /// are too long or the table is full; else `Fault::NameCollision` (24) if the table has another
    /// object of its name. `Fault::Memory` (90) if an allocation fails. After an error the table
    /// may have some of the trees before that one, all after the committed prefix; nothing else has
    /// changed. The files never change, and what was opened stays opened. After a call at the root
    /// that succeeds, `tree` answers the name of the root's tree.
    pub fn store<N: Naming>(
        &mut self,
        pool: &mut Pool<N>,
        table: &mut Table,
        at: &Path,
    ) -> Result<Name, Fault>
        requires stands { IsBackedBy N.digest_of pool.old table.old.entries }
        requires room { HasHoldsLeftBeside pool.old table.old.entries }
        requires branch { IsBranch (objects pool.old table.old.entries) self.old }
        ensures stores { let files = files_at (files_in (objects pool.old table.old.entries)
            self.old) at.now in
            StoresTrees result N.digest_of pool.old table.old pool.new table.new
            (nested_trees N.digest_of files) (tree_id N.digest_of files) }
        ensures stands { IsBackedBy N.digest_of pool.new table.new.entries }
        ensures room { HasHoldsLeftBeside pool.new table.new.entries }
        ensures others { PreservesOthers pool.old table.old.entries pool.new table.new.entries }
        ensures branch { IsBranch (objects pool.new table.new.entries) self.new }
        ensures files { files_in (objects pool.new table.new.entries) self.new
            ≡ files_in (objects pool.old table.old.entries) self.old }
        ensures named { at.now ≡ [] → IfOk result (λ id. root_name self.new ≡ Some id) }
        ensures reads { CountsAtMost self.old self.new (closed_from self.old.root at.now) }
        ensures few { self.new.reads ≤ self.old.reads + length at.now }
        ensures open { (q : Path) → closed_from self.new.root q ≤ closed_from self.old.root q }
    {
        self.walk_reads_few(at);
        let earlier = earlier_at(&mut self.earlier, at);
        store_path(
            self.alloc,
            pool,
            table,
            &mut self.root,
            earlier.as_ref(),
            &at.components(),
            &mut self.reads,
        )
    }
}
