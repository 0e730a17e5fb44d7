//! What is at a path of a branch. An unopened directory on the way is read, and stays unopened.

ghost use Rattle.std.specs.Prelude.{◌≡◌, ◌≢◌, [], ◌∷◌, Some, IfOk};
ghost use Rattle.tenant_tables.specs.{Objects.{objects}, IsBackedBy.{IsBackedBy}};
ghost use Rattle.file_maps.specs.{StoredFiles.{stored_files}, Trees.{tree_id, entry_at}};
ghost use Rattle.tree_build.specs.{Shape.{shape_files, held_files}, Nodes.{held, shape_of}};
ghost use Rattle.tree_build.specs.Branch.{IsDirectory, IsShape, IsHeld, IsBranch, files_in};
ghost use Rattle.tree_build.specs.Standing.{stands_at};

use crate::dir::{Entries, Node};
use crate::files::Files;
use crate::names::place_of;
use crate::naming::{entry_here, tree_of};
use crate::reading::stored_entry;
use content_pool::Pool;
use file_maps::Entry;
use git_objects::{FileMode, Memory, Name, Naming};
use git_paths::{Components, Path};
use std::alloc::Global;
use tenant_tables::{Objects, Sight, Table};

/// What is at a path below a node.
#[cycle(looking)]
pub(crate) fn entry_at<N: Naming>(
    alloc: Global,
    objects: &Objects<'_, N>,
    node: &Node,
    path: &Components<'_>,
) -> Result<Option<Entry>, Memory>
    requires sound { IsHeld objects.now (held node.now) }
    requires some { path.now ≡ [] → held_files (stored_files objects.now) (held node.now) ≢ [] }
    ensures { IfOk result (λ o. o ≡ stands_at N.digest_of
        (held_files (stored_files objects.now) (held node.now)) path.now) }
{
    let Some((name, rest)) = path.split_first() else {
        return Ok(Some(entry_here(alloc, objects, node)?));
    };
    match node {
        Node::File(_) => Ok(None),
        Node::Unopened(tree) => stored_entry(alloc, objects, tree, name, &rest, &mut 0),
        Node::Opened(dir) => entry_below(alloc, objects, &dir.entries, name, &rest),
    }
}

#[cycle(looking)]
#[tactic(auto, using(crate::proofs::Searched::ordered))]
fn entry_below<N: Naming>(
    alloc: Global,
    objects: &Objects<'_, N>,
    entries: &Entries,
    name: &[u8],
    rest: &Components<'_>,
) -> Result<Option<Entry>, Memory>
    requires sound { IsShape objects.now (shape_of entries.now.items) }
    ensures { IfOk result (λ o. o ≡ stands_at N.digest_of (shape_files (stored_files objects.now)
        (shape_of entries.now.items)) (name.now ∷ rest.now)) }
{
    match place_of(entries, name) {
        Some(place) => entry_at(alloc, objects, &entries.at(place).1, rest),
        None => Ok(None),
    }
}

// The name of the tree of the root.
fn root_tree<N: Naming>(
    alloc: Global,
    objects: &Objects<'_, N>,
    root: &Node,
) -> Result<Name, Memory>
    requires directory { IsDirectory (held root.now).what }
    requires sound { IsHeld objects.now (held root.now) }
    ensures { IfOk result (λ id. id ≡ tree_id N.digest_of
        (held_files (stored_files objects.now) (held root.now))) }
{
    objects.are_backed();
    match root {
        Node::File(file) => Ok(file.name),
        Node::Unopened(tree) => Ok(*tree),
        Node::Opened(dir) => tree_of(alloc, objects, dir),
    }
}

impl Files {
    /// What is at a path: a file, a directory with the name of its tree, or `None`. The root is
    /// always a directory.
    ///
    /// `pool` and `table` hold the trees of this value. Trees that are not stored are named without
    /// storing them. No directory is opened, and `reads` does not count what this call reads. Takes
    /// memory for the entries of the trees that it reads and for the contents of those that it
    /// names. The only error is `Memory` (90).
    pub fn entry<N: Naming>(
        &self,
        pool: &Pool<N>,
        table: &Table,
        path: &Path,
    ) -> Result<Option<Entry>, Memory>
        requires stands { IsBackedBy N.digest_of pool.now table.now.entries }
        requires branch { IsBranch (objects pool.now table.now.entries) self.now }
        ensures { IfOk result (λ o. o ≡ entry_at N.digest_of
            (files_in (objects pool.now table.now.entries) self.now) path.now) }
    {
        let objects = Objects::of(pool, table, Sight::All);
        if path.is_root() {
            let name = root_tree(self.alloc, &objects, &self.root)?;
            let mode = FileMode::Directory;
            return Ok(Some(Entry { mode, name }));
        }
        entry_at(self.alloc, &objects, &self.root, &path.components())
    }
}
