//! Opening directories: the direct entries are read, and the directories among them stay unopened.

ghost use Rattle.std.specs.Prelude.{◌≡◌, Some, All, IfOk, OnOk};
ghost use Rattle.git_model.specs.Tree.{IsEntryName, CanWriteEntry};
ghost use Rattle.git_objects.specs.Parts.{entry_of, entries_of};
ghost use Rattle.file_maps.specs.{PlainTrees.{ListsPlain}, StoredFiles.{stored_files}};
ghost use Rattle.tree_build.specs.Branch.{IsShape, IsHeld, closed_along, closed_from};
ghost use Rattle.tree_build.specs.{Nodes.{held, shape_of}, Opened.{ReadsMore}};
ghost use Rattle.tree_build.specs.Opened.{entry_held, tree_shape, IsOpening, OpensAlong, OpensHeld};

use crate::component::Component;
use crate::dir::{Dir, Entries, Node};
use crate::names::place_of;
use file_maps::{Entry, read_entries};
use git_objects::{FileMode, Memory, Name, Naming, TreeEntry};
use git_paths::Components;
use std::alloc::Global;
use tenant_tables::Objects;

// The node of an entry of a tree.
fn node_of(entry: &TreeEntry<'_>) -> Node
    ensures { held result ≡ entry_held (entry_of entry.now) }
{
    let mode = entry.mode;
    let name = entry.id;
    match mode {
        FileMode::Directory => Node::Unopened(name),
        _ => Node::File(Entry { mode, name }),
    }
}

fn row_of(alloc: Global, entry: &TreeEntry<'_>) -> Result<(Component, Node), Memory>
    requires { IsEntryName entry.now.name.now }
    ensures name { IfOk result (λ r. r.0 ≡ entry.now.name.now) }
    ensures held { IfOk result (λ r. held r.1 ≡ entry_held (entry_of entry.now)) }
{
    Ok((Component::new(alloc, entry.name)?, node_of(entry)))
}

// The names and nodes of the entries of a tree.
fn rows_of(alloc: Global, entries: &[TreeEntry<'_>]) -> Result<Entries, Memory>
    requires { All CanWriteEntry (entries_of entries.now) }
    ensures { IfOk result (λ rows. shape_of rows.items ≡ tree_shape (entries_of entries.now)) }
{
    let mut rows = Entries::with_capacity(alloc, entries.len())?;
    for entry in entries {
        rows.push(alloc, row_of(alloc, entry)?)?;
    }
    Ok(rows)
}

/// Opens the directory of a stored tree. Takes memory for its entries.
pub(crate) fn open<N: Naming>(
    alloc: Global,
    objects: &Objects<'_, N>,
    id: &Name,
) -> Result<Dir, Memory>
    requires tree { ListsPlain objects.now id.now (stored_files objects.now id.now) }
    ensures { IfOk result (λ d. IsOpening objects.now id.now d) }
{
    objects.are_backed();
    let entries = read_entries(alloc, objects, id)?;
    Ok(Dir {
        entries: rows_of(alloc, &entries)?,
        tree: Some(*id),
        place: objects.place(id).unwrap_or(0),
    })
}

/// Opens the directories on the way to a path, and counts the trees that are read. Takes memory for
/// their entries.
#[cycle(opening)]
#[tactic(auto, using(crate::proofs::Searched::ordered))]
pub(crate) fn open_along<N: Naming>(
    alloc: Global,
    objects: &Objects<'_, N>,
    dir: &mut Dir,
    path: &Components<'_>,
    reads: &mut u64,
) -> Result<(), Memory>
    requires sound { IsShape objects.now dir.old.entries }
    ensures opens { OnOk result (OpensAlong objects.now path.now dir.old dir.new) }
    ensures reads { ReadsMore reads.old reads.new (closed_along dir.old.entries path.now) }
{
    let Some((name, rest)) = path.split_first() else {
        return Ok(());
    };
    match place_of(&dir.entries, name) {
        Some(at) => open_below(alloc, objects, dir.entries.node_mut(at), &rest, reads),
        None => Ok(()),
    }
}

/// Opens a node and the directories below it on the way to a path.
#[cycle(opening)]
pub(crate) fn open_below<N: Naming>(
    alloc: Global,
    objects: &Objects<'_, N>,
    node: &mut Node,
    rest: &Components<'_>,
    reads: &mut u64,
) -> Result<(), Memory>
    requires sound { IsHeld objects.now (held node.old) }
    ensures opens { OnOk result (OpensHeld objects.now rest.now (held node.old) (held node.new)) }
    ensures reads { ReadsMore reads.old reads.new (closed_from (held node.old) rest.now) }
{
    if rest.len() == 0 {
        return Ok(());
    }
    match node {
        Node::File(_) => Ok(()),
        Node::Opened(dir) => open_along(alloc, objects, dir, rest, reads),
        Node::Unopened(id) => {
            *reads = reads.saturating_add(1);
            let mut dir = open(alloc, objects, id)?;
            open_along(alloc, objects, &mut dir, rest, reads)?;
            *node = Node::Opened(dir);
            Ok(())
        }
    }
}
