//! Putting a file at a path in one walk.
//!
//! Each directory on the way is opened, and a name is looked for once in it. What stands at the
//! path, below it, or at a prefix of it is removed, and its files are counted.

ghost use Rattle.std.specs.Prelude.{◌≡◌, ◌≢◌, ◌≤◌, [], length, position, false, Some, IfOk, OnOk};
ghost use Rattle.git_model.specs.Limits.{files_limit};
ghost use Rattle.git_paths.specs.Paths.{IsComponent};
ghost use Rattle.file_maps.specs.StoredFiles.{stored_files};
ghost use Rattle.tree_build.specs.{Shape.{Held, shape_files, held_files}, Opened.{ReadsMore}};
ghost use Rattle.tree_build.specs.Branch.{IsDirectory, IsShape, IsHeld, closed_along, closed_from};
ghost use Rattle.tree_build.specs.{Nodes.{held, shape_of, has_name}, Putting.{PutsHeld}};
ghost use Rattle.tree_build.specs.Searches.{AreOrdered, IsPlaceAfter};
ghost use Rattle.tree_build.specs.Editing.{child, inserted, removed, is_opened};
ghost use Rattle.tree_build.specs.Putting.{file_held, new_node, has_more, leads_into, PutsAlong};

use crate::component::{Component, has_components};
use crate::counting::count;
use crate::dir::{Dir, Entries, Node};
use crate::names::{Found, append, find, insert};
use crate::opening::open;
use crate::placing::{place, put_instead};
use file_maps::Entry;
use git_objects::{Memory, Naming};
use git_paths::Components;
use std::alloc::Global;
use tenant_tables::Objects;

fn has_more(path: &Components<'_>) -> bool
    ensures { result ≡ has_more path.now }
{
    !path.as_bytes().is_empty()
}

// Whether the rest of a path leads into a node. If it does not, the node is replaced.
fn leads_into(node: &Node, rest: &Components<'_>) -> bool
    ensures { result ≡ leads_into (held node.now).what rest.now }
{
    match node {
        Node::File(_) => false,
        _ => has_more(rest),
    }
}

// What is put under a name: the file, or a new directory that has it at the rest of the path.
fn new_node(alloc: Global, rest: &Components<'_>, entry: &Entry) -> Result<Node, Memory>
    ensures { IfOk result (λ n. held n ≡ new_node rest.now (file_held entry.now)) }
{
    if !has_more(rest) {
        return Ok(Node::File(*entry));
    }
    let mut dir = Dir::empty(alloc);
    place(alloc, &mut dir, rest, Node::File(*entry))?;
    Ok(Node::Opened(dir))
}

// Puts an entry where a search found none of its name.
fn put_new(
    alloc: Global,
    entries: &mut Entries,
    name: &[u8],
    rest: &Components<'_>,
    entry: &Entry,
    found: Found,
) -> Result<(), Memory>
    requires name { IsComponent name.now }
    requires ordered { AreOrdered (shape_of entries.old.items) }
    requires past { found ≡ Found.PastAll
        → IsPlaceAfter name.now entries.old.items (length entries.old.items) }
    ensures { OnOk result (shape_of entries.new.items
        ≡ inserted name.now (new_node rest.now (file_held entry.now)) (shape_of entries.old.items)) }
{
    let node = new_node(alloc, rest, entry)?;
    let name = Component::new(alloc, name)?;
    match found {
        Found::PastAll => append(alloc, entries, name, node),
        _ => insert(alloc, entries, name, node),
    }
}

// Puts a file in place of what stands at a place, and answers how many files that had.
#[tactic(auto, using(crate::proofs::Searched::ordered))]
fn put_over<N: Naming>(
    alloc: Global,
    objects: &Objects<'_, N>,
    entries: &mut Entries,
    at: usize,
    name: &[u8],
    rest: &Components<'_>,
    entry: &Entry,
) -> Result<usize, Memory>
    requires sound { IsShape objects.now (shape_of entries.old.items) }
    requires few { length (shape_files (stored_files objects.now)
        (shape_of entries.old.items)) ≤ files_limit }
    requires there { position (has_name name.now) entries.old.items ≡ Some at }
    ensures gone { IfOk result (λ gone. (h : Held)
        → child (shape_of entries.old.items) name.now ≡ Some h
        → gone ≡ length (held_files (stored_files objects.now) h)) }
    ensures entries { OnOk result (shape_of entries.new.items
        ≡ inserted name.now (new_node rest.now (file_held entry.now))
        (removed (shape_of entries.old.items) name.now)) }
{
    let gone = count(objects, &entries.at(at).1);
    put_instead(alloc, entries, at, name, new_node(alloc, rest, entry)?)?;
    Ok(gone)
}

/// Puts a file at a path below a directory, and answers how many files it took the place of. Takes
/// memory for the names on the way, and for the entries of the directories that it opens.
#[cycle(putting)]
#[tactic(auto, using(crate::proofs::Searched::ordered))]
pub(crate) fn put_along<N: Naming>(
    alloc: Global,
    objects: &Objects<'_, N>,
    dir: &mut Dir,
    path: &Components<'_>,
    entry: &Entry,
    reads: &mut u64,
) -> Result<usize, Memory>
    requires sound { IsShape objects.now dir.old.entries }
    requires few { length (shape_files (stored_files objects.now) dir.old.entries) ≤ files_limit }
    requires some { path.now ≢ [] }
    ensures puts { IfOk result (λ gone. PutsAlong objects.now path.now
        (file_held entry.now) dir.old dir.new gone) }
    ensures reads { ReadsMore reads.old reads.new (closed_along dir.old.entries path.now) }
{
    let Some((name, rest)) = path.split_first() else {
        return Ok(0);
    };
    has_components(path);
    dir.tree = None;
    let found = find(&dir.entries, name);
    let Found::At(at) = found else {
        put_new(alloc, &mut dir.entries, name, &rest, entry, found)?;
        return Ok(0);
    };
    if leads_into(&dir.entries.at(at).1, &rest) {
        return put_inside(
            alloc,
            objects,
            dir.entries.node_mut(at),
            &rest,
            entry,
            reads,
        );
    }
    put_over(alloc, objects, &mut dir.entries, at, name, &rest, entry)
}

/// Puts a file at a path below a node that is a directory.
#[cycle(putting)]
pub(crate) fn put_inside<N: Naming>(
    alloc: Global,
    objects: &Objects<'_, N>,
    node: &mut Node,
    rest: &Components<'_>,
    entry: &Entry,
    reads: &mut u64,
) -> Result<usize, Memory>
    requires directory { IsDirectory (held node.old).what }
    requires sound { IsHeld objects.now (held node.old) }
    requires few { length (held_files (stored_files objects.now) (held node.old)) ≤ files_limit }
    requires some { rest.now ≢ [] }
    ensures puts { IfOk result (λ gone. PutsHeld objects.now rest.now
        (file_held entry.now) (held node.old) (held node.new) gone) }
    ensures reads { ReadsMore reads.old reads.new (closed_from (held node.old) rest.now) }
{
    match node {
        Node::File(_) => Ok(0),
        Node::Opened(dir) => put_along(alloc, objects, dir, rest, entry, reads),
        Node::Unopened(_) => put_unopened(alloc, objects, node, rest, entry, reads),
    }
}

// Opens a directory that is not opened yet, and puts a file at a path below it. It is kept apart, so
// that a walk over opened directories makes no room for a new one.
#[cycle(putting)]
#[inline(never)]
fn put_unopened<N: Naming>(
    alloc: Global,
    objects: &Objects<'_, N>,
    node: &mut Node,
    rest: &Components<'_>,
    entry: &Entry,
    reads: &mut u64,
) -> Result<usize, Memory>
    requires directory { IsDirectory (held node.old).what }
    requires unopened { is_opened (held node.old).what ≡ false }
    requires sound { IsHeld objects.now (held node.old) }
    requires few { length (held_files (stored_files objects.now) (held node.old)) ≤ files_limit }
    requires some { rest.now ≢ [] }
    ensures puts { IfOk result (λ gone. PutsHeld objects.now rest.now
        (file_held entry.now) (held node.old) (held node.new) gone) }
    ensures reads { ReadsMore reads.old reads.new (closed_from (held node.old) rest.now) }
{
    match node {
        Node::Unopened(id) => {
            *reads = reads.saturating_add(1);
            let mut dir = open(alloc, objects, id)?;
            let gone = put_along(alloc, objects, &mut dir, rest, entry, reads)?;
            *node = Node::Opened(dir);
            Ok(gone)
        }
        Node::File(_) => Ok(0),
        Node::Opened(_) => Ok(0),
    }
}
