//! Putting a node at a path of an opened directory.
//!
//! The files that were at the path, below it, or at a prefix of it are removed. The caller has
//! opened the directories on the way.

ghost use Rattle.std.specs.Prelude.{◌≡◌, ◌≢◌, [], true, false, position, None, OnOk, MatchOption};
ghost use Rattle.git_paths.specs.Paths.{IsComponent};
ghost use Rattle.tree_build.specs.{Nodes.{held, shape_of, has_name}, Searches.{AreOrdered}};
ghost use Rattle.tree_build.specs.Editing.{child, removed, inserted, new_directory, has_opened};
ghost use Rattle.tree_build.specs.Editing.{is_opened, entries_in, put_next, placed};

use crate::component::{Component, has_components};
use crate::dir::{Dir, Entries, Node};
use crate::names::{insert, order_mode, place_of};
use git_objects::Memory;
use git_paths::Components;
use std::alloc::Global;

/// Replaces the node of the entry at a place.
pub(crate) fn put_instead(
    alloc: Global,
    entries: &mut Entries,
    at: usize,
    name: &[u8],
    node: Node,
) -> Result<(), Memory>
    requires ordered { AreOrdered (shape_of entries.old.items) }
    requires there { position (has_name name.now) entries.old.items ≡ Some at }
    ensures { OnOk result (shape_of entries.new.items
        ≡ inserted name.now (held node) (removed (shape_of entries.old.items) name.now)) }
{
    if order_mode(&entries.at(at).1) == order_mode(&node) {
        *entries.node_mut(at) = node;
        return Ok(());
    }
    let (owned, _) = entries.remove(at);
    insert(alloc, entries, owned, node)
}

// Puts an entry, in place of the one of the same name if there is one.
fn put_entry(alloc: Global, entries: &mut Entries, name: &[u8], node: Node) -> Result<(), Memory>
    requires name { IsComponent name.now }
    requires ordered { AreOrdered (shape_of entries.old.items) }
    ensures { OnOk result (shape_of entries.new.items
        ≡ inserted name.now (held node) (removed (shape_of entries.old.items) name.now)) }
{
    match place_of(entries, name) {
        Some(at) => put_instead(alloc, entries, at, name, node),
        None => insert(alloc, entries, Component::new(alloc, name)?, node),
    }
}

// The place of the entry of a name, if it is an opened directory.
fn opened_place(entries: &Entries, name: &[u8]) -> Option<usize>
    requires { AreOrdered (shape_of entries.now.items) }
    ensures { MatchOption result (has_opened (child (shape_of entries.now.items) name.now) ≡ false)
        (λ at. (position (has_name name.now) entries.now.items ≡ Some at)
        × (has_opened (child (shape_of entries.now.items) name.now) ≡ true)) }
{
    match place_of(entries, name) {
        Some(at) => match &entries.at(at).1 {
            Node::Opened(_) => Some(at),
            _ => None,
        },
        None => None,
    }
}

/// Puts a node at a path below a directory. Takes memory for the names on the way.
#[cycle(placing)]
pub(crate) fn place(
    alloc: Global,
    dir: &mut Dir,
    path: &Components<'_>,
    node: Node,
) -> Result<(), Memory>
    requires { AreOrdered dir.old.entries }
    ensures entries { OnOk result (dir.new.entries ≡ placed path.now (held node) dir.old.entries) }
    ensures tree { OnOk result (path.now ≢ [] → dir.new.tree ≡ None) }
{
    let Some((name, rest)) = path.split_first() else {
        return Ok(());
    };
    has_components(path);
    dir.tree = None;
    match rest.split_first() {
        Some(_) => place_below(alloc, &mut dir.entries, name, &rest, node),
        None => put_entry(alloc, &mut dir.entries, name, node),
    }
}

// Puts a node at the path of `name` and then `rest`.
#[cycle(placing)]
fn place_below(
    alloc: Global,
    entries: &mut Entries,
    name: &[u8],
    rest: &Components<'_>,
    node: Node,
) -> Result<(), Memory>
    requires name { IsComponent name.now }
    requires ordered { AreOrdered (shape_of entries.old.items) }
    requires rest { rest.now ≢ [] }
    ensures { OnOk result (shape_of entries.new.items
        ≡ put_next (shape_of entries.old.items) name.now rest.now (held node)
        (placed rest.now (held node) (entries_in (child (shape_of entries.old.items) name.now)))) }
{
    match opened_place(entries, name) {
        Some(at) => place_inside(alloc, entries.node_mut(at), rest, node),
        None => {
            let mut below = Dir::empty(alloc);
            place(alloc, &mut below, rest, node)?;
            put_entry(alloc, entries, name, Node::Opened(below))
        }
    }
}

// Puts a node at a path below an opened directory.
#[cycle(placing)]
fn place_inside(
    alloc: Global,
    at: &mut Node,
    rest: &Components<'_>,
    node: Node,
) -> Result<(), Memory>
    requires opened { is_opened (held at.old).what ≡ true }
    requires ordered { AreOrdered (held at.old).inside }
    requires rest { rest.now ≢ [] }
    ensures { OnOk result (held at.new
        ≡ new_directory (placed rest.now (held node) (held at.old).inside)) }
{
    match at {
        Node::Opened(dir) => place(alloc, dir, rest, node),
        _ => Ok(()),
    }
}
