//! Copies of nodes. A directory that is a stored tree is copied by the name of that tree.

ghost use Rattle.std.specs.{Prelude.{◌≡◌, Some, IfOk}, Option.{option_map}};
ghost use Rattle.tree_build.specs.{Shape.{opened}, Nodes.{held, shape_of}, Searches.{AreOrdered}};
ghost use Rattle.tree_build.specs.{Editing.{child}, Moving.{standing, copied_shape, copied_held}};

use crate::dir::{Dir, Entries, Node};
use crate::names::place_of;
use git_objects::Memory;
use git_paths::Components;
use std::alloc::Global;

// A copy of a node. Takes memory for the entries of edited directories.
#[cycle(copying)]
fn copied(alloc: Global, node: &Node) -> Result<Node, Memory>
    ensures { IfOk result (λ copy. held copy ≡ copied_held (held node.now)) }
{
    match node {
        Node::File(file) => Ok(Node::File(*file)),
        Node::Unopened(tree) => Ok(Node::Unopened(*tree)),
        Node::Opened(dir) => copied_dir(alloc, dir),
    }
}

#[cycle(copying)]
fn copied_dir(alloc: Global, dir: &Dir) -> Result<Node, Memory>
    ensures { IfOk result (λ copy. held copy ≡ copied_held
        (record { what = opened dir.now.tree; inside = dir.now.entries })) }
{
    let tree = dir.tree;
    match tree {
        Some(tree) => Ok(Node::Unopened(tree)),
        None => {
            let entries = copied_entries(alloc, &dir.entries)?;
            Ok(Node::Opened(Dir {
                entries,
                tree,
                place: dir.place,
            }))
        }
    }
}

#[cycle(copying)]
fn copied_entries(alloc: Global, entries: &Entries) -> Result<Entries, Memory>
    ensures { IfOk result (λ copies. shape_of copies.items
        ≡ copied_shape (shape_of entries.now.items)) }
{
    let mut copies = Entries::with_capacity(alloc, entries.len())?;
    for place in 0..entries.len() {
        let entry = entries.at(place);
        copies.push(alloc, (entry.0.copied(alloc)?, copied(alloc, &entry.1)?))?;
    }
    Ok(copies)
}

/// The node at a path below another. The caller has opened the directories on the way.
#[cycle(finding)]
pub(crate) fn find_at<'a>(node: &'a Node, path: &Components<'_>) -> Option<&'a Node>
    requires { AreOrdered (held node.now).inside }
    ensures { option_map (λ n. held n.now) result ≡ standing path.now (Some (held node.now)) }
{
    let Some((name, rest)) = path.split_first() else {
        return Some(node);
    };
    match node {
        Node::Opened(dir) => find_below(&dir.entries, name, &rest),
        _ => None,
    }
}

#[cycle(finding)]
fn find_below<'a>(entries: &'a Entries, name: &[u8], rest: &Components<'_>) -> Option<&'a Node>
    requires { AreOrdered (shape_of entries.now.items) }
    ensures { option_map (λ n. held n.now) result
        ≡ standing rest.now (child (shape_of entries.now.items) name.now) }
{
    match place_of(entries, name) {
        Some(place) => find_at(&entries.at(place).1, rest),
        None => None,
    }
}

/// A copy of the node at a path below another. The caller has opened the directories on the way.
/// Takes memory for the entries of edited directories.
pub(crate) fn copy_at(
    alloc: Global,
    node: &Node,
    path: &Components<'_>,
) -> Result<Option<Node>, Memory>
    requires { AreOrdered (held node.now).inside }
    ensures { IfOk result (λ copy. option_map held copy
        ≡ option_map copied_held (standing path.now (Some (held node.now)))) }
{
    match find_at(node, path) {
        Some(found) => Ok(Some(copied(alloc, found)?)),
        None => Ok(None),
    }
}
