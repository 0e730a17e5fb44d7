//! Taking out what is at a path of an opened directory.
//!
//! A directory that loses its last file is removed from its parent. The caller has opened the
//! directories on the way.

ghost use Rattle.std.specs.{Prelude.{◌≡◌, ◌≢◌, [], Some, None, if◌then◌else◌}, Option.{option_map}};
ghost use Rattle.tree_build.specs.{Shape.{opened}, Nodes.{held, shape_of}, Searches.{AreOrdered}};
ghost use Rattle.tree_build.specs.Editing.{child, entries_in, left, put_back, dropped};
ghost use Rattle.tree_build.specs.Moving.{standing, rest_of};

use crate::dir::{Dir, Entries, Node};
use crate::names::{place_of, remove};
use git_paths::Components;
use std::alloc::Global;
use std::mem;

/// Takes out what is at or below a path of a directory and, if `clear`, a file at a prefix of the
/// path. Answers what was at the path.
#[cycle(dropping)]
pub(crate) fn take_at(dir: &mut Dir, path: &Components<'_>, clear: bool) -> Option<Node>
    requires { AreOrdered dir.old.entries }
    ensures entries { dir.new.entries ≡ dropped clear path.now dir.old.entries }
    ensures tree { path.now ≢ [] → dir.new.tree ≡ None }
    ensures node { path.now ≢ [] → option_map held result ≡ standing path.now
        (Some (record { what = opened dir.old.tree; inside = dir.old.entries })) }
{
    let Some((name, rest)) = path.split_first() else {
        return None;
    };
    dir.tree = None;
    take_below(&mut dir.entries, name, &rest, clear)
}

// The same at the path of `name` and then `rest`.
#[cycle(dropping)]
fn take_below(
    entries: &mut Entries,
    name: &[u8],
    rest: &Components<'_>,
    clear: bool,
) -> Option<Node>
    requires { AreOrdered (shape_of entries.old.items) }
    ensures entries { shape_of entries.new.items
        ≡ put_back (shape_of entries.old.items) name.now
        (left clear rest.now (child (shape_of entries.old.items) name.now)
        (dropped clear rest.now (entries_in (child (shape_of entries.old.items) name.now)))) }
    ensures node { option_map held result
        ≡ standing rest.now (child (shape_of entries.old.items) name.now) }
{
    if rest.len() == 0 {
        return remove(entries, name);
    }
    let Some(at) = place_of(entries, name) else {
        return None;
    };
    let (taken, goes) = take_inside(entries.node_mut(at), rest, clear);
    if goes {
        entries.remove(at);
    }
    taken
}

// The same at a path below a node. Says whether nothing is left of the node.
#[cycle(dropping)]
fn take_inside(node: &mut Node, rest: &Components<'_>, clear: bool) -> (Option<Node>, bool)
    requires ordered { AreOrdered (held node.old).inside }
    requires rest { rest.now ≢ [] }
    ensures left { left clear rest.now (Some (held node.old))
        (dropped clear rest.now (entries_in (Some (held node.old))))
        ≡ (if result.1 then None else Some (held node.new)) }
    ensures node { option_map held result.0 ≡ standing rest.now (Some (held node.old)) }
{
    match node {
        Node::File(_) => (None, clear),
        Node::Unopened(_) => (None, false),
        Node::Opened(dir) => {
            let taken = take_at(dir, rest, clear);
            (taken, dir.is_empty())
        }
    }
}

/// Takes out what is at a path of the root. At the empty path that is the root itself, and a
/// directory without entries takes its place.
pub(crate) fn take_from(alloc: Global, root: &mut Node, path: &Components<'_>) -> Option<Node>
    requires { AreOrdered (held root.old).inside }
    ensures rest { held root.new ≡ rest_of path.now (held root.old) }
    ensures node { option_map held result ≡ standing path.now (Some (held root.old)) }
{
    let Some(_) = path.split_first() else {
        let nothing = Node::Opened(Dir::empty(alloc));
        return Some(mem::replace(root, nothing));
    };
    match root {
        Node::Opened(dir) => take_at(dir, path, false),
        _ => None,
    }
}
