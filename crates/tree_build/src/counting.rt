//! How many files are below a node. The number is known for an unopened directory.

ghost use Rattle.std.specs.Prelude.{◌≡◌, ◌≤◌, length, Some};
ghost use Rattle.git_model.specs.Limits.{files_limit};
ghost use Rattle.file_maps.specs.{StoredFiles.{stored_files}, PlainTrees.{ListsPlain}};
ghost use Rattle.tree_build.specs.{Shape.{shape_files, held_files}, Branch.{IsShape, IsHeld}};
ghost use Rattle.tree_build.specs.{Nodes.{held, shape_of}, Editing.{entries_in, taken, taken_at}};

use crate::dir::{Entries, Node};
use crate::names::place_of;
use git_objects::{Name, Naming};
use git_paths::Components;
use tenant_tables::Objects;

// How many files a stored tree has.
fn count_stored<N: Naming>(objects: &Objects<'_, N>, id: &Name) -> usize
    requires { ListsPlain objects.now id.now (stored_files objects.now id.now) }
    ensures { result ≡ length (stored_files objects.now id.now) }
{
    match objects.summary(id) {
        Some(summary) => summary.files as usize,
        None => 0,
    }
}

/// How many files are at or below a node.
#[cycle(counting)]
pub(crate) fn count<N: Naming>(objects: &Objects<'_, N>, node: &Node) -> usize
    requires sound { IsHeld objects.now (held node.now) }
    requires few { length (held_files (stored_files objects.now) (held node.now)) ≤ files_limit }
    ensures { result ≡ length (held_files (stored_files objects.now) (held node.now)) }
{
    match node {
        Node::File(_) => 1,
        Node::Unopened(id) => count_stored(objects, id),
        Node::Opened(dir) => count_all(objects, &dir.entries),
    }
}

#[cycle(counting)]
fn count_all<N: Naming>(objects: &Objects<'_, N>, entries: &Entries) -> usize
    requires sound { IsShape objects.now (shape_of entries.now.items) }
    requires few { length (shape_files (stored_files objects.now)
        (shape_of entries.now.items)) ≤ files_limit }
    ensures { result ≡ length (shape_files (stored_files objects.now)
        (shape_of entries.now.items)) }
{
    let mut files = 0;
    for place in 0..entries.len() {
        let entry = entries.at(place);
        files += count(objects, &entry.1);
    }
    files
}

/// How many files `take_at` takes out: those at or below a path of a directory and, if `clear`, a
/// file at a prefix of the path.
#[cycle(taking)]
#[tactic(auto, using(crate::proofs::Searched::ordered))]
pub(crate) fn taken<N: Naming>(
    objects: &Objects<'_, N>,
    entries: &Entries,
    path: &Components<'_>,
    clear: bool,
) -> usize
    requires sound { IsShape objects.now (shape_of entries.now.items) }
    requires few { length (shape_files (stored_files objects.now)
        (shape_of entries.now.items)) ≤ files_limit }
    ensures { result ≡ taken (stored_files objects.now) clear path.now
        (shape_of entries.now.items) }
{
    let Some((name, rest)) = path.split_first() else {
        return 0;
    };
    match place_of(entries, name) {
        Some(at) => taken_below(objects, &entries.at(at).1, &rest, clear),
        None => 0,
    }
}

#[cycle(taking)]
fn taken_below<N: Naming>(
    objects: &Objects<'_, N>,
    node: &Node,
    rest: &Components<'_>,
    clear: bool,
) -> usize
    requires sound { IsHeld objects.now (held node.now) }
    requires few { length (held_files (stored_files objects.now) (held node.now)) ≤ files_limit }
    ensures { let known = stored_files objects.now in
        result ≡ taken_at known clear rest.now (Some (held node.now))
        (taken known clear rest.now (entries_in (Some (held node.now)))) }
{
    if rest.len() == 0 {
        return count(objects, node);
    }
    match node {
        Node::File(_) => { if clear { 1 } else { 0 } }
        Node::Unopened(_) => 0,
        Node::Opened(dir) => taken(objects, &dir.entries, rest, clear),
    }
}
