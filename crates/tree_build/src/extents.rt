//! How many files are at or below a node, how deep they are, and how long their paths are.
//!
//! This is known for a stored tree, so only edited directories are walked.

ghost use Rattle.std.specs.Prelude.{◌≡◌, [], ◌∷◌};
ghost use Rattle.file_maps.specs.{Edits.{moved}, Storable.{files_summary}};
ghost use Rattle.file_maps.specs.StoredFiles.{stored_files};
ghost use Rattle.tree_build.specs.{Shape.{opened, shape_files, held_files}, Nodes.{held, shape_of}};
ghost use Rattle.tree_build.specs.{Branch.{IsShape, IsHeld}, Sums.{IsSmall}};

use crate::dir::{Dir, Entries, Node};
use crate::sums::{below, both, no_files, one_file};
use git_objects::Naming;
use tenant_tables::{Objects, Summary};

// The summary of a node that is a file, by the path from the node.
fn file_here() -> Summary
    ensures { result ≡ record { files = 1; depth = 0; longest = 0 } }
{
    Summary {
        files: 1,
        depth: 0,
        longest: 0,
    }
}

/// The summary of the files at or below a node.
#[cycle(measuring)]
pub(crate) fn extent<N: Naming>(objects: &Objects<'_, N>, node: &Node) -> Summary
    requires sound { IsHeld objects.now (held node.now) }
    requires small { IsSmall (files_summary (held_files
        (stored_files objects.now) (held node.now))) }
    ensures { result ≡ files_summary (held_files (stored_files objects.now) (held node.now)) }
{
    match node {
        Node::File(_) => file_here(),
        Node::Unopened(tree) => objects.summary(tree).unwrap_or(no_files()),
        Node::Opened(dir) => extent_of_dir(objects, dir),
    }
}

// A directory that is a stored tree is not walked.
#[cycle(measuring)]
fn extent_of_dir<N: Naming>(objects: &Objects<'_, N>, dir: &Dir) -> Summary
    requires sound { IsHeld objects.now
        (record { what = opened dir.now.tree; inside = dir.now.entries }) }
    requires small { IsSmall (files_summary (shape_files
        (stored_files objects.now) dir.now.entries)) }
    ensures { result ≡ files_summary (shape_files (stored_files objects.now) dir.now.entries) }
{
    match dir.tree {
        Some(tree) => objects.summary(&tree).unwrap_or(no_files()),
        None => extent_of_all(objects, &dir.entries),
    }
}

#[cycle(measuring)]
fn extent_of_all<N: Naming>(objects: &Objects<'_, N>, entries: &Entries) -> Summary
    requires sound { IsShape objects.now (shape_of entries.now.items) }
    requires small { IsSmall (files_summary (shape_files
        (stored_files objects.now) (shape_of entries.now.items))) }
    ensures { result ≡ files_summary (shape_files
        (stored_files objects.now) (shape_of entries.now.items)) }
{
    let mut sum = no_files();
    for place in 0..entries.len() {
        let entry = entries.at(place);
        sum = both(sum, extent_under(objects, entry.0.as_bytes(), &entry.1));
    }
    sum
}

// The summary of the files at or below an entry, by their paths from the directory that has the
// entry.
#[cycle(measuring)]
fn extent_under<N: Naming>(objects: &Objects<'_, N>, name: &[u8], node: &Node) -> Summary
    requires sound { IsHeld objects.now (held node.now) }
    requires small { IsSmall (files_summary (moved (name.now ∷ []) (held_files
        (stored_files objects.now) (held node.now)))) }
    ensures { result ≡ files_summary (moved (name.now ∷ []) (held_files
        (stored_files objects.now) (held node.now))) }
{
    match node {
        Node::File(_) => one_file(name),
        _ => below(name, extent(objects, node)),
    }
}
