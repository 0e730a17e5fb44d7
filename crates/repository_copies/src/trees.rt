//! The trees of a copy: git-write-tree(1).

ghost use Rattle.std.specs.Prelude.{◌≡◌, ◌<◌, ℕ, List, Some, IfOk, IfSome, IsSome, OnOk, length};
ghost use Rattle.git_model.specs.{GoodRepository.{AreObjects}, References.{kind_named, place_of}};
ghost use Rattle.git_model.specs.StoredPath.{entries_of as stored_entries};
ghost use Rattle.git_model.specs.Tree.{TreeEntry as Entry, CanWriteTree, tree_contents};
ghost use Rattle.git_objects.specs.Parts.{entries_of};
ghost use Rattle.export_laws.specs.Order.{AreWhole, trees_of};
ghost use Rattle.repository_copies.specs.Found.{Adds, AreFound, found_objects};
ghost use Rattle.git_model.specs.declared.file_mode.FileMode.TheVariants as mode;
ghost use Rattle.git_model.specs.declared.kind.Kind.TheVariants as kind;

use crate::found::Found;
use git_objects::{FileMode, Memory, Naming, TreeEntry, read_tree};
use std::alloc::Global;
use tenant_tables::Objects;

fn entries_in(alloc: Global, contents: &[u8]) -> Result<Vec<TreeEntry<'_>>, Memory>
    ensures { (es : List Entry) → CanWriteTree es → contents.now ≡ tree_contents es
        → IfOk result (λ found. entries_of found.items ≡ es) }
{
    match read_tree(alloc, contents)? {
        Some(entries) => Ok(entries),
        None => Ok(Vec::new(alloc)),
    }
}

// The direct entries of the tree at a place.
fn entries_at<'a, N: Naming>(
    alloc: Global,
    objects: &Objects<'a, N>,
    place: usize,
) -> Result<Vec<TreeEntry<'a>>, Memory>
    ensures { AreObjects N.digest_of objects.now → (tree : List ℕ)
        → kind_named tree objects.now ≡ Some kind.Tree → place_of tree objects.now ≡ place
        → IfOk result (λ found. entries_of found.items ≡ stored_entries objects.now tree) }
{
    match objects.at(place) {
        Some((_, _, contents)) => entries_in(alloc, contents),
        None => Ok(Vec::new(alloc)),
    }
}

// The place of the tree of a directory, if it stands before the given place. In a good repository
// it stands before the tree that has the directory.
fn place_below<N: Naming>(
    objects: &Objects<'_, N>,
    place: usize,
    entry: &TreeEntry<'_>,
) -> Option<usize>
    ensures before { IfSome result (λ below. below < place) }
    ensures found { IfSome result (λ below. (entry.now.mode ≡ mode.Directory)
        × (place_of entry.now.id objects.now ≡ below)) }
    ensures none { place < length objects.now → entry.now.mode ≡ mode.Directory
        → place_of entry.now.id objects.now < place → IsSome result }
{
    match entry.mode {
        FileMode::Directory => match objects.place(&entry.id) {
            Some(below) if below < place => Some(below),
            _ => None,
        },
        _ => None,
    }
}

/// Adds a tree, given by its place, and the trees of all directories below it: each after those of
/// its directories, in the order of its entries, and unless it is there.
///
/// `Memory` (90) if there is no memory to read a tree or for a place.
pub fn add_trees<N: Naming>(
    alloc: Global,
    objects: &Objects<'_, N>,
    place: usize,
    found: &mut Found,
) -> Result<(), Memory>
    ensures { AreObjects N.digest_of objects.now → (tree : List ℕ)
        → kind_named tree objects.now ≡ Some kind.Tree → place_of tree objects.now ≡ place
        → AreFound objects.now found.old → AreWhole objects.now (found_objects objects.now found.old)
        → OnOk result (Adds objects.now (trees_of objects.now tree) found.old found.new) }
{
    if found.has(place) {
        return Ok(());
    }
    let entries = entries_at(alloc, objects, place)?;
    for entry in &entries {
        match place_below(objects, place, entry) {
            Some(below) => add_trees(alloc, objects, below, found)?,
            None => {}
        }
    }
    found.add(place)
}
