//! The entries of an opened directory: in Git's order, with distinct names.
//!
//! A stream lists its files in this order, so the entry of a name is mostly the last one, or a new
//! one goes after it: the last entry is looked at first. Any other name is found by binary search:
//! first as the name of a directory, which Git's order ends with a slash, and then as that of a
//! file.

ghost use Rattle.std.specs.Prelude.{◌≡◌, ◌≤◌, ◌<◌, ◌-◌, ◌++◌, length, position, true, false, Some};
ghost use Rattle.std.specs.{Prelude.{OnOk, MatchOption}, Option.{option_map}};
ghost use Rattle.git_model.specs.Tree.{order_key, slash_of};
ghost use Rattle.git_objects.specs.Parts.{entry_of};
ghost use Rattle.tree_build.specs.{Branch.{slash_after}, Editing.{child, inserted, removed}};
ghost use Rattle.tree_build.specs.{Nodes.{held, shape_of, has_name}, Searches.{place_found}};
ghost use Rattle.tree_build.specs.Searches.{AreOrdered, is_after, IsPlaceAfter, IsNotLast, HasNone};

use crate::component::Component;
use crate::dir::{Entries, Node};
use git_objects::{FileMode, Memory, Name, TreeEntry};
use std::alloc::Global;

// An entry of this name and mode, to compare with others in Git's order.
fn ordered(name: &[u8], mode: FileMode) -> TreeEntry<'_>
    ensures { order_key (entry_of result) ≡ name.now ++ slash_of mode }
{
    let id = Name::from_bytes([0; 20]);
    TreeEntry { mode, name, id }
}

/// The mode by which Git's order places a node: that of a file or of a directory.
pub(crate) fn order_mode(node: &Node) -> FileMode
    ensures { slash_of result ≡ slash_after (held node.now).what }
{
    match node {
        Node::File(_) => FileMode::Regular,
        _ => FileMode::Directory,
    }
}

fn comes_before(entry: &TreeEntry<'_>, other: &(Component, Node)) -> bool
    ensures { result ≡ is_after (order_key (entry_of entry.now)) other.now }
{
    let node = order_mode(&other.1);
    entry.order(&ordered(other.0.as_bytes(), node)).is_lt()
}

fn is_named(entry: &(Component, Node), name: &[u8]) -> bool
    ensures { result ≡ has_name name.now entry.now }
{
    entry.0.as_bytes() == name
}

// Whether the last entry has a name.
fn is_last(entries: &Entries, name: &[u8]) -> bool
    requires { AreOrdered (shape_of entries.now.items) }
    ensures last { result ≡ true
        → position (has_name name.now) entries.now.items ≡ Some (length entries.now.items - 1) }
    ensures some { result ≡ true → 0 < length entries.now.items }
    ensures other { result ≡ false → IsNotLast name.now entries.now.items }
{
    let count = entries.len();
    if count == 0 {
        return false;
    }
    is_named(entries.at(count - 1), name)
}

// Whether no entry comes after `entry` in Git's order.
fn is_past_all(entries: &Entries, entry: &TreeEntry<'_>) -> bool
    requires { AreOrdered (shape_of entries.now.items) }
    ensures { result ≡ true
        → IsPlaceAfter (order_key (entry_of entry.now)) entries.now.items
        (length entries.now.items) }
{
    let count = entries.len();
    if count == 0 {
        return true;
    }
    !comes_before(entry, entries.at(count - 1))
}

// The place from which on all entries come after `entry` in Git's order, by binary search. None
// before it does.
fn place_by_halves(entries: &Entries, entry: &TreeEntry<'_>) -> usize
    ensures within { result ≤ length entries.now.items }
    ensures point { AreOrdered (shape_of entries.now.items)
        → IsPlaceAfter (order_key (entry_of entry.now)) entries.now.items result }
{
    let mut low = 0;
    let mut high = entries.len();
    while low < high {
        let middle = low + (high - low) / 2;
        if comes_before(entry, entries.at(middle)) {
            high = middle;
        } else {
            low = middle + 1;
        }
    }
    low
}

// The same place. The last entry is looked at first.
fn place_after(entries: &Entries, entry: &TreeEntry<'_>) -> usize
    requires { AreOrdered (shape_of entries.now.items) }
    ensures within { result ≤ length entries.now.items }
    ensures point { IsPlaceAfter (order_key (entry_of entry.now)) entries.now.items result }
{
    if is_past_all(entries, entry) {
        return entries.len();
    }
    place_by_halves(entries, entry)
}

// The place of the entry of a name, if a new entry of this name and mode would come right after it.
// An entry of this name and mode is always found.
fn place_before(entries: &Entries, name: &[u8], mode: FileMode) -> Option<usize>
    requires { AreOrdered (shape_of entries.now.items) }
    ensures { MatchOption result (HasNone name.now (slash_of mode) entries.now.items)
        (λ at. position (has_name name.now) entries.now.items ≡ Some at) }
{
    let next = place_by_halves(entries, &ordered(name, mode));
    if next == 0 {
        return None;
    }
    let at = next - 1;
    if is_named(entries.at(at), name) {
        Some(at)
    } else {
        None
    }
}

// The place of the entry of a name, whatever its mode.
fn place_by_search(entries: &Entries, name: &[u8]) -> Option<usize>
    requires { AreOrdered (shape_of entries.now.items) }
    ensures { result ≡ position (has_name name.now) entries.now.items }
{
    match place_before(entries, name, FileMode::Directory) {
        Some(at) => Some(at),
        None => place_before(entries, name, FileMode::Regular),
    }
}

/// What a search for the entry of a name finds.
#[derive(Clone, Copy)]
pub(crate) enum Found {
    /// The entry is at this place.
    At(usize),
    /// There is none, and no entry comes after a file of this name in Git's order.
    PastAll,
    /// There is none.
    Absent,
}

/// Looks for the entry of a name.
pub(crate) fn find(entries: &Entries, name: &[u8]) -> Found
    requires { AreOrdered (shape_of entries.now.items) }
    ensures place { place_found result ≡ position (has_name name.now) entries.now.items }
    ensures past { result ≡ Found.PastAll
        → IsPlaceAfter name.now entries.now.items (length entries.now.items) }
{
    if is_last(entries, name) {
        return Found::At(entries.len() - 1);
    }
    if is_past_all(entries, &ordered(name, FileMode::Regular)) {
        return Found::PastAll;
    }
    match place_by_search(entries, name) {
        Some(at) => Found::At(at),
        None => Found::Absent,
    }
}

/// The place of the entry of a name.
pub(crate) fn place_of(entries: &Entries, name: &[u8]) -> Option<usize>
    requires { AreOrdered (shape_of entries.now.items) }
    ensures { result ≡ position (has_name name.now) entries.now.items }
{
    match find(entries, name) {
        Found::At(at) => Some(at),
        Found::PastAll => None,
        Found::Absent => None,
    }
}

/// The node of a directory's name, as a guess: among entries that are not in order it may be
/// overlooked.
pub(crate) fn node_like<'a>(entries: &'a Entries, name: &[u8]) -> Option<&'a Node> {
    let directory = ordered(name, FileMode::Directory);
    let next = place_by_halves(entries, &directory);
    if next == 0 {
        return None;
    }
    let entry = entries.at(next - 1);
    if is_named(entry, name) {
        Some(&entry.1)
    } else {
        None
    }
}

/// Puts an entry in its place among others. Takes memory for it.
pub(crate) fn insert(
    alloc: Global,
    entries: &mut Entries,
    name: Component,
    node: Node,
) -> Result<(), Memory>
    requires { AreOrdered (shape_of entries.old.items) }
    ensures { OnOk result (shape_of entries.new.items
        ≡ inserted name (held node) (shape_of entries.old.items)) }
{
    let place = place_after(entries, &ordered(name.as_bytes(), order_mode(&node)));
    entries.insert(alloc, place, (name, node))
}

/// Puts an entry after all others, where none comes after a file of its name. Takes memory for it.
pub(crate) fn append(
    alloc: Global,
    entries: &mut Entries,
    name: Component,
    node: Node,
) -> Result<(), Memory>
    requires { IsPlaceAfter name entries.old.items (length entries.old.items) }
    ensures { OnOk result (shape_of entries.new.items
        ≡ inserted name (held node) (shape_of entries.old.items)) }
{
    entries.push(alloc, (name, node))
}

/// Takes out the entry of a name, if there is one, and answers its node.
pub(crate) fn remove(entries: &mut Entries, name: &[u8]) -> Option<Node>
    requires { AreOrdered (shape_of entries.old.items) }
    ensures entries { shape_of entries.new.items ≡ removed (shape_of entries.old.items) name.now }
    ensures node { option_map held result ≡ child (shape_of entries.old.items) name.now }
{
    match place_of(entries, name) {
        Some(place) => Some(entries.remove(place).1),
        None => None,
    }
}
