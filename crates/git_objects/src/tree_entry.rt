//! A direct entry of a tree, and the order in which Git lists entries.

ghost use Rattle.std.specs.Prelude.{◌≡◌, ◌↔◌, ◌++◌, min, length, slice_get, IsTrue};
ghost use Rattle.std.specs.{Ordering.{nat_cmp}, Cmp.Lexicographic.{slice_cmp}};
ghost use Rattle.git_model.specs.Tree.{IsEntryName, slash_of, tree_cmp};
ghost use Rattle.git_objects.specs.Parts.{entry_of};

use git_model::FileMode;
use git_names::Name;
use git_paths::is_component;
use std::cmp::Ordering;

/// A direct entry of a tree. Its name is borrowed, for example from the contents that were read.
#[derive(Clone, Copy)]
pub struct TreeEntry<'a> {
    /// The mode, which says what the entry is.
    pub mode: FileMode,
    /// The entry's name: one component of a path, without a slash. Any text without a NUL where only
    /// `look_tree` reads the tree.
    pub name: &'a [u8],
    /// The name of the entry's object, or the commit of a gitlink.
    pub id: Name,
}

/// Whether a tree entry may have this name: it is not empty, `.` or `..`, and contains no NUL and
/// no slash. Takes no memory.
pub fn is_entry_name(name: &[u8]) -> bool
    ensures { IsTrue result ↔ IsEntryName name.now }
{
    is_component(name)
}

fn slash_of(mode: FileMode) -> &'static [u8]
    ensures { result.now ≡ slash_of mode }
{
    match mode {
        FileMode::Directory => b"/",
        _ => b"",
    }
}

// The byte that an entry is compared by after the front of its name: the next byte of the name, or
// the slash after a directory's name.
fn next_byte(rest: &[u8], mode: FileMode) -> Option<u8>
    ensures { result ≡ slice_get (rest.now ++ slash_of mode) 0 }
{
    match rest {
        [first, ..] => Some(*first),
        _ => match mode {
            FileMode::Directory => Some(b'/'),
            _ => None,
        },
    }
}

// How entries compare of whose names the same front was taken, as long as the shorter name.
fn order_of_rests(rest: &[u8], mode: FileMode, other: &[u8], other_mode: FileMode) -> Ordering
    requires { min (length rest.now) (length other.now) ≡ 0 }
    ensures { result ≡ slice_cmp nat_cmp (rest.now ++ slash_of mode)
        (other.now ++ slash_of other_mode) }
{
    let found = next_byte(rest, mode).cmp(&next_byte(other, other_mode));
    if found.is_ne() {
        return found;
    }
    let own_len = rest.len() + slash_of(mode).len();
    let other_len = other.len() + slash_of(other_mode).len();
    own_len.cmp(&other_len)
}

impl TreeEntry<'_> {
    /// Git's order of tree entries: by the bytes of their names, a directory compared as if its
    /// name ended in a slash. Takes no memory.
    pub fn order(&self, other: &TreeEntry<'_>) -> Ordering
        ensures { result ≡ tree_cmp (entry_of self.now) (entry_of other.now) }
    {
        let common = self.name.len().min(other.name.len());
        let (own, others) = (self.name.split_at(common), other.name.split_at(common));
        let found = own.0.cmp(others.0);
        if found.is_ne() {
            return found;
        }
        order_of_rests(own.1, self.mode, others.1, other.mode)
    }
}
