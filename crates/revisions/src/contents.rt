//! What the contents of an object refer to. Contents that cannot be read are in no repository; for
//! them the answer is not specified.

ghost use Rattle.std.specs.{Prelude.{◌≡◌, find, slice_get, Some, IfOk}, Option.{option_map}};
ghost use Rattle.std.specs.Str.{bytes_eq};
ghost use Rattle.git_model.specs.{CommitReading.{commit_read}, TagReading.{tag_read}};
ghost use Rattle.git_model.specs.{TreeReading.{tree_read}, Readable.{IsReadable}};
ghost use Rattle.git_objects.specs.Parts.{entry_of, entries_of};

use commit_walk::first_parent_in;
use git_objects::{Kind, Memory, Name, TreeEntry, look_commit, look_tag, look_tree};
use std::alloc::Global;

/// The object that a tag points to.
pub(crate) fn target_in(contents: &[u8]) -> Option<Name>
    ensures { IsReadable Kind.Tag contents.now → result ≡ Some (tag_read contents.now).target }
{
    match look_tag(contents) {
        Some(parts) => Some(parts.target),
        None => None,
    }
}

/// The tree of a commit. `Memory` (90) where there is no room to read the commit.
pub(crate) fn tree_in(alloc: Global, contents: &[u8]) -> Result<Option<Name>, Memory>
    ensures { IsReadable Kind.Commit contents.now
        → IfOk result (λ r. r ≡ Some (commit_read contents.now).tree) }
{
    match look_commit(alloc, contents)? {
        Some(parts) => Ok(Some(parts.tree)),
        None => Ok(None),
    }
}

fn name_at(names: &[Name], position: usize) -> Option<Name>
    ensures { result ≡ slice_get names.now position }
{
    names.get(position).copied()
}

/// The parent of a commit at a position, counted from 0; `None` from the number of its parents on.
/// The first one is read without the others, since `~<n>` asks for it at each step. `Memory` (90)
/// where there is no room to read the commit.
pub(crate) fn parent_in(
    alloc: Global,
    contents: &[u8],
    position: usize,
) -> Result<Option<Name>, Memory>
    ensures { IsReadable Kind.Commit contents.now
        → IfOk result (λ r. r ≡ slice_get (commit_read contents.now).parents position) }
{
    if position == 0 {
        return Ok(first_parent_in(contents));
    }
    match look_commit(alloc, contents)? {
        Some(parts) => Ok(name_at(&parts.ancestors, position)),
        None => Ok(None),
    }
}

fn entry_named<'a>(entries: &[TreeEntry<'a>], name: &[u8]) -> Option<TreeEntry<'a>>
    ensures { option_map entry_of result
        ≡ find (λ inner. bytes_eq inner.name name.now) (entries_of entries.now) }
{
    entries.iter().find(|entry| entry.name == name).copied()
}

/// The direct entry of a tree that has this name. `Memory` (90) where there is no room to read the
/// tree.
pub(crate) fn entry_in<'a>(
    alloc: Global,
    contents: &'a [u8],
    name: &[u8],
) -> Result<Option<TreeEntry<'a>>, Memory>
    ensures { IsReadable Kind.Tree contents.now
        → IfOk result (λ r. option_map entry_of r
        ≡ find (λ inner. bytes_eq inner.name name.now) (tree_read contents.now)) }
{
    match look_tree(alloc, contents)? {
        Some(entries) => Ok(entry_named(&entries, name)),
        None => Ok(None),
    }
}
