//! The contents of a tree.

ghost use Rattle.std.specs.Prelude.{◌≡◌, IfOk};
ghost use Rattle.git_objects.specs.Parts.{entries_of};
ghost use Rattle.git_model.specs.Tree.{tree_contents};

use git_objects::{Memory, TreeEntry, mode_digits, write_tree};
use std::alloc::Global;

// How many bytes an entry takes: its mode, a space, its name, a NUL, and the name of its object.
fn size_of_entry(entry: &TreeEntry<'_>) -> usize {
    let beside_name = mode_digits(entry.mode).len().saturating_add(22);
    entry.name.len().saturating_add(beside_name)
}

// How many bytes the contents of a tree take, so that they are written into one allocation.
fn size_of(entries: &[TreeEntry<'_>]) -> usize {
    let mut size: usize = 0;
    for entry in entries {
        size = size.saturating_add(size_of_entry(entry));
    }
    size
}

/// The contents of the tree with these entries, in this order, in an allocation of exactly their
/// size. `Memory` (90) is the only refusal.
pub fn contents_of(alloc: Global, entries: &[TreeEntry<'_>]) -> Result<Vec<u8>, Memory>
    ensures { IfOk result (λ v. v.items ≡ tree_contents (entries_of entries.now)) }
{
    let mut contents = Vec::with_capacity(alloc, size_of(entries))?;
    write_tree(entries, &mut contents)?;
    Ok(contents)
}
