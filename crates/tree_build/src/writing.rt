//! The contents of the tree of an opened directory, written from its entries.

ghost use Rattle.std.specs.{Prelude.{◌≡◌, ◌++◌, IfOk, OnOk}, List.{AllByRecursion}};
ghost use Rattle.git_model.specs.{ObjectName.{IsObjectName}, Tree.{entry_text, tree_contents}};
ghost use Rattle.git_objects.specs.Parts.{entry_of};
ghost use Rattle.tree_build.specs.{Chunks.{all}, Nodes.{held, shape_of}};
ghost use Rattle.tree_build.specs.Stores.{IsNamed, AreNamed, entry_of_what, entries_of_shape};

use crate::component::Component;
use crate::dir::{Chunk, Node};
use crate::storing::row_of;
use git_objects::{Memory, TreeEntry, has_twenty_bytes, mode_digits};
use std::alloc::Global;

// How many bytes an entry takes: its mode, a space, its name, a NUL, and the name of its object.
fn size_of_entry(entry: &(Component, Node)) -> usize {
    let beside_name = match &entry.1 {
        Node::File(_) => 28,
        _ => 27,
    };
    entry.0.as_bytes().len().saturating_add(beside_name)
}

fn size_of_chunk(chunk: &[(Component, Node)]) -> usize {
    let mut size: usize = 0;
    for entry in chunk {
        size = size.saturating_add(size_of_entry(entry));
    }
    size
}

// How many bytes the contents take, so that they are written into one allocation.
fn size_of(chunks: &[Chunk]) -> usize {
    let mut size: usize = 0;
    for chunk in chunks {
        size = size.saturating_add(size_of_chunk(&chunk.entries));
    }
    size
}

fn append_row(contents: &mut Vec<u8>, row: &TreeEntry<'_>) -> Result<(), Memory>
    ensures { OnOk result (contents.new.items ≡ contents.old.items
        ++ entry_text (entry_of row.now)) }
{
    contents.extend_from_slice(mode_digits(row.mode))?;
    contents.extend_from_slice(b" ")?;
    contents.extend_from_slice(row.name)?;
    contents.push(0)?;
    contents.extend_from_slice(row.id.as_bytes())?;
    Ok(())
}

fn append_entry(contents: &mut Vec<u8>, entry: &(Component, Node)) -> Result<(), Memory>
    requires { IsNamed (held entry.now.1).what }
    ensures written { OnOk result (contents.new.items ≡ contents.old.items
        ++ entry_text (entry_of_what entry.now.0 (held entry.now.1).what)) }
    ensures id { IsObjectName (entry_of_what entry.now.0 (held entry.now.1).what).id }
{
    let row = row_of(entry);
    has_twenty_bytes(&row.id);
    append_row(contents, &row)
}

fn append_chunk(contents: &mut Vec<u8>, chunk: &[(Component, Node)]) -> Result<(), Memory>
    requires { AreNamed (shape_of chunk.now) }
    ensures written { OnOk result (contents.new.items ≡ contents.old.items
        ++ tree_contents (entries_of_shape (shape_of chunk.now))) }
    ensures ids { OnOk result (AllByRecursion (λ e. IsObjectName e.id)
        (entries_of_shape (shape_of chunk.now))) }
{
    for entry in chunk {
        append_entry(contents, entry)?;
    }
    Ok(())
}

/// The contents of the tree that has the entries of all chunks, in an allocation of exactly their
/// size.
pub(crate) fn contents_of(alloc: Global, chunks: &[Chunk]) -> Result<Vec<u8>, Memory>
    requires { AreNamed (shape_of (all chunks.now)) }
    ensures contents { IfOk result (λ v. v.items
        ≡ tree_contents (entries_of_shape (shape_of (all chunks.now)))) }
    ensures ids { OnOk result (AllByRecursion (λ e. IsObjectName e.id)
        (entries_of_shape (shape_of (all chunks.now)))) }
{
    let mut contents = Vec::with_capacity(alloc, size_of(chunks))?;
    for chunk in chunks {
        append_chunk(&mut contents, &chunk.entries)?;
    }
    Ok(contents)
}
