//! What is at a path of a stored tree.

ghost use Rattle.std.specs.{Prelude.{◌≡◌, ◌≤◌, ◌+◌, ◌∷◌, length, IfOk}, Option.{option_map}};
ghost use Rattle.git_objects.specs.Parts.{entries_of};
ghost use Rattle.file_maps.specs.{ByComponent.{what}, Edits.{cut}, StoredFiles.{stored_files}};
ghost use Rattle.file_maps.specs.PlainTrees.{ListsPlain};
ghost use Rattle.tree_build.specs.Standing.{stands_at, row_named, HasEntry, IsFoundAt};

use file_maps::{Entry, read_entries};
use git_objects::{FileMode, Memory, Name, Naming, TreeEntry};
use git_paths::Components;
use std::alloc::Global;
use tenant_tables::Objects;

// The entry of a name among those of a tree.
fn row_named(rows: &[TreeEntry<'_>], name: &[u8]) -> Option<Entry>
    ensures { result ≡ option_map what (row_named (entries_of rows.now) name.now) }
{
    for row in rows {
        if row.name == name {
            return Some(Entry {
                mode: row.mode,
                name: row.id,
            });
        }
    }
    None
}

// The entry `name` of the stored tree `tree`.
fn row_at<N: Naming>(
    alloc: Global,
    objects: &Objects<'_, N>,
    tree: &Name,
    name: &[u8],
) -> Result<Option<Entry>, Memory>
    requires tree { ListsPlain objects.now tree.now (stored_files objects.now tree.now) }
    ensures { IfOk result (λ o. HasEntry objects.now tree.now name.now o) }
{
    let rows = read_entries(alloc, objects, tree)?;
    Ok(row_named(&rows, name))
}

/// What is in the stored tree `tree` at the path of `name` and then `rest`. Counts the trees that
/// it reads.
#[cycle(reading)]
pub(crate) fn stored_entry<N: Naming>(
    alloc: Global,
    objects: &Objects<'_, N>,
    tree: &Name,
    name: &[u8],
    rest: &Components<'_>,
    reads: &mut u64,
) -> Result<Option<Entry>, Memory>
    requires tree { ListsPlain objects.now tree.now (stored_files objects.now tree.now) }
    ensures entry { IfOk result (λ o. o ≡ stands_at N.digest_of
        (stored_files objects.now tree.now) (name.now ∷ rest.now)) }
    ensures found { IfOk result (λ o. IsFoundAt objects.now o
        (cut (name.now ∷ rest.now) (stored_files objects.now tree.now))) }
    ensures counted { reads.old ≤ reads.new }
    ensures bounded { reads.new ≤ reads.old + (1 + length rest.now) }
{
    objects.are_backed();
    *reads = reads.saturating_add(1);
    let Some(row) = row_at(alloc, objects, tree, name)? else {
        return Ok(None);
    };
    match rest.split_first() {
        None => Ok(Some(row)),
        Some((next, left)) => match row.mode {
            FileMode::Directory => stored_entry(alloc, objects, &row.name, next, &left, reads),
            _ => Ok(None),
        },
    }
}
