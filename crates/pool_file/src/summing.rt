//! The summary of an object, from those that a table has of the objects before it.

ghost use Rattle.std.specs.{Prelude.{◌≡◌, IfOk}, Option.{unwrap_or}};
ghost use Rattle.git_model.specs.TreeReading.{tree_read};
ghost use Rattle.git_objects.specs.Parts.{entry_of, entries_of};
ghost use Rattle.tenant_tables.specs.{View.{summary_of}, Sums.{IsTreeText, IsWithin}};
ghost use Rattle.tenant_tables.specs.Trees.{below, both, entry_summary, no_files, one_file};
ghost use Rattle.tenant_tables.specs.Trees.{tree_summary};
ghost use Rattle.pool_file.specs.Tables.{FitsIn, summary_in};

use git_names::{Memory, Name};
use git_objects::{FileMode, Kind, TreeEntry, read_tree};
use std::alloc::Global;
use tenant_tables::{Summary, Table};

fn no_files() -> Summary
    ensures { result ≡ no_files }
{
    Summary {
        files: 0,
        depth: 0,
        longest: 0,
    }
}

fn one_file(name: &[u8]) -> Summary
    requires { IsWithin (one_file name.now) }
    ensures { result ≡ one_file name.now }
{
    Summary {
        files: 1,
        depth: 1,
        longest: name.len() as u32,
    }
}

// The files of a tree, below a directory of this name.
fn below(name: &[u8], tree: Summary) -> Summary
    requires { IsWithin (below name.now tree) }
    ensures { result ≡ below name.now tree }
{
    if tree.files == 0 {
        return no_files();
    }
    Summary {
        files: tree.files,
        depth: 1 + tree.depth,
        longest: name.len() as u32 + 1 + tree.longest,
    }
}

fn both(first: Summary, second: Summary) -> Summary
    requires { IsWithin (both first second) }
    ensures { result ≡ both first second }
{
    Summary {
        files: first.files + second.files,
        depth: first.depth.max(second.depth),
        longest: first.longest.max(second.longest),
    }
}

// What a directory of this name adds. The table has its tree.
fn directory_summary(table: &Table, name: &[u8], id: &Name) -> Summary
    requires { IsWithin (below name.now
        (unwrap_or (summary_of id.now table.now.entries) no_files)) }
    ensures { result ≡ below name.now
        (unwrap_or (summary_of id.now table.now.entries) no_files) }
{
    below(name, table.summary(id).unwrap_or(no_files()))
}

fn entry_summary(table: &Table, entry: &TreeEntry<'_>) -> Summary
    requires { IsWithin (entry_summary table.now.entries (entry_of entry.now)) }
    ensures { result ≡ entry_summary table.now.entries (entry_of entry.now) }
{
    match entry.mode {
        FileMode::Directory => directory_summary(table, entry.name, &entry.id),
        _ => one_file(entry.name),
    }
}

fn entries_summary(table: &Table, entries: &[TreeEntry<'_>]) -> Summary
    requires { IsWithin (tree_summary table.now.entries (entries_of entries.now)) }
    ensures { result ≡ tree_summary table.now.entries (entries_of entries.now) }
{
    let mut sum = no_files();
    for entry in entries {
        sum = both(sum, entry_summary(table, entry));
    }
    sum
}

// The summary of the tree with these contents.
fn tree_summary(alloc: Global, table: &Table, bytes: &[u8]) -> Result<Summary, Memory>
    requires text { IsTreeText bytes.now (tree_read bytes.now) }
    requires within { IsWithin (tree_summary table.now.entries (tree_read bytes.now)) }
    ensures { IfOk result (λ sum. sum ≡ tree_summary table.now.entries (tree_read bytes.now)) }
{
    let entries = read_tree(alloc, bytes)?.unwrap();
    Ok(entries_summary(table, &entries))
}

/// The summary of an object of this kind after those of the table, in which it fits; `None` if it
/// is not a tree.
///
/// `Memory` (90) if there is no memory to read the tree.
pub fn summary_after(
    alloc: Global,
    table: &Table,
    kind: Kind,
    bytes: &[u8],
) -> Result<Option<Summary>, Memory>
    requires { FitsIn table.now.entries kind bytes.now }
    ensures { IfOk result (λ sum. sum ≡ summary_in table.now.entries kind bytes.now) }
{
    match kind {
        Kind::Tree => Ok(Some(tree_summary(alloc, table, bytes)?)),
        Kind::Blob => Ok(None),
        Kind::Commit => Ok(None),
        Kind::Tag => Ok(None),
    }
}
