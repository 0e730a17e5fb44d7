//! The summary of a tree, from those of the directories in it.

ghost use Rattle.std.specs.{Prelude.{◌≡◌, ◌+◌}, Option.{unwrap_or}};
ghost use Rattle.tenant_tables.specs.Trees.{no_files, below, one_file, both, entry_summary};
ghost use Rattle.tenant_tables.specs.{Trees.{tree_summary}, View.{summary_of}};
ghost use Rattle.tree_build.specs.{Chunks.{all}, Nodes.{held, shape_of}, Shape.{file}};
ghost use Rattle.tree_build.specs.Stores.{AreNamed, IsNamed, entries_of_shape, entry_of_what};
ghost use Rattle.tree_build.specs.Sums.{IsSmall, sum_with};

use crate::component::Component;
use crate::dir::{Chunk, Node};
use file_maps::Entry;
use git_objects::{FileMode, Name};
use tenant_tables::{Summary, Table};

/// The summary of the empty tree.
pub(crate) fn no_files() -> Summary
    ensures { result ≡ no_files }
{
    Summary {
        files: 0,
        depth: 0,
        longest: 0,
    }
}

/// The summary of one file of this name.
pub(crate) fn one_file(name: &[u8]) -> Summary
    requires { IsSmall (one_file name.now) }
    ensures { result ≡ one_file name.now }
{
    Summary {
        files: 1,
        depth: 1,
        longest: name.len() as u32,
    }
}

/// The summary of the files of a tree that is the entry `name` of another.
pub(crate) fn below(name: &[u8], tree: Summary) -> Summary
    requires { IsSmall (below name.now tree) }
    ensures { result ≡ below name.now tree }
{
    if tree.files == 0 {
        return no_files();
    }
    Summary {
        files: tree.files,
        depth: 1 + tree.depth,
        longest: name.len() as u32 + 1 + tree.longest,
    }
}

/// The summary of the files of two summaries.
pub(crate) fn both(first: Summary, second: Summary) -> Summary
    requires { IsSmall (both first second) }
    ensures { result ≡ both first second }
{
    Summary {
        files: first.files + second.files,
        depth: first.depth.max(second.depth),
        longest: first.longest.max(second.longest),
    }
}

// The summary of the tree of this name as the entry `name` of another. The table may have the tree
// at `place`.
fn directory_summary(table: &Table, name: &[u8], id: &Name, place: usize) -> Summary
    requires { IsSmall (below name.now
        (unwrap_or (summary_of id.now table.now.entries) no_files)) }
    ensures { result ≡ below name.now
        (unwrap_or (summary_of id.now table.now.entries) no_files) }
{
    let tree = table.summary_with_hint(id, place);
    below(name, tree.unwrap_or(no_files()))
}

fn file_summary(table: &Table, name: &[u8], entry: &Entry) -> Summary
    requires { IsSmall (entry_summary table.now.entries
        (entry_of_what name.now (file entry.now))) }
    ensures { result ≡ entry_summary table.now.entries (entry_of_what name.now (file entry.now)) }
{
    match entry.mode {
        FileMode::Directory => directory_summary(table, name, &entry.name, 0),
        _ => one_file(name),
    }
}

// The summary of an entry. It is read where it stands: a copy of each would take time.
fn entry_summary(table: &Table, entry: &(Component, Node)) -> Summary
    requires named { IsNamed (held entry.now.1).what }
    requires small { IsSmall (entry_summary table.now.entries
        (entry_of_what entry.now.0 (held entry.now.1).what)) }
    ensures { result ≡ entry_summary table.now.entries
        (entry_of_what entry.now.0 (held entry.now.1).what) }
{
    let name = entry.0.as_bytes();
    match &entry.1 {
        Node::File(file) => file_summary(table, name, file),
        Node::Unopened(id) => directory_summary(table, name, id, 0),
        Node::Opened(dir) => {
            directory_summary(table, name, dir.tree.as_ref().unwrap(), dir.place)
        }
    }
}

// The sum of the summaries before a chunk and of those of its entries.
fn sum_with(table: &Table, before: Summary, chunk: &[(Component, Node)]) -> Summary
    requires named { AreNamed (shape_of chunk.now) }
    requires small { IsSmall (sum_with table.now.entries before chunk.now) }
    ensures { result ≡ sum_with table.now.entries before chunk.now }
{
    let mut sum = before;
    for entry in chunk {
        sum = both(sum, entry_summary(table, entry));
    }
    sum
}

/// The summary of the tree that has the entries of all chunks. The trees of its directories are in
/// the table.
pub(crate) fn summary_of(table: &Table, chunks: &[Chunk]) -> Summary
    requires named { AreNamed (shape_of (all chunks.now)) }
    requires small { IsSmall (tree_summary table.now.entries
        (entries_of_shape (shape_of (all chunks.now)))) }
    ensures { result ≡ tree_summary table.now.entries
        (entries_of_shape (shape_of (all chunks.now))) }
{
    let mut sum = no_files();
    for chunk in chunks {
        sum = sum_with(table, sum, &chunk.entries);
    }
    sum
}
