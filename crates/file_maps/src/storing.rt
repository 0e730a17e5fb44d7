//! Adding one tree to a table.

ghost use Rattle.std.specs.Prelude.{◌≡◌, List, [], ◌∷◌, Some, OnOk, OnErr};
ghost use Rattle.git_objects.specs.Parts.{entries_of};
ghost use Rattle.git_model.specs.Tree.{TreeEntry as ListedEntry, tree_contents};
ghost use Rattle.tenant_tables.specs.{IsBackedBy.{IsBackedBy}, Trees.{FitsTree}, View.{summary_of}};
ghost use Rattle.file_maps.specs.Trees.{tree_name};
ghost use Rattle.file_maps.specs.Storing.{StoresTrees, HasHoldsLeftBeside, as_fault};

use crate::fault::Fault;
use crate::naming::contents_of;
use content_pool::Pool;
use git_objects::{Name, Naming, TreeEntry};
use std::alloc::Global;
use tenant_tables::{Fault as TableFault, Summary, Table};

fn as_fault(refusal: TableFault) -> Fault
    ensures { result ≡ as_fault refusal }
{
    match refusal {
        TableFault::Limit => Fault::Limit,
        TableFault::NameCollision => Fault::NameCollision,
        TableFault::Memory => Fault::Memory,
    }
}

/// Adds the tree with these contents to a table, and answers its name. The summary is that of its
/// files.
///
/// The same as `add_entries`, of contents that are written already.
pub fn add_contents<N: Naming>(
    pool: &mut Pool<N>,
    table: &mut Table,
    contents: Vec<u8>,
    summary: Summary,
) -> Result<Name, Fault>
    requires stands { IsBackedBy N.digest_of pool.old table.old.entries }
    requires room { HasHoldsLeftBeside pool.old table.old.entries }
    requires fits { FitsTree table.old.entries contents.items summary }
    ensures stores { (es : List ListedEntry) → contents.items ≡ tree_contents es
        → StoresTrees result N.digest_of pool.old table.old pool.new table.new
        (es ∷ []) (tree_name N.digest_of es) }
    ensures known { (es : List ListedEntry) → contents.items ≡ tree_contents es
        → OnOk result (summary_of (tree_name N.digest_of es) table.new.entries ≡ Some summary) }
    ensures same { OnErr result ((table.new ≡ table.old) × (pool.new ≡ pool.old)) }
{
    match table.add_tree_owned(pool, contents, summary) {
        Ok(id) => Ok(id),
        Err(refusal) => Err(as_fault(refusal)),
    }
}

/// Adds the tree with these entries to a table, and answers its name: git-mktree(1).
///
/// The entries make a tree whose directories stand in the table, and the summary is that of its
/// files. A tree that the table has already is not added again. `Fault::Limit` (25) where the
/// contents are too long or the table is full, else `Fault::NameCollision` (24) where the table has
/// another object of its name; `Fault::Memory` (90) where an allocation failed. Nothing has changed
/// after a refusal.
///
/// The pool is the one that the table stands in.
pub fn add_entries<N: Naming>(
    alloc: Global,
    pool: &mut Pool<N>,
    table: &mut Table,
    entries: &[TreeEntry<'_>],
    summary: Summary,
) -> Result<Name, Fault>
    requires stands { IsBackedBy N.digest_of pool.old table.old.entries }
    requires room { HasHoldsLeftBeside pool.old table.old.entries }
    requires fits { FitsTree table.old.entries (tree_contents (entries_of entries.now)) summary }
    ensures stores { StoresTrees result N.digest_of pool.old table.old pool.new table.new
        (entries_of entries.now ∷ []) (tree_name N.digest_of (entries_of entries.now)) }
    ensures known { OnOk result (summary_of (tree_name N.digest_of (entries_of entries.now))
        table.new.entries ≡ Some summary) }
    ensures same { OnErr result ((table.new ≡ table.old) × (pool.new ≡ pool.old)) }
{
    let contents = contents_of(alloc, entries)?;
    add_contents(pool, table, contents, summary)
}
