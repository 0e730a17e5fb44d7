//! A table of trees in its own pool, for tests: what a caller of `add_tree` has to keep.

ghost use Rattle.std.specs.Prelude.{◌≡◌, All, IfOk, Some};
ghost use Rattle.git_model.specs.Tree.{CanWriteTree};
ghost use Rattle.git_objects.specs.Parts.{entries_of};
ghost use Rattle.tenant_tables.specs.Trees.{DirectoryStands, IsWithin, tree_summary};
ghost use Rattle.tenant_tables.specs.View.{summary_of};

use content_pool::Pool;
use git_objects::{Kind, Name, Naming, TreeEntry, write_tree};
use std::alloc::Global;
use std::marker::Model;
use tenant_tables::{Fault, Summary, Table};

/// A table, and a pool in which nobody else holds anything.
#[derive(Drop)]
pub struct Forest<N: Naming> {
    alloc: Global,
    pool: Pool<N>,
    table: Table,
}

impl<N: Naming> Model for Forest<N> {
    ghost use Rattle.std.specs.Prelude.{[]};
    ghost use Rattle.tenant_tables.specs.{IsBackedBy.{Share}, View.{Entries}};

    ghost Value = { Entries };

    ghost view = { λ forest. forest.table.entries };

    ghost invariant = { λ forest. Share N.digest_of forest.pool forest.table.entries [] };
}

impl<N: Naming> Forest<N> {
    pub fn new(alloc: Global, naming: N) -> Forest<N> {
        Forest {
            alloc,
            pool: Pool::new(alloc, naming),
            table: Table::new(alloc),
        }
    }

    pub fn add_blob(&mut self, bytes: &[u8]) -> Result<Name, Fault> {
        self.table.add(&mut self.pool, Kind::Blob, bytes)
    }

    /// Adds the tree with these entries, and answers its name.
    pub fn add_tree_of(
        &mut self,
        entries: &[TreeEntry<'_>],
        summary: Summary,
    ) -> Result<Name, Fault>
        requires writable { CanWriteTree (entries_of entries.now) }
        requires directories { All (DirectoryStands self.old) (entries_of entries.now) }
        requires sums { summary ≡ tree_summary self.old (entries_of entries.now) }
        requires within { IsWithin summary }
        ensures { IfOk result (λ id. summary_of id self.new ≡ Some summary) }
    {
        let mut contents = Vec::new(self.alloc);
        write_tree(entries, &mut contents)?;
        self.table
            .add_tree(&mut self.pool, contents.as_slice(), summary)
    }

    /// Whether the table has exactly these objects, in this order: digits and summaries.
    pub fn holds(&self, objects: &[(&[u8; 40], Option<Summary>)]) -> bool {
        for (place, (digits, summary)) in objects.iter().enumerate() {
            if !self.has_at(place, *digits, *summary) {
                return false;
            }
        }
        self.table.len() == objects.len()
    }

    fn has_at(&self, place: usize, digits: &[u8; 40], summary: Option<Summary>) -> bool {
        let Some((id, _)) = self.table.at(place) else {
            return false;
        };
        id.to_hex() == *digits && self.table.summary(&id) == summary
    }
}
