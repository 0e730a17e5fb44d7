//! What is at a path of an open commit: git-fast-import(1), "ls".

ghost use Rattle.std.specs.Prelude.{◌≡◌};
ghost use Rattle.tenant_tables.specs.{Lent.{Keeps}, Objects.{objects}, Room.{HasHoldsLeftBeside}};
ghost use Rattle.tenant_tables.specs.IsBackedBy.{IsBackedBy};
ghost use Rattle.file_maps.specs.{Edits.{files_at}, Trees.{nested_trees}};
ghost use Rattle.open_commits.specs.{OpenCommit.{shown_in, IsCommitHeld}, Showing.{trees_by_mode}};
ghost use Rattle.open_commits.specs.Showing.{commit_entry_shown, file_or_trees, shown_trees};
ghost use Rattle.open_commits.specs.{Storing.{LeavesTrees}, Calls.{AddsOnly, Gives}};

use crate::fault::Fault;
use crate::open_commit::OpenCommit;
use content_pool::Pool;
use file_maps::Entry;
use git_objects::{FileMode, Naming};
use git_paths::Path;
use tenant_tables::Table;

impl OpenCommit {
    /// `ls` with a path alone: returns the entry at the path, or `None` if nothing is there; the
    /// root is always a directory. The trees of a directory are stored, children first, and stay
    /// stored when the commit changes later: git-fast-import(1), "ls".
    ///
    /// The first tree that is refused decides: `Fault::Limit` (25) if its contents are too long or
    /// the table is full, else `Fault::NameCollision` (24) if the table has another object of its
    /// name. If an allocation fails, the answer is `Fault::Memory` (90). After a refusal the table
    /// may have some of the directory's trees after its committed objects, the first ones in the
    /// order of storing. The commit is unchanged in any case.
    ///
    /// `pool` holds the contents of `table`. Others hold each content fewer than 2^64 - 2 times.
    pub fn show_entry<N: Naming>(
        &mut self,
        pool: &mut Pool<N>,
        table: &mut Table,
        path: &Path,
    ) -> Result<Option<Entry>, Fault>
        requires stands { IsBackedBy N.digest_of pool.old table.old.entries }
        requires room { HasHoldsLeftBeside pool.old table.old.entries }
        requires held { IsCommitHeld (objects pool.old table.old.entries) self.old }
        ensures keeps { Keeps N.digest_of pool.old table.old pool.new table.new }
        ensures room { HasHoldsLeftBeside pool.new table.new.entries }
        ensures adds { AddsOnly pool.old table.old pool.new table.new }
        ensures trees { let os = objects pool.old table.old.entries in
            LeavesTrees N.digest_of
            (shown_trees N.digest_of (shown_in os self.old).files path.now) os
            (objects pool.new table.new.entries) }
        ensures done { Gives (commit_entry_shown N.digest_of (objects pool.old table.old.entries)
            (shown_in (objects pool.old table.old.entries) self.old).files path.now)
            (λ entry. record { entry = entry; objects = objects pool.new table.new.entries })
            result }
        ensures commit { shown_in (objects pool.new table.new.entries) self.new
            ≡ shown_in (objects pool.old table.old.entries) self.old }
        ensures held { IsCommitHeld (objects pool.new table.new.entries) self.new }
    {
        let entry = self.files.entry(pool, table, path)?;
        if let Some(found) = &entry {
            self.store_directory(pool, table, path, found.mode)?;
        }
        Ok(entry)
    }

    // Stores the trees at and below a path, if this mode is that of a directory.
    fn store_directory<N: Naming>(
        &mut self,
        pool: &mut Pool<N>,
        table: &mut Table,
        path: &Path,
        mode: FileMode,
    ) -> Result<(), Fault>
        requires stands { IsBackedBy N.digest_of pool.old table.old.entries }
        requires room { HasHoldsLeftBeside pool.old table.old.entries }
        requires held { IsCommitHeld (objects pool.old table.old.entries) self.old }
        ensures keeps { Keeps N.digest_of pool.old table.old pool.new table.new }
        ensures room { HasHoldsLeftBeside pool.new table.new.entries }
        ensures adds { AddsOnly pool.old table.old pool.new table.new }
        ensures trees { let os = objects pool.old table.old.entries in
            LeavesTrees N.digest_of (trees_by_mode mode
            (nested_trees N.digest_of (files_at (shown_in os self.old).files path.now))) os
            (objects pool.new table.new.entries) }
        ensures done { Gives (file_or_trees N.digest_of (objects pool.old table.old.entries)
            (shown_in (objects pool.old table.old.entries) self.old).files path.now mode)
            (λ _. objects pool.new table.new.entries) result }
        ensures commit { shown_in (objects pool.new table.new.entries) self.new
            ≡ shown_in (objects pool.old table.old.entries) self.old }
        ensures held { IsCommitHeld (objects pool.new table.new.entries) self.new }
    {
        match mode {
            FileMode::Directory => {
                self.files.store(pool, table, path)?;
                Ok(())
            }
            _ => Ok(()),
        }
    }
}
