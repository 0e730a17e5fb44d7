//! Files whose contents are inline: git-fast-import(1), "filemodify", with `inline`.

ghost use Rattle.std.specs.Prelude.{◌≢◌, OnErr, OnOk};
ghost use Rattle.git_model.specs.Content.{content_from};
ghost use Rattle.tenant_tables.specs.{Lent.{Keeps, IsUnchanged}, Objects.{objects}};
ghost use Rattle.tenant_tables.specs.{Room.{HasHoldsLeftBeside}, IsBackedBy.{IsBackedBy}};
ghost use Rattle.open_commits.specs.{OpenCommit.{shown_in, IsCommitHeld}, Calls.{AddsOnly, Gives}};
ghost use Rattle.open_commits.specs.Changes.{contents_put, blob_put, left_with};

use crate::fault::Fault;
use crate::open_commit::OpenCommit;
use crate::storing::store;
use content_pool::Pool;
use file_maps::Entry;
use git_objects::{FileMode, Kind, Naming};
use git_paths::Path;
use tenant_tables::Table;

impl OpenCommit {
    /// `M` with `inline`, at its data: puts a file with these contents at a path, replaces what is
    /// there, below it or at a prefix of it, and then stores the blob: git-fast-import(1),
    /// "filemodify".
    ///
    /// `Fault::WrongKind` (15) for the mode of a gitlink or a directory, which have no contents;
    /// `Fault::RootNotDirectory` (20) and `Fault::Limit` (25) for the file, as for `modify`; then
    /// `Fault::Limit` (25) if the contents are longer than 134,217,728 bytes or the table is full,
    /// else `Fault::NameCollision` (24) if the table has another object of the blob's name;
    /// `Fault::Memory` (90) if an allocation fails. After any of these the pool and the table are
    /// as before; drop the commit.
    ///
    /// `pool` holds the contents of `table`. Others hold each content fewer than 2^64 - 2 times.
    pub fn put_contents<N: Naming>(
        &mut self,
        pool: &mut Pool<N>,
        table: &mut Table,
        mode: FileMode,
        path: &Path,
        contents: &[u8],
    ) -> Result<(), Fault>
        requires stands { IsBackedBy N.digest_of pool.old table.old.entries }
        requires room { HasHoldsLeftBeside pool.old table.old.entries }
        requires held { IsCommitHeld (objects pool.old table.old.entries) self.old }
        ensures keeps { Keeps N.digest_of pool.old table.old pool.new table.new }
        ensures room { HasHoldsLeftBeside pool.new table.new.entries }
        ensures adds { AddsOnly pool.old table.old pool.new table.new }
        ensures done { Gives (contents_put N.digest_of (objects pool.old table.old.entries) mode
            path.now contents.now (shown_in (objects pool.old table.old.entries) self.old))
            (λ _. left_with (objects pool.new table.new.entries)
            (shown_in (objects pool.new table.new.entries) self.new)) result }
        ensures held { OnOk result (IsCommitHeld (objects pool.new table.new.entries) self.new) }
        ensures same { OnErr result (IsUnchanged pool.old table.old pool.new table.new) }
    {
        match mode {
            FileMode::Gitlink | FileMode::Directory => Err(Fault::WrongKind),
            _ => self.put_blob(pool, table, mode, path, contents),
        }
    }

    fn put_blob<N: Naming>(
        &mut self,
        pool: &mut Pool<N>,
        table: &mut Table,
        mode: FileMode,
        path: &Path,
        contents: &[u8],
    ) -> Result<(), Fault>
        requires stands { IsBackedBy N.digest_of pool.old table.old.entries }
        requires room { HasHoldsLeftBeside pool.old table.old.entries }
        requires held { IsCommitHeld (objects pool.old table.old.entries) self.old }
        requires file { mode ≢ FileMode.Directory }
        ensures keeps { Keeps N.digest_of pool.old table.old pool.new table.new }
        ensures room { HasHoldsLeftBeside pool.new table.new.entries }
        ensures adds { AddsOnly pool.old table.old pool.new table.new }
        ensures done { Gives (blob_put N.digest_of (objects pool.old table.old.entries) mode
            path.now (content_from Kind.Blob contents.now)
            (shown_in (objects pool.old table.old.entries) self.old))
            (λ _. left_with (objects pool.new table.new.entries)
            (shown_in (objects pool.new table.new.entries) self.new)) result }
        ensures held { OnOk result (IsCommitHeld (objects pool.new table.new.entries) self.new) }
        ensures same { OnErr result (IsUnchanged pool.old table.old pool.new table.new) }
    {
        let name = pool.name_of(Kind::Blob, contents)?;
        self.put_file(pool, table, path, Entry { mode, name })?;
        store(pool, table, Kind::Blob, contents)?;
        Ok(())
    }
}
