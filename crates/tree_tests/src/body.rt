//! The two bodies of a branch, which go through the same steps.

ghost use Rattle.std.specs.Prelude.{◌≢◌, ℕ, List, Err};
ghost use Rattle.git_model.specs.{Content.{Content}, Repository.{Object, with_object}};
ghost use Rattle.tenant_tables.specs.{Objects.{objects}, Room.{HasHoldsLeftBeside}};
ghost use Rattle.tenant_tables.specs.IsBackedBy.{IsBackedBy};
ghost use Rattle.tree_build.specs.Branch.{IsBranch};
ghost use Rattle.git_model.specs.declared.file_mode.FileMode.TheVariants as mode;
ghost use Rattle.file_maps.specs.declared.fault.Fault.TheVariants as fault;
ghost use Rattle.tree_build.proofs.Growing.{branch_stays};

use content_pool::Pool;
use file_maps::{Entry, Fault};
use git_objects::{Memory, Name, Naming};
use git_paths::Path;
use plain_files::Files as PlainFiles;
use std::alloc::Global;
use tenant_tables::Table;
use tree_build::Files;

/// What an edit answers.
pub type Edited = Result<(), Fault>;

/// The edits that name paths alone, or a stored tree.
#[derive(Drop)]
pub enum Edit<'a> {
    Drop(&'a Path),
    Copy(&'a Path, &'a Path),
    Rename(&'a Path, &'a Path),
    Graft(&'a Path, &'a Name),
}

/// The files of a branch, as each of the two crates has them. Each call is that of the crates'
/// `Files`, and takes `&mut` where one of them does.
pub trait Body<N: Naming>: Sized + Drop {
    /// The trees that the branch refers to are among the objects.
    ghost is_sound: { List Object → Self → Type 0 };

    /// No files.
    fn new(alloc: Global) -> Self
        ensures { (os : List Object) → is_sound os result };

    fn clear(&mut self)
        ensures { (os : List Object) → is_sound os self.new };

    /// How many stored trees were read; `None` for a body that does not count them.
    fn reads(&self) -> Option<u64>;

    fn put(&mut self, pool: &Pool<N>, table: &Table, path: &Path, entry: Entry) -> Edited
        requires file { entry.mode ≢ mode.Directory }
        requires stands { IsBackedBy N.digest_of pool.now table.now.entries }
        requires sound { is_sound (objects pool.now table.now.entries) self.old }
        ensures { is_sound (objects pool.now table.now.entries) self.new };

    fn edit(&mut self, pool: &Pool<N>, table: &Table, edit: &Edit<'_>) -> Edited
        requires stands { IsBackedBy N.digest_of pool.now table.now.entries }
        requires sound { is_sound (objects pool.now table.now.entries) self.old }
        ensures { is_sound (objects pool.now table.now.entries) self.new };

    fn entry(&self, pool: &Pool<N>, table: &Table, path: &Path) -> Result<Option<Entry>, Memory>
        requires stands { IsBackedBy N.digest_of pool.now table.now.entries }
        requires sound { is_sound (objects pool.now table.now.entries) self.now };

    fn store(&mut self, pool: &mut Pool<N>, table: &mut Table, at: &Path) -> Result<Name, Fault>
        requires stands { IsBackedBy N.digest_of pool.old table.old.entries }
        requires room { HasHoldsLeftBeside pool.old table.old.entries }
        requires sound { is_sound (objects pool.old table.old.entries) self.old }
        ensures stands { IsBackedBy N.digest_of pool.new table.new.entries }
        ensures room { HasHoldsLeftBeside pool.new table.new.entries }
        ensures sound { is_sound (objects pool.new table.new.entries) self.new };

    ghost stays: { (os : List Object) (id : List ℕ) (c : Content) (files : Self) → is_sound os files
        → is_sound (with_object id c os) files };
}

impl<N: Naming> Body<N> for PlainFiles {
    ghost is_sound = { λ os files. Unit {0} };

    fn new(alloc: Global) -> PlainFiles {
        PlainFiles::new(alloc)
    }

    fn clear(&mut self) {
        PlainFiles::clear(self)
    }

    fn reads(&self) -> Option<u64> {
        None
    }

    fn put(&mut self, pool: &Pool<N>, table: &Table, path: &Path, entry: Entry) -> Edited {
        PlainFiles::put(self, pool, table, path, entry)
    }

    fn edit(&mut self, pool: &Pool<N>, table: &Table, edit: &Edit<'_>) -> Edited {
        match edit {
            Edit::Drop(path) => PlainFiles::drop_path(self, pool, table, path),
            Edit::Copy(from, to) => PlainFiles::copy(self, pool, table, from, to),
            Edit::Rename(from, to) => PlainFiles::rename(self, pool, table, from, to),
            Edit::Graft(path, name) => PlainFiles::graft(self, pool, table, path, name),
        }
    }

    fn entry(&self, pool: &Pool<N>, table: &Table, path: &Path) -> Result<Option<Entry>, Memory> {
        PlainFiles::entry(self, pool, table, path)
    }

    fn store(&mut self, pool: &mut Pool<N>, table: &mut Table, at: &Path) -> Result<Name, Fault> {
        PlainFiles::store(self, pool, table, at)
    }

    ghost stays = { λ os id c files h. tt };
}

// After `Memory` a branch may only be cleared.
fn settled(files: &mut Files, answer: Edited) -> Edited
    ensures { (os : List Object) → (answer ≢ Err fault.Memory → IsBranch os files.old)
        → IsBranch os files.new }
{
    match answer {
        Err(Fault::Memory) => {
            files.clear();
            Err(Fault::Memory)
        }
        other => other,
    }
}

fn edited<N: Naming>(files: &mut Files, pool: &Pool<N>, table: &Table, edit: &Edit<'_>) -> Edited
    requires stands { IsBackedBy N.digest_of pool.now table.now.entries }
    requires branch { IsBranch (objects pool.now table.now.entries) files.old }
    ensures { result ≢ Err fault.Memory → IsBranch (objects pool.now table.now.entries) files.new }
{
    match edit {
        Edit::Drop(path) => files.drop_path(pool, table, path),
        Edit::Copy(from, to) => files.copy(pool, table, from, to),
        Edit::Rename(from, to) => files.rename(pool, table, from, to),
        Edit::Graft(path, name) => files.graft(pool, table, path, name),
    }
}

impl<N: Naming> Body<N> for Files {
    ghost is_sound = { IsBranch };

    fn new(alloc: Global) -> Files {
        Files::new(alloc)
    }

    fn clear(&mut self) {
        Files::clear(self)
    }

    fn reads(&self) -> Option<u64> {
        Some(Files::reads(self))
    }

    fn put(&mut self, pool: &Pool<N>, table: &Table, path: &Path, entry: Entry) -> Edited {
        let answer = Files::put(self, pool, table, path, entry);
        settled(self, answer)
    }

    fn edit(&mut self, pool: &Pool<N>, table: &Table, edit: &Edit<'_>) -> Edited {
        let answer = edited(self, pool, table, edit);
        settled(self, answer)
    }

    fn entry(&self, pool: &Pool<N>, table: &Table, path: &Path) -> Result<Option<Entry>, Memory> {
        Files::entry(self, pool, table, path)
    }

    fn store(&mut self, pool: &mut Pool<N>, table: &mut Table, at: &Path) -> Result<Name, Fault> {
        Files::store(self, pool, table, at)
    }

    ghost stays = { λ os id c files h. (branch_stays id c os files h).0 };
}
