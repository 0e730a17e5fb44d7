//! The files of a branch: a file map under edits.
//!
//! A value has at most 1,048,576 files, each below the root, and no file's path is a prefix of
//! another's; so a directory exists exactly where a file is below it. An entry refers to its object
//! by name and never by position, so adding objects to a table changes no value.
//!
//! After `put` at `a/b` and then at `a`, the only file is `a`.

ghost use Rattle.std.specs.{Prelude.{◌≡◌, ◌≢◌, [], ◌∷◌, None, Some, IfOk}, List.{AllByRecursion}};
ghost use Rattle.std.specs.Option.{option_copied};
ghost use Rattle.file_maps.specs.{FileMap.{ArePairwiseApart, AreFiles, listed}, Calls.{Edits}};
ghost use Rattle.file_maps.specs.Edits.{files_at, moved, put_at, copied, renamed, without};
ghost use Rattle.file_maps.specs.{Edits.{put_fault, move_fault}, Kept.{replaced, IsBelow}};
ghost use Rattle.file_maps.specs.{Grafts.{Grafts}, Trees.{entry_at, nested_trees, tree_id}};
ghost use Rattle.file_maps.specs.Storing.{StoresTrees, HasHoldsLeftBeside};
ghost use Rattle.tenant_tables.specs.{Objects.{objects}, IsBackedBy.{IsBackedBy, PreservesOthers}};
ghost use Rattle.std.specs.FinMap as map;
ghost use Rattle.git_model.specs.declared.file_mode.FileMode.TheVariants as mode;

use crate::below::files_at;
use crate::check::{are_none, has_components, refusal_beside};
use crate::grafted::gather;
use crate::map::{Entries, count_staying, drop_below, insert_all, moved, one_file, retain_staying};
use crate::naming::entry_of;
use crate::storing::store_files;
use content_pool::Pool;
use file_maps::{Entry, Fault, is_small, tree_summary};
use git_objects::{Memory, Name, Naming, has_twenty_bytes};
use git_paths::Path;
use std::alloc::Global;
use std::collections::BTreeMap;
use std::marker::Model;
use std::mem;
use tenant_tables::{Objects, Sight, Table};

/// The files of a branch under their paths.
#[derive(Drop)]
pub struct Files {
    alloc: Global,
    files: Entries,
}

impl Model for Files {
    ghost use Rattle.std.specs.FinMap.{from_sorted};
    ghost use Rattle.file_maps.specs.FileMap.{FileMap, file_map_code, AreFiles};

    ghost Value = { FileMap };

    ghost coded = { file_map_code };

    ghost view = { λ f. from_sorted f.files.entries };

    ghost invariant = { λ f. AreFiles f.files.entries };
}

impl Files {
    /// A value without files. Takes no memory; its later memory comes from `alloc`.
    pub fn new(alloc: Global) -> Files
        ensures { result ≡ map.empty }
    {
        Files {
            alloc,
            files: BTreeMap::new(alloc),
        }
    }

    /// Removes all files. Takes no memory.
    pub fn clear(&mut self)
        ensures { self.new ≡ map.empty }
    {
        self.files.clear();
    }

    /// A fact for proofs: what holds of the files of every value. Calling it does nothing.
    pub fn are_files(&self)
        ensures { AreFiles (listed self.now) }
    {
        let _files = &self.files;
    }

    /// Removes the files at or below a path, or all files at the root: git-fast-import(1),
    /// "filedelete". Where there is none, nothing changes.
    ///
    /// `Fault::Memory` (90) is the only refusal; the value may then only be cleared or dropped.
    pub fn drop_path<N: Naming>(
        &mut self,
        _pool: &Pool<N>,
        _table: &Table,
        path: &Path,
    ) -> Result<(), Fault>
        ensures { Edits result self.old self.new None (without self.old path.now) }
    {
        drop_below(&mut self.files, path);
        Ok(())
    }

    /// Puts a file at a path, in place of what is there, below it, or at a prefix of it:
    /// git-fast-import(1), "filemodify".
    ///
    /// The entry must not be a directory. `Fault::RootNotDirectory` (20) at the root; else
    /// `Fault::Limit` (25) where the path has more than 16,383 bytes or 256 components, or there
    /// would be more than 1,048,576 files. Nothing has changed after these. Takes memory for the
    /// path; after `Fault::Memory` (90) the value may only be cleared or dropped.
    pub fn put<N: Naming>(
        &mut self,
        _pool: &Pool<N>,
        _table: &Table,
        path: &Path,
        entry: Entry,
    ) -> Result<(), Fault>
        requires file { entry.mode ≢ mode.Directory }
        ensures { let after = put_at self.old path.now entry in
            Edits result self.old self.new
            (put_fault (moved path.now (([], entry) ∷ [])) after) after }
    {
        has_twenty_bytes(&entry.name);
        has_components(path);
        let files = one_file(self.alloc, path, entry)?;
        self.replace(None, path, files)
    }

    /// Copies the files at or below one path to another, in place of what is there, below it, or at
    /// a prefix of it: git-fast-import(1), "filecopy".
    ///
    /// The source is read first. `Fault::SourceMissing` (18) where no file is at or below it;
    /// `Fault::RootNotDirectory` (20) where a file would be at the root; else `Fault::Limit` (25)
    /// where a path would be too long, or there would be too many files, as in `put`. Nothing has
    /// changed after these. Takes memory for the new paths; after `Fault::Memory` (90) the value
    /// may only be cleared or dropped.
    pub fn copy<N: Naming>(
        &mut self,
        _pool: &Pool<N>,
        _table: &Table,
        from: &Path,
        to: &Path,
    ) -> Result<(), Fault>
        ensures { let after = copied self.old from.now to.now in
            Edits result self.old self.new
            (move_fault (moved to.now (files_at self.old from.now)) after) after }
    {
        self.move_files(None, from, to)
    }

    /// Like `copy`, but removes the files from the source: git-fast-import(1), "filerename". The
    /// refusals are those of `copy`.
    pub fn rename<N: Naming>(
        &mut self,
        _pool: &Pool<N>,
        _table: &Table,
        from: &Path,
        to: &Path,
    ) -> Result<(), Fault>
        ensures { let after = renamed self.old from.now to.now in
            Edits result self.old self.new
            (move_fault (moved to.now (files_at self.old from.now)) after) after }
    {
        self.move_files(Some(from), from, to)
    }

    /// Puts the files of a stored tree at a path, in place of what is there, below it, or at a
    /// prefix of it: git-fast-import(1), "filemodify" with mode 040000. This has nothing to do with
    /// Git's grafts.
    ///
    /// The empty tree has no files, so putting it only removes. At the root a tree replaces all
    /// files. `Fault::ObjectUnknown` (14) where the table has no object of this name, else
    /// `Fault::WrongKind` (15) where the object is not a tree; else `Fault::Limit` (25) where a
    /// path would be too long, or there would be too many files, as in `put`. Nothing has changed
    /// after these. Takes memory for the new paths and for the entries of the trees that it reads;
    /// after `Fault::Memory` (90) the value may only be cleared or dropped.
    ///
    /// The pool is the one that the table stands in.
    pub fn graft<N: Naming>(
        &mut self,
        pool: &Pool<N>,
        table: &Table,
        path: &Path,
        name: &Name,
    ) -> Result<(), Fault>
        requires stands { IsBackedBy N.digest_of pool.now table.now.entries }
        ensures { Grafts result (objects pool.now table.now.entries) name.now path.now
            self.old self.new }
    {
        let alloc = self.alloc;
        if !is_small(tree_summary(&Objects::of(pool, table, Sight::All), name)?) {
            return Err(Fault::Limit);
        }
        let mut files = Vec::new(alloc);
        gather(alloc, pool, table, path, name, &mut files)?;
        self.replace(None, path, files)
    }

    /// What stands at a path: a file, a directory with the name of its tree, or nothing. The root
    /// is always a directory.
    ///
    /// The trees are only named, not stored. Takes memory for their contents; `Memory` (90) is the
    /// only refusal.
    pub fn entry<N: Naming>(
        &self,
        pool: &Pool<N>,
        _table: &Table,
        path: &Path,
    ) -> Result<Option<Entry>, Memory>
        ensures { IfOk result (λ o. o ≡ entry_at N.digest_of self.now path.now) }
    {
        let files = files_at(self.alloc, &self.files, path)?;
        entry_of(self.alloc, pool, path, &files)
    }

    /// Stores the trees of the files at or below a path, children first and in the order of their
    /// entries, the tree at the path itself last, and answers its name: git-write-tree(1).
    ///
    /// Where no file is below the path, or a file is at it, that is the empty tree. A tree that the
    /// table has already is not added again. The first tree that is refused decides: `Fault::Limit`
    /// (25) where its contents are too long or the table is full, else `Fault::NameCollision` (24)
    /// where the table has another object of its name. `Fault::Memory` (90) where an allocation
    /// failed. After a refusal, some of the trees before the refused one may stand after the
    /// committed prefix, and nothing else has changed. The files never change.
    ///
    /// The pool is the one that the table stands in, and nobody else holds a content 2^64 - 2
    /// times.
    pub fn store<N: Naming>(
        &mut self,
        pool: &mut Pool<N>,
        table: &mut Table,
        at: &Path,
    ) -> Result<Name, Fault>
        requires stands { IsBackedBy N.digest_of pool.old table.old.entries }
        requires room { HasHoldsLeftBeside pool.old table.old.entries }
        ensures stores { StoresTrees result N.digest_of pool.old table.old pool.new table.new
            (nested_trees N.digest_of (files_at self.old at.now))
            (tree_id N.digest_of (files_at self.old at.now)) }
        ensures stands { IsBackedBy N.digest_of pool.new table.new.entries }
        ensures room { HasHoldsLeftBeside pool.new table.new.entries }
        ensures others { PreservesOthers pool.old table.old.entries pool.new table.new.entries }
        ensures files { self.new ≡ self.old }
    {
        let files = match files_at(self.alloc, &self.files, at) {
            Ok(files) => files,
            Err(_) => return Err(Fault::Memory),
        };
        store_files(self.alloc, pool, table, &files)
    }

    // Copies the files at or below one path to another, in place of what is there. What is at or
    // below `gone`, where that is a path, is removed too. The source is read first.
    fn move_files(&mut self, gone: Option<&Path>, from: &Path, to: &Path) -> Result<(), Fault>
        ensures { let files = moved to.now (files_at self.old from.now) in
            let after = replaced (option_copied gone.entry) to.now files self.old in
            Edits result self.old self.new (move_fault files after) after }
    {
        has_components(to);
        let files = moved(self.alloc, &self.files, from, to)?;
        if are_none(&files) {
            return Err(Fault::SourceMissing);
        }
        self.replace(gone, to, files)
    }

    // Puts files at or below a path, in place of what does not stay. Every refusal but `Memory`
    // comes before the first change.
    fn replace(
        &mut self,
        from: Option<&Path>,
        to: &Path,
        files: Vec<(Path, Entry)>,
    ) -> Result<(), Fault>
        requires below { AllByRecursion (IsBelow to.now) files.items }
        requires apart { ArePairwiseApart files.items }
        ensures { let after = replaced (option_copied from.entry) to.now files.items self.old in
            Edits result self.old self.new (put_fault files.items after) after }
    {
        let staying = count_staying(&self.files, from, to);
        match refusal_beside(staying, &files) {
            Some(refusal) => return Err(refusal),
            None => {}
        }
        let mut map = mem::replace(&mut self.files, BTreeMap::new(self.alloc));
        retain_staying(&mut map, from, to);
        insert_all(&mut map, files)?;
        self.files = map;
        Ok(())
    }
}
