//! Edits of a branch. An edit first opens the directories on the way to its path.

ghost use Rattle.std.specs.Prelude.{◌≡◌, ◌≢◌, ◌≤◌, ◌<◌, ◌+◌, [], ◌∷◌, ◌++◌, true, length, None};
ghost use Rattle.std.specs.Prelude.{Err, OnOk};
ghost use Rattle.tenant_tables.specs.{Objects.{objects}, IsBackedBy.{IsBackedBy}};
ghost use Rattle.file_maps.specs.Edits.{without, moved, put_at, put_tree_at, put_fault};
ghost use Rattle.file_maps.specs.{FileMap.{Path as FilePath}, Calls.{Edits}};
ghost use Rattle.git_model.specs.{Limits.{files_limit}, ObjectName.{IsObjectName}};
ghost use Rattle.git_paths.specs.Paths.{is_within_limits};
ghost use Rattle.tree_build.specs.{Nodes.{held}, Opened.{is_kept, too_many}};
ghost use Rattle.tree_build.specs.Branch.{files_in, IsBranch, CountsAtMost, closed_from};
ghost use Rattle.tree_build.specs.Replacing.{MayPut, PutsNode};
ghost use Rattle.std.specs.FinMap as finmap;
ghost use Rattle.file_maps.specs.declared.fault.Fault.TheVariants as fault;
ghost use Rattle.git_model.specs.declared.file_mode.FileMode.TheVariants as mode;

use crate::component::has_components;
use crate::counting::taken;
use crate::dir::Node;
use crate::dropping::take_at;
use crate::files::Files;
use crate::opening::open_below;
use crate::placing::place;
use crate::putting::put_inside;
use content_pool::Pool;
use file_maps::{Entry, FILES_LIMIT, Fault};
use git_objects::{Memory, Naming, has_twenty_bytes};
use git_paths::{Components, Path};
use tenant_tables::{Objects, Sight, Table};

impl Files {
    /// Opens the directories on the way to a path.
    pub(crate) fn open_to<N: Naming>(
        &mut self,
        objects: &Objects<'_, N>,
        path: &Components<'_>,
    ) -> Result<(), Memory>
        requires branch { IsBranch objects.now self.old }
        ensures branch { OnOk result (IsBranch objects.now self.new) }
        ensures files { OnOk result (files_in objects.now self.new
            ≡ files_in objects.now self.old) }
        ensures shut { OnOk result (closed_from self.new.root path.now ≡ 0) }
        ensures open { OnOk result ((q : FilePath)
            → closed_from self.new.root q ≤ closed_from self.old.root q) }
        ensures reads { CountsAtMost self.old self.new (closed_from self.old.root path.now) }
    {
        open_below(self.alloc, objects, &mut self.root, path, &mut self.reads)
    }

    /// Removes the files at or below a path and, if `clear`, a file at a prefix of the path. If
    /// there are none, each directory keeps the name of its stored tree.
    pub(crate) fn take_out<N: Naming>(
        &mut self,
        objects: &Objects<'_, N>,
        path: &Components<'_>,
        clear: bool,
    )
        requires branch { IsBranch objects.now self.old }
        requires shut { closed_from self.old.root path.now ≡ 0 }
        requires some { path.now ≢ [] }
        ensures branch { IsBranch objects.now self.new }
        ensures files { files_in objects.now self.new
            ≡ finmap.retain_keys (files_in objects.now self.old) (is_kept clear path.now) }
        ensures open { (q : FilePath) → closed_from self.new.root q ≤ closed_from self.old.root q }
        ensures reads { self.new.reads ≡ self.old.reads }
    {
        match &mut self.root {
            Node::Opened(dir) => {
                let gone = taken(objects, &dir.entries, path, clear);
                if gone == 0 {
                    return;
                }
                take_at(dir, path, clear);
                self.files -= gone;
            }
            _ => {}
        }
    }

    /// Removes the files at or below a path; at the root, all files. If there are none, the files
    /// stay as they are: git-fast-import(1), "filedelete".
    ///
    /// `pool` and `table` hold the trees of this value. Reads at most as many trees as the path has
    /// components, and takes memory for their entries. The only error is `Fault::Memory` (90);
    /// after it the value may only be cleared or dropped.
    pub fn drop_path<N: Naming>(
        &mut self,
        pool: &Pool<N>,
        table: &Table,
        path: &Path,
    ) -> Result<(), Fault>
        requires stands { IsBackedBy N.digest_of pool.now table.now.entries }
        requires branch { IsBranch (objects pool.now table.now.entries) self.old }
        ensures edits { let os = objects pool.now table.now.entries in
            let m = files_in os self.old in
            Edits result m (files_in os self.new) None (without m path.now) }
        ensures branch { result ≢ Err fault.Memory
            → IsBranch (objects pool.now table.now.entries) self.new }
        ensures reads { CountsAtMost self.old self.new (closed_from self.old.root path.now) }
        ensures few { self.new.reads ≤ self.old.reads + length path.now }
        ensures open { OnOk result ((q : FilePath)
            → closed_from self.new.root q ≤ closed_from self.old.root q) }
    {
        let objects = Objects::of(pool, table, Sight::All);
        self.walk_reads_few(path);
        if path.is_root() {
            self.clear();
            return Ok(());
        }
        let path = path.components();
        self.open_to(&objects, &path)?;
        self.take_out(&objects, &path, false);
        Ok(())
    }

    /// Puts a node at a path, and removes the files that were at the path, below it, or at a prefix
    /// of it. `total` is the number of files before that, plus those of the node.
    pub(crate) fn put_node<N: Naming>(
        &mut self,
        objects: &Objects<'_, N>,
        path: &Components<'_>,
        node: Node,
        total: usize,
    ) -> Result<(), Fault>
        requires some { path.now ≢ [] }
        requires may { MayPut objects.now path.now (held node) total self.old }
        ensures puts { PutsNode objects.now result path.now (held node) self.old self.new }
        ensures there { OnOk result ((rest : FilePath)
            → closed_from self.new.root (path.now ++ rest)
            ≡ closed_from (held node) rest) }
    {
        has_components(path);
        match &mut self.root {
            Node::Opened(dir) => {
                let files = total - taken(objects, &dir.entries, path, true);
                if files > FILES_LIMIT {
                    return Err(Fault::Limit);
                }
                place(self.alloc, dir, path, node)?;
                self.files = files;
                Ok(())
            }
            _ => Ok(()),
        }
    }

    /// Puts a file at a path where one file more is no file too many. One walk opens the
    /// directories on the way, counts the files that go, and puts the file.
    pub(crate) fn put_file<N: Naming>(
        &mut self,
        objects: &Objects<'_, N>,
        path: &Components<'_>,
        entry: Entry,
    ) -> Result<(), Fault>
        requires file { entry.mode ≢ mode.Directory }
        requires name { IsObjectName entry.name }
        requires branch { IsBranch objects.now self.old }
        requires some { path.now ≢ [] }
        requires within { is_within_limits path.now ≡ true }
        requires room { self.old.files < files_limit }
        ensures edits { let os = objects.now in
            let m = files_in os self.old in
            let after = put_tree_at m path.now (([], entry) ∷ []) in
            Edits result m (files_in os self.new) (too_many (finmap.len after)) after }
        ensures branch { result ≢ Err fault.Memory → IsBranch objects.now self.new }
        ensures reads { CountsAtMost self.old self.new (closed_from self.old.root path.now) }
        ensures open { OnOk result ((q : FilePath)
            → closed_from self.new.root q ≤ closed_from self.old.root q) }
        ensures shut { OnOk result (closed_from self.new.root path.now ≡ 0) }
    {
        has_components(path);
        let total = self.files + 1;
        let gone = put_inside(
            self.alloc,
            objects,
            &mut self.root,
            path,
            &entry,
            &mut self.reads,
        )?;
        let files = total - gone;
        self.files = files;
        Ok(())
    }

    /// Puts a file at a path, and removes the files that were at the path, below it, or at a prefix
    /// of it: git-fast-import(1), "filemodify".
    ///
    /// `pool` and `table` hold the trees of this value. The mode of `entry` is not that of a
    /// directory: `graft` puts those. `Fault::RootNotDirectory` (20) if the path is the root; else
    /// `Fault::Limit` (25) if the path has more than 16,383 bytes or 256 components, or if there
    /// would be more than 1,048,576 files. After these errors the files are as before. Reads at
    /// most as many trees as the path has components, and takes memory for their entries and for
    /// the path. After `Fault::Memory` (90) the value may only be cleared or dropped.
    pub fn put<N: Naming>(
        &mut self,
        pool: &Pool<N>,
        table: &Table,
        path: &Path,
        entry: Entry,
    ) -> Result<(), Fault>
        requires file { entry.mode ≢ mode.Directory }
        requires stands { IsBackedBy N.digest_of pool.now table.now.entries }
        requires branch { IsBranch (objects pool.now table.now.entries) self.old }
        ensures edits { let os = objects pool.now table.now.entries in
            let m = files_in os self.old in
            let after = put_at m path.now entry in
            Edits result m (files_in os self.new)
            (put_fault (moved path.now (([], entry) ∷ [])) after) after }
        ensures branch { result ≢ Err fault.Memory
            → IsBranch (objects pool.now table.now.entries) self.new }
        ensures reads { CountsAtMost self.old self.new (closed_from self.old.root path.now) }
        ensures few { self.new.reads ≤ self.old.reads + length path.now }
        ensures open { OnOk result ((q : FilePath)
            → closed_from self.new.root q ≤ closed_from self.old.root q) }
        ensures shut { OnOk result (closed_from self.new.root path.now ≡ 0) }
    {
        let objects = Objects::of(pool, table, Sight::All);
        self.walk_reads_few(path);
        has_twenty_bytes(&entry.name);
        if path.is_root() {
            return Err(Fault::RootNotDirectory);
        }
        if !is_short(path) {
            return Err(Fault::Limit);
        }
        let path = path.components();
        has_components(&path);
        // Where there is room for one file more, no file has to be counted before this one is put.
        if self.file_count() < FILES_LIMIT {
            return self.put_file(&objects, &path, entry);
        }
        self.open_to(&objects, &path)?;
        let total = self.file_count() + 1;
        self.put_node(&objects, &path, Node::File(entry), total)
    }
}

fn is_short(path: &Path) -> bool
    ensures { result ≡ is_within_limits path.now }
{
    path.is_within_limits()
}
