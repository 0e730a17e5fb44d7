//! Copying and renaming: what is at one path is put at another.
//!
//! An edited directory is copied entry by entry, any other by the name of its tree. A rename copies
//! nothing: it moves the node.

ghost use Rattle.std.specs.Prelude.{◌≡◌, ◌≢◌, ◌≤◌, ◌+◌, [], length, None, Some, Err, IfOk, IsTrue};
ghost use Rattle.std.specs.{Prelude.{IfErr, OnOk}, Option.{option_map}};
ghost use Rattle.git_model.specs.Limits.{files_limit};
ghost use Rattle.git_paths.specs.Paths.{strip_prefix};
ghost use Rattle.tenant_tables.specs.{Objects.{objects}, IsBackedBy.{IsBackedBy}};
ghost use Rattle.file_maps.specs.{Calls.{Edits}, FileMap.{Path as FilePath, AreFiles, listed}};
ghost use Rattle.file_maps.specs.Edits.{files_at, moved, put_tree_at, copied, renamed, move_fault};
ghost use Rattle.file_maps.specs.StoredFiles.{stored_files};
ghost use Rattle.tree_build.specs.{Shape.{held_files}, Branch.{closed_from}, Nodes.{held}};
ghost use Rattle.tree_build.specs.Branch.{files_in, IsDirectory, IsHeld, IsBranch, CountsAtMost};
ghost use Rattle.tree_build.specs.{Searches.{AreOrdered}, Opened.{too_many}, Sums.{IsSmall}};
ghost use Rattle.tree_build.specs.Replacing.{MayPut, PutsNode};
ghost use Rattle.tree_build.specs.Moving.{standing, rest_of, IsNoLonger, has_entries, IsMoved};
ghost use Rattle.tree_build.specs.Moving.{path_fault, summary_fault};
ghost use Rattle.std.specs.FinMap as finmap;
ghost use Rattle.file_maps.specs.declared.fault.Fault.TheVariants as fault;

use crate::component::has_components;
use crate::copying::{copy_at, find_at};
use crate::counting::count;
use crate::dir::Node;
use crate::dropping::take_from;
use crate::extents::extent;
use crate::files::Files;
use crate::within::fits_below;
use content_pool::Pool;
use file_maps::Fault;
use git_objects::Naming;
use git_paths::{Components, Path};
use tenant_tables::{Objects, Sight, Summary, Table};

// Refuses files that cannot be put at a path, whatever else the branch has.
fn check_move(to: &Path, files: Summary) -> Result<(), Fault>
    requires { IsSmall files }
    ensures ok { OnOk result (summary_fault to.now files ≡ None) }
    ensures err { IfErr result (λ e. summary_fault to.now files ≡ Some e) }
{
    if files.files == 0 {
        Err(Fault::SourceMissing)
    } else if to.is_root() && files.depth == 0 {
        Err(Fault::RootNotDirectory)
    } else if fits_below(to, files) {
        Ok(())
    } else {
        Err(Fault::Limit)
    }
}

// Whether `to` has at most as many bytes and components as `from`, and neither is the root.
fn is_no_longer(to: &Path, from: &Components<'_>) -> bool
    ensures { IsTrue result → IsNoLonger to.now from.now }
{
    if to.is_root() || from.len() == 0 {
        return false;
    }
    to.as_bytes().len() <= from.as_bytes().len() && to.component_count() <= from.len()
}

// Whether a node is an opened directory with at least one entry.
fn has_entries(node: &Node) -> bool
    ensures { result ≡ has_entries (held node.now) }
{
    match node {
        Node::Opened(dir) => !dir.is_empty(),
        _ => false,
    }
}

impl Files {
    // A copy of what is at `from`, with the number of its files; or why it cannot be put at `to`.
    // Opens the directories on the way to `from`.
    fn copy_from<N: Naming>(
        &mut self,
        objects: &Objects<'_, N>,
        from: &Path,
        to: &Path,
    ) -> Result<(Node, usize), Fault>
        requires branch { IsBranch objects.now self.old }
        ensures moved { let os = objects.now in
            IfOk result (λ r. IsMoved os (files_at (files_in os self.old) from.now)
            (held r.0) r.1) }
        ensures clean { let os = objects.now in
            IfOk result (λ r. path_fault (moved to.now (files_at (files_in os self.old) from.now))
            ≡ None) }
        ensures refusal { let os = objects.now in
            IfErr result (λ e. e ≢ fault.Memory
            → path_fault (moved to.now (files_at (files_in os self.old) from.now)) ≡ Some e) }
        ensures branch { result ≢ Err fault.Memory → IsBranch objects.now self.new }
        ensures files { result ≢ Err fault.Memory → files_in objects.now self.new
            ≡ files_in objects.now self.old }
        ensures open { OnOk result ((q : FilePath)
            → closed_from self.new.root q ≤ closed_from self.old.root q) }
        ensures shut { OnOk result (closed_from self.new.root from.now ≡ 0) }
        ensures reads { CountsAtMost self.old self.new (closed_from self.old.root from.now) }
    {
        let from = from.components();
        objects.are_backed();
        self.open_to(objects, &from)?;
        let Some(node) = copy_at(self.alloc, &self.root, &from)? else {
            return Err(Fault::SourceMissing);
        };
        let files = extent(objects, &node);
        check_move(to, files)?;
        Ok((node, files.files as usize))
    }

    // Puts a node at a path, and removes the files that were at the path, below it, or at a prefix
    // of it; at the root, all. `total` is the number of files before that, plus those of the node.
    fn put_here<N: Naming>(
        &mut self,
        objects: &Objects<'_, N>,
        to: &Components<'_>,
        node: Node,
        total: usize,
    ) -> Result<(), Fault>
        requires directory { to.now ≡ [] → IsDirectory (held node).what }
        requires few { length (held_files (stored_files objects.now) (held node)) ≤ files_limit }
        requires may { MayPut objects.now to.now (held node) total self.old }
        ensures { PutsNode objects.now result to.now (held node) self.old self.new }
    {
        if to.len() == 0 {
            let files = total - count(objects, &self.root);
            self.root = node;
            self.files = files;
            return Ok(());
        }
        self.put_node(objects, to, node, total)
    }

    // Puts a copy at a path. `files` is the number of its files.
    fn put_moved<N: Naming>(
        &mut self,
        objects: &Objects<'_, N>,
        to: &Path,
        node: Node,
        files: usize,
    ) -> Result<(), Fault>
        requires branch { IsBranch objects.now self.old }
        requires held { IsHeld objects.now (held node) }
        requires directory { to.now ≡ [] → IsDirectory (held node).what }
        requires full { held_files (stored_files objects.now) (held node) ≢ [] }
        requires added { files ≡ length (held_files (stored_files objects.now) (held node)) }
        requires few { files ≤ files_limit }
        requires good { let os = objects.now in
            let after = put_tree_at (files_in os self.old) to.now
            (held_files (stored_files os) (held node)) in
            finmap.len after ≤ files_limit → AreFiles (listed after) }
        ensures edits { let os = objects.now in
            let m = files_in os self.old in
            let after = put_tree_at m to.now (held_files (stored_files os) (held node)) in
            Edits result m (files_in os self.new) (too_many (finmap.len after)) after }
        ensures branch { result ≢ Err fault.Memory → IsBranch objects.now self.new }
        ensures reads { CountsAtMost self.old self.new (closed_from self.old.root to.now) }
        ensures open { OnOk result ((q : FilePath) → strip_prefix to.now q ≡ None
            → closed_from self.new.root q ≤ closed_from self.old.root q) }
    {
        let to = to.components();
        self.open_to(objects, &to)?;
        let total = self.file_count() + files;
        self.put_here(objects, &to, node, total)
    }

    // Takes out what is at a path, and does not change the number of files.
    fn take_source(&mut self, from: &Components<'_>) -> Option<Node>
        requires { AreOrdered self.old.root.inside }
        ensures rest { self.new ≡ record {
          root = rest_of from.now self.old.root;
          files = self.old.files;
          reads = self.old.reads;
        } }
        ensures node { option_map held result ≡ standing from.now (Some self.old.root) }
    {
        take_from(self.alloc, &mut self.root, from)
    }

    /// Copies the files at or below `from` to `to`, and removes the files that were at `to`, below
    /// it, or at a prefix of it: git-fast-import(1), "filecopy".
    ///
    /// `pool` and `table` hold the trees of this value. The files at `from` are taken as they were
    /// before the call, also if one path is below the other. A directory that is a stored tree is
    /// copied by the name of that tree, and no tree below it is read. Reads at most as many trees
    /// as both paths together have components.
    ///
    /// `Fault::SourceMissing` (18) if there is no file at or below `from`; else
    /// `Fault::RootNotDirectory` (20) if a file would be at the root; else `Fault::Limit` (25) if a
    /// path would be too long or there would be too many files, as in `put`. After these errors the
    /// files are as before. Takes memory for the path, for the entries of the trees that it reads,
    /// and for those of edited directories that it copies. After `Fault::Memory` (90) the value may
    /// only be cleared or dropped.
    pub fn copy<N: Naming>(
        &mut self,
        pool: &Pool<N>,
        table: &Table,
        from: &Path,
        to: &Path,
    ) -> Result<(), Fault>
        requires stands { IsBackedBy N.digest_of pool.now table.now.entries }
        requires branch { IsBranch (objects pool.now table.now.entries) self.old }
        ensures edits { let os = objects pool.now table.now.entries in
            let m = files_in os self.old in
            let after = copied m from.now to.now in
            Edits result m (files_in os self.new)
            (move_fault (moved to.now (files_at m from.now)) after) after }
        ensures branch { result ≢ Err fault.Memory
            → IsBranch (objects pool.now table.now.entries) self.new }
        ensures reads { CountsAtMost self.old self.new
            (closed_from self.old.root from.now + closed_from self.old.root to.now) }
        ensures few { self.new.reads ≤ self.old.reads + (length from.now + length to.now) }
        ensures open { OnOk result ((q : FilePath) → strip_prefix to.now q ≡ None
            → closed_from self.new.root q ≤ closed_from self.old.root q) }
    {
        let objects = Objects::of(pool, table, Sight::All);
        self.walk_reads_few(from);
        self.walk_reads_few(to);
        has_components(&to.components());
        let (node, files) = self.copy_from(&objects, from, to)?;
        self.put_moved(&objects, to, node, files)
    }

    // Refuses what is at `from` if it cannot be put at `to`. If `to` is no longer than `from`, no
    // path gets too long, and the files are not walked.
    fn check_source<N: Naming>(
        &self,
        objects: &Objects<'_, N>,
        from: &Components<'_>,
        to: &Path,
    ) -> Result<(), Fault>
        requires branch { IsBranch objects.now self.now }
        requires shut { closed_from self.now.root from.now ≡ 0 }
        ensures ok { let os = objects.now in
            OnOk result (path_fault (moved to.now (files_at (files_in os self.now) from.now))
            ≡ None) }
        ensures err { let os = objects.now in
            IfErr result (λ e. path_fault (moved to.now (files_at (files_in os self.now) from.now))
            ≡ Some e) }
    {
        let Some(node) = find_at(&self.root, from) else {
            return Err(Fault::SourceMissing);
        };
        if has_entries(node) && is_no_longer(to, from) {
            return Ok(());
        }
        check_move(to, extent(objects, node))
    }

    // Opens the directories on the way to `from`. Refuses what is there if it cannot be put at
    // `to`.
    fn open_source<N: Naming>(
        &mut self,
        objects: &Objects<'_, N>,
        from: &Path,
        to: &Path,
    ) -> Result<(), Fault>
        requires branch { IsBranch objects.now self.old }
        ensures clean { let os = objects.now in
            OnOk result (path_fault (moved to.now (files_at (files_in os self.old) from.now))
            ≡ None) }
        ensures refusal { let os = objects.now in
            IfErr result (λ e. e ≢ fault.Memory
            → path_fault (moved to.now (files_at (files_in os self.old) from.now)) ≡ Some e) }
        ensures branch { result ≢ Err fault.Memory → IsBranch objects.now self.new }
        ensures files { result ≢ Err fault.Memory → files_in objects.now self.new
            ≡ files_in objects.now self.old }
        ensures open { OnOk result ((q : FilePath)
            → closed_from self.new.root q ≤ closed_from self.old.root q) }
        ensures shut { OnOk result (closed_from self.new.root from.now ≡ 0) }
        ensures reads { CountsAtMost self.old self.new (closed_from self.old.root from.now) }
    {
        let from = from.components();
        self.open_to(objects, &from)?;
        self.check_source(objects, &from, to)
    }

    // Moves what is at `from` to `to`, after `open_source` has not refused it.
    fn move_source<N: Naming>(
        &mut self,
        objects: &Objects<'_, N>,
        from: &Path,
        to: &Path,
    ) -> Result<(), Fault>
        requires branch { IsBranch objects.now self.old }
        requires shut { closed_from self.old.root from.now ≡ 0 }
        requires clean { let os = objects.now in
            path_fault (moved to.now (files_at (files_in os self.old) from.now)) ≡ None }
        ensures edits { let os = objects.now in
            let m = files_in os self.old in
            let after = renamed m from.now to.now in
            Edits result m (files_in os self.new)
            (move_fault (moved to.now (files_at m from.now)) after) after }
        ensures branch { result ≢ Err fault.Memory → IsBranch objects.now self.new }
        ensures reads { CountsAtMost self.old self.new (closed_from self.old.root to.now) }
        ensures open { OnOk result ((q : FilePath) → strip_prefix to.now q ≡ None
            → closed_from self.new.root q ≤ closed_from self.old.root q) }
    {
        let to = to.components();
        has_components(&to);
        self.open_to(objects, &to)?;
        let total = self.file_count();
        let Some(node) = self.take_source(&from.components()) else {
            return Ok(());
        };
        self.put_here(objects, &to, node, total)
    }

    /// Moves the files at or below `from` to `to`, and removes the files that were at `to`, below
    /// it, or at a prefix of it: git-fast-import(1), "filerename".
    ///
    /// As `copy`, with the same errors, but the files are first taken out at `from`. So `a` may be
    /// renamed to `a/b`. A directory moves as it is: nothing below it is copied, and what was
    /// opened stays opened. Reads at most as many trees as both paths together have components, and
    /// takes memory for their entries and for the path.
    pub fn rename<N: Naming>(
        &mut self,
        pool: &Pool<N>,
        table: &Table,
        from: &Path,
        to: &Path,
    ) -> Result<(), Fault>
        requires stands { IsBackedBy N.digest_of pool.now table.now.entries }
        requires branch { IsBranch (objects pool.now table.now.entries) self.old }
        ensures edits { let os = objects pool.now table.now.entries in
            let m = files_in os self.old in
            let after = renamed m from.now to.now in
            Edits result m (files_in os self.new)
            (move_fault (moved to.now (files_at m from.now)) after) after }
        ensures branch { result ≢ Err fault.Memory
            → IsBranch (objects pool.now table.now.entries) self.new }
        ensures reads { CountsAtMost self.old self.new
            (closed_from self.old.root from.now + closed_from self.old.root to.now) }
        ensures few { self.new.reads ≤ self.old.reads + (length from.now + length to.now) }
        ensures open { OnOk result ((q : FilePath) → strip_prefix to.now q ≡ None
            → closed_from self.new.root q ≤ closed_from self.old.root q) }
    {
        let objects = Objects::of(pool, table, Sight::All);
        self.walk_reads_few(from);
        self.walk_reads_few(to);
        self.open_source(&objects, from, to)?;
        self.move_source(&objects, from, to)
    }
}
