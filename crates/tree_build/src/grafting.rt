//! Putting a stored tree at a path of a branch, by its name. The tree is not read.

ghost use Rattle.std.specs.Prelude.{◌≡◌, ◌≢◌, ◌≤◌, ◌+◌, true, [], length, Some, None, Err, IsTrue};
ghost use Rattle.std.specs.Prelude.{OnOk, ◌↔◌};
ghost use Rattle.tenant_tables.specs.{Objects.{objects}, IsBackedBy.{IsBackedBy}};
ghost use Rattle.git_paths.specs.Paths.{strip_prefix};
ghost use Rattle.file_maps.specs.{Calls.{Edits}, FileMap.{Path as FilePath}, Grafts.{Grafts}};
ghost use Rattle.file_maps.specs.{Edits.{moved, put_tree_at, put_fault}, Storable.{files_summary}};
ghost use Rattle.file_maps.specs.{StoredFiles.{stored_files}, PlainTrees.{ListsPlain}};
ghost use Rattle.tree_build.specs.Branch.{files_in, IsBranch, root_name, CountsAtMost, closed_from};
ghost use Rattle.tree_build.specs.Limits.{may_stand, TakesTree};
ghost use Rattle.file_maps.specs.declared.fault.Fault.TheVariants as fault;

use crate::component::has_components;
use crate::dir::Node;
use crate::files::Files;
use crate::within::fits_below;
use content_pool::Pool;
use file_maps::{Fault, is_small, tree_summary};
use git_objects::{Name, Naming};
use git_paths::Path;
use tenant_tables::{Objects, Sight, Summary, Table};

// Whether files with this summary may be put below a path.
fn may_stand(path: &Path, files: Summary) -> bool
    ensures { result ≡ may_stand path.now files }
{
    if files.files == 0 {
        return true;
    }
    is_small(files) && fits_below(path, files)
}

impl Files {
    // Whether the root is known to be this stored tree.
    fn is_tree(&self, tree: &Name) -> bool
        ensures { IsTrue result ↔ (root_name self.now ≡ Some tree.now) }
    {
        match self.tree() {
            Some(known) => known == *tree,
            None => false,
        }
    }

    // Replaces all files by the `files` files of a stored tree. Nothing changes if the root is
    // known to be that tree.
    fn take_tree(&mut self, tree: &Name, files: usize)
        ensures { TakesTree tree.now files self.old self.new }
    {
        if !self.is_tree(tree) {
            self.root = Node::Unopened(*tree);
            self.files = files;
        }
    }

    /// Puts a stored tree at a path, and removes the files that were at the path, below it, or at a
    /// prefix of it; at the root, all: git-fast-import(1), "filemodify" with mode 040000. The empty
    /// tree only removes files. (Git's grafts, which replace parents of commits, are something
    /// else.)
    ///
    /// `pool` and `table` hold the trees of this value, and `table` also the tree `name`. That tree
    /// is not read. Reads at most as many trees as the path has components; at the root, none.
    ///
    /// `Fault::ObjectUnknown` (14) if the table has no object of this name; else
    /// `Fault::WrongKind` (15) if the object is not a tree; else `Fault::Limit` (25) if a path
    /// would have more than 16,383 bytes or 256 components, or if there would be more than
    /// 1,048,576 files. After these errors the files are as before. Takes memory for the path and
    /// for the entries of the trees on the way. After `Fault::Memory` (90) the value may only be
    /// cleared or dropped.
    pub fn graft<N: Naming>(
        &mut self,
        pool: &Pool<N>,
        table: &Table,
        path: &Path,
        name: &Name,
    ) -> Result<(), Fault>
        requires stands { IsBackedBy N.digest_of pool.now table.now.entries }
        requires branch { IsBranch (objects pool.now table.now.entries) self.old }
        ensures edits { let os = objects pool.now table.now.entries in
            Grafts result os name.now path.now (files_in os self.old) (files_in os self.new) }
        ensures branch { result ≢ Err fault.Memory
            → IsBranch (objects pool.now table.now.entries) self.new }
        ensures reads { CountsAtMost self.old self.new (closed_from self.old.root path.now) }
        ensures few { self.new.reads ≤ self.old.reads + length path.now }
        ensures open { OnOk result ((q : FilePath) → strip_prefix path.now q ≡ None
            → closed_from self.new.root q ≤ closed_from self.old.root q) }
        ensures kept { OnOk result (path.now ≡ [] → root_name self.old ≡ Some name.now
            → self.new ≡ self.old) }
    {
        let objects = Objects::of(pool, table, Sight::All);
        self.walk_reads_few(path);
        let summary = tree_summary(&objects, name)?;
        if !may_stand(path, summary) {
            return Err(Fault::Limit);
        }
        let files = summary.files as usize;
        if path.is_root() {
            self.take_tree(name, files);
            return Ok(());
        }
        self.put_tree(&objects, path, name, files)
    }

    // Puts a stored tree at a path below the root. `files` is the number of its files.
    fn put_tree<N: Naming>(
        &mut self,
        objects: &Objects<'_, N>,
        path: &Path,
        name: &Name,
        files: usize,
    ) -> Result<(), Fault>
        requires branch { IsBranch objects.now self.old }
        requires some { path.now ≢ [] }
        requires tree { ListsPlain objects.now name.now (stored_files objects.now name.now) }
        requires files { files ≡ length (stored_files objects.now name.now) }
        requires fits { may_stand path.now
            (files_summary (stored_files objects.now name.now)) ≡ true }
        ensures edits { let os = objects.now in
            let m = files_in os self.old in
            let files = stored_files os name.now in let after = put_tree_at m path.now files in
            Edits result m (files_in os self.new) (put_fault (moved path.now files) after) after }
        ensures branch { result ≢ Err fault.Memory → IsBranch objects.now self.new }
        ensures reads { CountsAtMost self.old self.new (closed_from self.old.root path.now) }
        ensures open { OnOk result ((q : FilePath) → strip_prefix path.now q ≡ None
            → closed_from self.new.root q ≤ closed_from self.old.root q) }
    {
        let path = path.components();
        has_components(&path);
        self.open_to(objects, &path)?;
        if files == 0 {
            self.take_out(objects, &path, true);
            return Ok(());
        }
        let total = self.file_count() + files;
        self.put_node(objects, &path, Node::Unopened(*name), total)
    }
}
