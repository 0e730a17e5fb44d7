//! Changes to the files of an open commit: git-fast-import(1), "filemodify" to "filedeleteall".

ghost use Rattle.std.specs.Prelude.{◌≡◌, ◌≢◌, List, [], None, Some, Ok, Err, OnOk};
ghost use Rattle.git_model.specs.Repository.{Object};
ghost use Rattle.tenant_tables.specs.{Objects.{objects}, IsBackedBy.{IsBackedBy}};
ghost use Rattle.open_commits.specs.OpenCommit.{commit_held, shown_in, tree_known, IsCommitHeld};
ghost use Rattle.open_commits.specs.Changes.{entry_of, modified, file_put, tree_put, deleted};
ghost use Rattle.open_commits.specs.{Changes.{copied_to, renamed_to, all_deleted}, Calls.{Changes}};
ghost use Rattle.git_model.specs.declared.file_mode.FileMode.TheVariants as mode;

use crate::datarefs::{blob_of, link_of, tree_of};
use crate::fault::Fault;
use crate::open_commit::OpenCommit;
use content_pool::Pool;
use file_maps::Entry;
use git_objects::{FileMode, Name, Naming};
use git_paths::Path;
use stream_grammar::DataRef;
use stream_marks::Marks;
use tenant_tables::{Objects, Sight, Table};

fn gitlink_to(name: Name) -> Entry
    ensures { result ≡ entry_of mode.Gitlink name }
{
    Entry {
        mode: FileMode::Gitlink,
        name,
    }
}

impl OpenCommit {
    /// `M`: puts a file, a gitlink or a stored tree at a path, and replaces what is there, below it
    /// or at a prefix of it: git-fast-import(1), "filemodify".
    ///
    /// The mode says what the dataref must name: for a file a blob, for a gitlink a commit by its
    /// mark or any name, for a directory a tree by its name. `Fault::MarkUnknown` (13) if its mark
    /// is not set, `Fault::ObjectUnknown` (14) if the table has no object of its name,
    /// `Fault::WrongKind` (15) if the object is of another kind, or a tree that has no summary. A mark knows the kind of its
    /// object, which is not looked up. Then `Fault::RootNotDirectory` (20) if anything but a
    /// tree would be at the root, and `Fault::Limit` (25) if a path would have more than 16,383
    /// bytes or 256 components, or the commit more than 1,048,576 files. The commit is unchanged
    /// after these. If an allocation fails, the answer is `Fault::Memory` (90); drop the commit
    /// then.
    ///
    /// `pool` holds the contents of `table`.
    pub fn modify<N: Naming>(
        &mut self,
        pool: &Pool<N>,
        table: &Table,
        marks: &Marks,
        mode: FileMode,
        object: DataRef,
        path: &Path,
    ) -> Result<(), Fault>
        requires stands { IsBackedBy N.digest_of pool.now table.now.entries }
        requires held { IsCommitHeld (objects pool.now table.now.entries) self.old }
        ensures changes { let os = objects pool.now table.now.entries in
            Changes (modified os marks.now.entries mode object path.now (shown_in os self.old))
            (shown_in os self.old) (shown_in os self.new) result }
        ensures held { result ≢ Err Fault.Memory
            → IsCommitHeld (objects pool.now table.now.entries) self.new }
    {
        match mode {
            FileMode::Directory => {
                let tree = tree_of(&Objects::of(pool, table, Sight::All), marks, object)?;
                self.put_tree(pool, table, path, &tree)
            }
            FileMode::Gitlink => {
                let name = link_of(marks, object)?;
                self.put_file(pool, table, path, gitlink_to(name))
            }
            _ => {
                let name = blob_of(&Objects::of(pool, table, Sight::All), marks, object)?;
                self.put_file(pool, table, path, Entry { mode, name })
            }
        }
    }

    /// `D`: removes what is at a path or below it; at the root, all files. If nothing is there,
    /// nothing changes: git-fast-import(1), "filedelete".
    ///
    /// The only refusal is `Fault::Memory` (90), if an allocation fails; drop the commit then.
    /// `pool` holds the contents of `table`.
    pub fn delete<N: Naming>(
        &mut self,
        pool: &Pool<N>,
        table: &Table,
        path: &Path,
    ) -> Result<(), Fault>
        requires stands { IsBackedBy N.digest_of pool.now table.now.entries }
        requires held { IsCommitHeld (objects pool.now table.now.entries) self.old }
        ensures changes { let os = objects pool.now table.now.entries in
            Changes (Ok (deleted path.now (shown_in os self.old))) (shown_in os self.old)
            (shown_in os self.new) result }
        ensures held { result ≢ Err Fault.Memory
            → IsCommitHeld (objects pool.now table.now.entries) self.new }
    {
        self.files.drop_path(pool, table, path)?;
        Ok(())
    }

    /// `C`: copies the files at or below `source` to `path`, and replaces what is there:
    /// git-fast-import(1), "filecopy".
    ///
    /// `Fault::SourceMissing` (18) if no file is at or below the source, `Fault::RootNotDirectory`
    /// (20) if a file would be at the root, `Fault::Limit` (25) as for `modify`. The commit is
    /// unchanged after these. If an allocation fails, the answer is `Fault::Memory` (90); drop the
    /// commit then. `pool` holds the contents of `table`.
    pub fn copy<N: Naming>(
        &mut self,
        pool: &Pool<N>,
        table: &Table,
        source: &Path,
        path: &Path,
    ) -> Result<(), Fault>
        requires stands { IsBackedBy N.digest_of pool.now table.now.entries }
        requires held { IsCommitHeld (objects pool.now table.now.entries) self.old }
        ensures changes { let os = objects pool.now table.now.entries in
            Changes (copied_to source.now path.now (shown_in os self.old))
            (shown_in os self.old) (shown_in os self.new) result }
        ensures held { result ≢ Err Fault.Memory
            → IsCommitHeld (objects pool.now table.now.entries) self.new }
    {
        self.files.copy(pool, table, source, path)?;
        Ok(())
    }

    /// `R`: moves the files at or below `source` to `path`, and replaces what is there:
    /// git-fast-import(1), "filerename". The refusals, and what they leave, are those of `copy`.
    pub fn rename<N: Naming>(
        &mut self,
        pool: &Pool<N>,
        table: &Table,
        source: &Path,
        path: &Path,
    ) -> Result<(), Fault>
        requires stands { IsBackedBy N.digest_of pool.now table.now.entries }
        requires held { IsCommitHeld (objects pool.now table.now.entries) self.old }
        ensures changes { let os = objects pool.now table.now.entries in
            Changes (renamed_to source.now path.now (shown_in os self.old))
            (shown_in os self.old) (shown_in os self.new) result }
        ensures held { result ≢ Err Fault.Memory
            → IsCommitHeld (objects pool.now table.now.entries) self.new }
    {
        self.files.rename(pool, table, source, path)?;
        Ok(())
    }

    /// `deleteall`: removes all files: git-fast-import(1), "filedeleteall". Allocates nothing.
    pub fn delete_all(&mut self)
        ensures changes { (os : List Object)
            → shown_in os self.new ≡ all_deleted (shown_in os self.old) }
        ensures held { (os : List Object) → IsCommitHeld os self.new }
    {
        self.files.clear();
    }

    // Puts a file at a path, and replaces what is there.
    pub(crate) fn put_file<N: Naming>(
        &mut self,
        pool: &Pool<N>,
        table: &Table,
        path: &Path,
        entry: Entry,
    ) -> Result<(), Fault>
        requires file { entry.mode ≢ FileMode.Directory }
        requires stands { IsBackedBy N.digest_of pool.now table.now.entries }
        requires held { IsCommitHeld (objects pool.now table.now.entries) self.old }
        ensures changes { let os = objects pool.now table.now.entries in
            Changes (file_put path.now entry (shown_in os self.old)) (shown_in os self.old)
            (shown_in os self.new) result }
        ensures held { result ≢ Err Fault.Memory
            → IsCommitHeld (objects pool.now table.now.entries) self.new }
    {
        self.files.put(pool, table, path, entry)?;
        Ok(())
    }

    // Puts the files of a stored tree at and below a path, and replaces what is there.
    pub(crate) fn put_tree<N: Naming>(
        &mut self,
        pool: &Pool<N>,
        table: &Table,
        path: &Path,
        tree: &Name,
    ) -> Result<(), Fault>
        requires stands { IsBackedBy N.digest_of pool.now table.now.entries }
        requires held { IsCommitHeld (objects pool.now table.now.entries) self.old }
        ensures changes { let os = objects pool.now table.now.entries in
            Changes (tree_put os path.now tree.now (shown_in os self.old)) (shown_in os self.old)
            (shown_in os self.new) result }
        ensures held { result ≢ Err Fault.Memory
            → IsCommitHeld (objects pool.now table.now.entries) self.new }
        ensures kept { path.now ≡ [] → tree_known self.old ≡ Some tree.now
            → OnOk result ((commit_held self.new).files ≡ (commit_held self.old).files) }
    {
        self.files.graft(pool, table, path, tree)?;
        Ok(())
    }
}
