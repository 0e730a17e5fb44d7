//! The parents of an open commit: git-fast-import(1), "from" and "merge".

ghost use Rattle.std.specs.Prelude.{◌≡◌, ◌≢◌, List, None, Some, Ok, Err, MatchResult, OnOk};
ghost use Rattle.git_model.specs.{CommitReading.{commit_read}, Readable.{IsReadable}};
ghost use Rattle.git_model.specs.{HeldObjects.{AreHeld}, References.{kind_named}};
ghost use Rattle.git_model.specs.Repository.{Object};
ghost use Rattle.tenant_tables.specs.{Objects.{objects}, IsBackedBy.{IsBackedBy}};
ghost use Rattle.file_maps.specs.StoredFiles.{tree_of_commit};
ghost use Rattle.open_commits.specs.OpenCommit.{commit_held, shown_in, tree_known, IsCommitHeld};
ghost use Rattle.open_commits.specs.{Parents.{started_from, merged}, Calls.{Changes}};
ghost use Rattle.git_model.specs.declared.kind.Kind.TheVariants as kind;

use crate::fault::Fault;
use crate::open_commit::OpenCommit;
use content_pool::Pool;
use git_objects::{Name, Naming, look_commit_tree};
use git_paths::Path;
use std::alloc::Global;
use tenant_tables::{Objects, Sight, Table};

/// How many parents a commit may have.
pub const PARENTS_LIMIT: usize = 1024;

// The name of the tree in a commit's contents, whoever wrote it.
fn tree_in(contents: &[u8]) -> Result<Name, Fault>
    ensures { IsReadable kind.Commit contents.now → result ≡ Ok (commit_read contents.now).tree }
{
    match look_commit_tree(contents) {
        Some(tree) => Ok(tree),
        None => Err(Fault::WrongKind),
    }
}

// The name of the tree of a commit in the table.
fn tree_of_commit<N: Naming>(pool: &Pool<N>, table: &Table, id: &Name) -> Result<Name, Fault>
    requires stands { IsBackedBy N.digest_of pool.now table.now.entries }
    ensures { let os = objects pool.now table.now.entries in AreHeld N.digest_of os
        → kind_named id.now os ≡ Some kind.Commit
        → MatchResult result (λ tree. tree ≡ tree_of_commit os id.now) (λ fault. ⊥) }
{
    match Objects::of(pool, table, Sight::All).get(id) {
        Some((_, contents)) => tree_in(contents),
        None => Err(Fault::ObjectUnknown),
    }
}

impl OpenCommit {
    /// `from`: makes the commit the first and so far only parent, and replaces the files by those
    /// of its tree: git-fast-import(1), "from". No tree is read. If the files are known to be that
    /// tree, directories that were opened stay opened.
    ///
    /// `id` must name a commit of the table. `Fault::WrongKind` (15) if its tree has no summary, and
    /// `Fault::Limit` (25) if its files exceed the limits of `modify`, which never happens to a
    /// commit that was made here; the commit is unchanged then.
    /// If an allocation fails, the answer is `Fault::Memory` (90); drop the commit then.
    ///
    /// `pool` holds the contents of `table`.
    pub fn start_from<N: Naming>(
        &mut self,
        pool: &Pool<N>,
        table: &Table,
        id: Name,
    ) -> Result<(), Fault>
        requires stands { IsBackedBy N.digest_of pool.now table.now.entries }
        requires held { IsCommitHeld (objects pool.now table.now.entries) self.old }
        ensures changes { let os = objects pool.now table.now.entries in AreHeld N.digest_of os
            → kind_named id os ≡ Some kind.Commit
            → Changes (started_from os id (shown_in os self.old)) (shown_in os self.old)
            (shown_in os self.new) result }
        ensures held { result ≢ Err Fault.Memory
            → IsCommitHeld (objects pool.now table.now.entries) self.new }
        ensures kept { let os = objects pool.now table.now.entries in AreHeld N.digest_of os
            → kind_named id os ≡ Some kind.Commit
            → tree_known self.old ≡ Some (tree_of_commit os id)
            → OnOk result ((commit_held self.new).files ≡ (commit_held self.old).files) }
    {
        let tree = tree_of_commit(pool, table, &id)?;
        self.put_tree(pool, table, &Path::root(self.alloc), &tree)?;
        self.parents.clear();
        self.parents.push(id).or(Err(Fault::Memory))?;
        Ok(())
    }

    /// `merge`: adds a parent. A commit that is given twice is a parent twice: git-fast-import(1),
    /// "merge".
    ///
    /// `Fault::Limit` (25) if there are 1,024 parents already, the first one included; the commit
    /// is unchanged then. If an allocation fails, the answer is `Fault::Memory` (90); drop the
    /// commit then.
    pub fn merge(&mut self, id: Name) -> Result<(), Fault>
        ensures changes { (os : List Object) → Changes (merged id (shown_in os self.old))
            (shown_in os self.old) (shown_in os self.new) result }
        ensures held { (os : List Object) → IsCommitHeld os self.old → IsCommitHeld os self.new }
    {
        if self.parents.len() >= PARENTS_LIMIT {
            return Err(Fault::Limit);
        }
        self.parents.push(id).or(Err(Fault::Memory))?;
        Ok(())
    }
}
