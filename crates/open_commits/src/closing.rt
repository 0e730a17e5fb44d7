//! The end of a commit: git-fast-import(1), "commit", and git-commit-tree(1).

ghost use Rattle.std.specs.Prelude.{◌≡◌, List, IfOk, OnErr, OnOk, unwrap_or};
ghost use Rattle.git_model.specs.{Commit.{commit_contents}, Repository.{Object}};
ghost use Rattle.tenant_tables.specs.{Lent.{Keeps}, Objects.{objects}, Room.{HasHoldsLeftBeside}};
ghost use Rattle.tenant_tables.specs.IsBackedBy.{IsBackedBy};
ghost use Rattle.file_maps.specs.{FileMap.{listed}, Trees.{nested_trees}};
ghost use Rattle.open_commits.specs.OpenCommit.{commit_held, shown_in, IsCommitHeld};
ghost use Rattle.open_commits.specs.{Ends.{closed, commit_of, KeepsFiles}, Storing.{LeavesTrees}};
ghost use Rattle.open_commits.specs.Calls.{AddsOnly, Gives};

use crate::fault::Fault;
use crate::open_commit::OpenCommit;
use crate::storing::store;
use content_pool::Pool;
use git_objects::{CommitParts, Ident, Kind, Memory, Name, Naming, write_commit};
use git_paths::Path;
use std::mem;
use tenant_tables::Table;

impl OpenCommit {
    /// Ends the commit: stores its trees, children first, and then the commit itself, and returns
    /// its name. An object that the table has already is not stored again. Afterwards the commit
    /// can only be dropped, or give its files to the next commit: they are unchanged, and known to
    /// be the stored tree.
    ///
    /// The objects are judged one by one in the order of storing: `Fault::Limit` (25) if the
    /// contents are too long or the table is full, else `Fault::NameCollision` (24) if the table
    /// has another object of the name. If an allocation fails, the answer is `Fault::Memory` (90).
    /// After a refusal the table may have some of the trees after its committed objects, the first
    /// ones in the order of storing; drop the commit then.
    ///
    /// `pool` holds the contents of `table`. Others hold each content fewer than 2^64 - 2 times.
    pub fn close<N: Naming>(&mut self, pool: &mut Pool<N>, table: &mut Table) -> Result<Name, Fault>
        requires stands { IsBackedBy N.digest_of pool.old table.old.entries }
        requires room { HasHoldsLeftBeside pool.old table.old.entries }
        requires held { IsCommitHeld (objects pool.old table.old.entries) self.old }
        ensures keeps { Keeps N.digest_of pool.old table.old pool.new table.new }
        ensures room { HasHoldsLeftBeside pool.new table.new.entries }
        ensures adds { AddsOnly pool.old table.old pool.new table.new }
        ensures trees { let os = objects pool.old table.old.entries in OnErr result
            (LeavesTrees N.digest_of
            (nested_trees N.digest_of (listed (shown_in os self.old).files)) os
            (objects pool.new table.new.entries)) }
        ensures done { Gives (closed N.digest_of (objects pool.old table.old.entries)
            (shown_in (objects pool.old table.old.entries) self.old))
            (λ id. record { id = id; objects = objects pool.new table.new.entries }) result }
        ensures held { OnOk result (IsCommitHeld (objects pool.new table.new.entries) self.new) }
        ensures files { OnOk result (KeepsFiles N.digest_of (objects pool.old table.old.entries)
            (objects pool.new table.new.entries) (commit_held self.old) (commit_held self.new)) }
    {
        let tree = self.files.store(pool, table, &Path::root(self.alloc))?;
        let contents = self.contents_with(tree)?;
        store(pool, table, Kind::Commit, &contents)
    }

    // The author, or the committer if no author was given.
    fn author(&self) -> &Ident
        ensures { result.now ≡ unwrap_or self.now.header.author self.now.header.committer }
    {
        match &self.header.author {
            Some(author) => author,
            None => &self.header.committer,
        }
    }

    // The contents of the commit object with this tree. Its parents are moved into them.
    fn contents_with(&mut self, tree: Name) -> Result<Vec<u8>, Memory>
        ensures contents { (os : List Object) → IfOk result (λ contents. contents.items
            ≡ commit_contents (commit_of tree (shown_in os self.old))) }
        ensures files { (commit_held self.new).files ≡ (commit_held self.old).files }
    {
        let parents = mem::replace(&mut self.parents, Vec::new(self.alloc));
        let parts = CommitParts {
            tree,
            ancestors: parents,
            author: self.author().as_bytes(),
            committer: self.header.committer.as_bytes(),
            encoding: self.header.encoding.as_deref(),
            message: &self.message,
        };
        let mut contents = Vec::new(self.alloc);
        write_commit(&parts, &mut contents)?;
        Ok(contents)
    }
}
