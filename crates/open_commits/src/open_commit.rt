//! An open commit: its header and message, and its parents and files so far.
//!
//! It owns what must outlive the items of its stream. It refers to objects by name and never by
//! position, so that objects that are added later do not change it.

ghost use Rattle.std.specs.Prelude.{◌≡◌, List, IfOk};
ghost use Rattle.git_model.specs.Repository.{Object};
ghost use Rattle.tree_build.specs.Branch.{IsBranch, files_in};
ghost use Rattle.open_commits.specs.OpenCommit.{begun_on, commit_held, header_shown, shown_in};
ghost use Rattle.open_commits.specs.OpenCommit.{IsCommitHeld};

use git_names::{Ident, Memory, Name, RefName};
use std::alloc::Global;
use stream_grammar::Mark;
use tree_build::Files;

/// What the lines of a commit before its message say.
#[derive(Drop)]
pub struct Header {
    /// The ref of its branch.
    pub ref_name: RefName,
    /// The mark to set when the commit ends.
    pub mark: Option<Mark>,
    /// Who wrote the commit; if absent, the committer did.
    pub author: Option<Ident>,
    /// Who made the commit.
    pub committer: Ident,
    /// The encoding of the message, if it is not UTF-8.
    pub encoding: Option<Vec<u8>>,
}

/// A commit from its message to its end.
#[derive(Drop)]
pub struct OpenCommit {
    pub(crate) alloc: Global,
    /// What the lines before its message say.
    pub header: Header,
    pub(crate) message: Vec<u8>,
    pub(crate) parents: Vec<Name>,
    pub(crate) files: Files,
}

impl OpenCommit {
    /// Begins a commit without parents, on the given files: git-fast-import(1), "commit". If its
    /// branch is at a commit, call `start_from` with that commit; if the files are known to be
    /// those of that commit, no tree is read again. Otherwise call `delete_all`.
    ///
    /// `Memory` (90) if the copy of the message cannot be allocated. Later calls allocate from
    /// `alloc` too.
    pub fn begin(
        alloc: Global,
        header: Header,
        message: &[u8],
        files: Files,
    ) -> Result<OpenCommit, Memory>
        ensures begun { (os : List Object) → IfOk result (λ commit. shown_in os commit
            ≡ begun_on (header_shown header) message.now (files_in os files)) }
        ensures held { (os : List Object) → IsBranch os files
            → IfOk result (λ commit. IsCommitHeld os commit) }
    {
        let message = Vec::from_slice(alloc, message)?;
        Ok(OpenCommit {
            alloc,
            header,
            message,
            parents: Vec::new(alloc),
            files,
        })
    }

    /// The files of the commit, for the next one. Directories that were opened stay opened, and
    /// after `close` the root is known to be the tree of the commit.
    pub fn into_files(self) -> Files
        ensures { result ≡ (commit_held self).files }
    {
        self.files
    }
}
