//! Commit-ishes: git-fast-import(1), "from".

use crate::mark::Mark;

/// How a command names a commit. The parser does not decide whether there is such a commit.
#[derive(Clone, Copy, PartialEq, Eq)]
pub enum CommitIsh<'a> {
    /// The commit that this mark was set to last.
    Mark(Mark),
    /// The name of a branch, or a revision expression; it may be empty.
    Expression(&'a [u8]),
}
