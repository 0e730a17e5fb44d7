//! What a tag names, as its line spells it: git-fast-import(1), "tag".

ghost use Rattle.std.specs.Prelude.{◌≡◌, IfOk};
ghost use Rattle.stream_grammar.specs.Shown.{commit_shown};

use git_objects::Memory;
use std::alloc::Global;
use std::marker::Model;
use stream_grammar::{CommitIsh, Mark};

/// A copy of a commit-ish, which outlives its line. It is looked up when it is used.
#[derive(Drop)]
pub struct Target {
    // The mark, if the commit-ish is one; else the words are the expression.
    mark: Option<Mark>,
    words: Vec<u8>,
}

impl Model for Target {
    ghost use Rattle.stream_grammar.specs.Names.{CommitIsh};
    ghost use Rattle.stream_parts.specs.Targets.{spelled};

    ghost Value = { CommitIsh };

    ghost view = { λ target. spelled target.mark target.words.items };
}

impl Target {
    /// A copy of the commit-ish of a line. `Memory` (90) if it cannot be allocated.
    pub fn copy_of(alloc: Global, said: &CommitIsh<'_>) -> Result<Target, Memory>
        ensures { IfOk result (λ target. target ≡ commit_shown said.now) }
    {
        let (mark, words) = match said {
            CommitIsh::Mark(mark) => (Some(*mark), Vec::new(alloc)),
            CommitIsh::Expression(words) => (None, Vec::from_slice(alloc, words)?),
        };
        Ok(Target { mark, words })
    }

    /// The same commit-ish, borrowed.
    pub fn lent(&self) -> CommitIsh<'_>
        ensures { commit_shown result ≡ self.now }
    {
        match self.mark {
            Some(mark) => CommitIsh::Mark(mark),
            None => CommitIsh::Expression(self.words.as_slice()),
        }
    }
}
