//! The refusals of a stream.

ghost use Rattle.std.specs.Prelude.{◌≡◌};
ghost use Rattle.stream_parts.specs.Faults.{code_of};
ghost use Rattle.stream_parts.specs.declared.fault.Fault.TheVariants as fault;

use git_objects::Memory;
use std::alloc::AllocError;
use thiserror::Error;

/// Why an item, or the end of a stream, was refused.
#[derive(Clone, Copy, Debug, PartialEq, Eq, Error)]
pub enum Fault {
    /// The grammar refuses the text of the item, or the item where it is. The number is that of the
    /// grammar's fault.
    #[error("{0}")]
    Text(stream_grammar::Fault),
    /// A commit-ish is no expression: 3.
    #[error("malformed expression")]
    Malformed,
    /// The stream asked for `done` and ended without it: 7.
    #[error("done missing")]
    DoneMissing,
    /// No object has this mark: 13.
    #[error("no object has this mark")]
    MarkUnknown,
    /// The repository has no object of this name: 14.
    #[error("no object has this name")]
    ObjectUnknown,
    /// The object is of another kind than the command asks for: 15.
    #[error("the object is of another kind")]
    WrongKind,
    /// An expression names nothing that the repository has, or a branch is unborn: 16.
    #[error("unknown revision")]
    UnknownRevision,
    /// Several object names begin with the abbreviation: 17.
    #[error("ambiguous abbreviation")]
    Ambiguous,
    /// No file is at or below the source of a copy or a rename: 18.
    #[error("no file stands there")]
    SourceMissing,
    /// A branch would start from itself: 19.
    #[error("a branch from itself")]
    BranchFromItself,
    /// A file would be at the root of a commit: 20.
    #[error("root must be a directory")]
    RootNotDirectory,
    /// The repository has another content of the same object name: 24.
    #[error("another content has this object name")]
    NameCollision,
    /// A limit is exceeded: 25.
    #[error("a limit is passed")]
    Limit,
    /// An allocation failed: 90.
    #[error("out of memory")]
    Memory,
}

impl Fault {
    /// The number of the fault, for replies and exit statuses.
    pub fn code(self) -> u16
        ensures { result ≡ code_of self }
    {
        match self {
            Fault::Text(text) => text.code(),
            Fault::Malformed => 3,
            Fault::DoneMissing => 7,
            Fault::MarkUnknown => 13,
            Fault::ObjectUnknown => 14,
            Fault::WrongKind => 15,
            Fault::UnknownRevision => 16,
            Fault::Ambiguous => 17,
            Fault::SourceMissing => 18,
            Fault::BranchFromItself => 19,
            Fault::RootNotDirectory => 20,
            Fault::NameCollision => 24,
            Fault::Limit => 25,
            Fault::Memory => 90,
        }
    }
}

impl From<AllocError> for Fault {
    ghost from_gives = { λ _ refused. refused ≡ fault.Memory };

    fn from(_refused: AllocError) -> Fault {
        Fault::Memory
    }
}

impl From<Memory> for Fault {
    ghost from_gives = { λ _ refused. refused ≡ fault.Memory };

    fn from(_refused: Memory) -> Fault {
        Fault::Memory
    }
}
