//! Why an expression or a range names nothing.

ghost use Rattle.std.specs.Prelude.{◌≡◌};
ghost use Rattle.revisions.specs.Faults.{code_of};
ghost use Rattle.revisions.specs.declared.fault.Fault.TheVariants as fault;

use git_objects::Memory;
use std::alloc::AllocFailed;
use thiserror::Error;

/// Why an expression or a range was refused: gitrevisions(7).
#[derive(Clone, Copy, Debug, PartialEq, Eq, Error)]
pub enum Fault {
    /// The text is no expression, 3.
    #[error("malformed expression")]
    Malformed = 3,
    /// What it names cannot be peeled to the kind that is asked for, 15.
    #[error("wrong kind")]
    WrongKind = 15,
    /// It names nothing that the repository has, 16.
    #[error("unknown revision")]
    UnknownRevision = 16,
    /// Several object names begin with the digits, 17.
    #[error("ambiguous abbreviation")]
    Ambiguous = 17,
    /// An allocation failed, 90.
    #[error("out of memory")]
    Memory = 90,
}

impl Fault {
    /// The number of the fault: 3 malformed, 15 wrong kind, 16 unknown revision, 17 ambiguous,
    /// 90 out of memory.
    pub fn code(self) -> u16
        ensures { result ≡ code_of self }
    {
        self as u16
    }
}

impl From<Memory> for Fault {
    ghost from_gives = { λ _ refused. refused ≡ fault.Memory };

    fn from(_refused: Memory) -> Fault {
        Fault::Memory
    }
}

impl<T: Drop> From<AllocFailed<T>> for Fault {
    ghost from_gives = { λ _ refused. refused ≡ fault.Memory };

    fn from(_refused: AllocFailed<T>) -> Fault {
        Fault::Memory
    }
}
