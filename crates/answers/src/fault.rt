//! Why a query is refused.

ghost use Rattle.std.specs.Prelude.{◌≡◌};
ghost use Rattle.answers.specs.Faults.{code_of};
ghost use Rattle.answers.specs.declared.fault.Fault.TheVariants as fault;

use git_objects::Memory;
use thiserror::Error;

/// Why a query has no answer.
#[derive(Clone, Copy, Debug, PartialEq, Eq, Error)]
pub enum Fault {
    /// What it names cannot be peeled to the kind that is asked for, 15.
    #[error("wrong kind")]
    WrongKind = 15,
    /// It names nothing that the repository has, 16.
    #[error("unknown revision")]
    UnknownRevision = 16,
    /// Several object names begin with the digits, 17.
    #[error("ambiguous abbreviation")]
    Ambiguous = 17,
    /// There are too many refs to be exported, 25.
    #[error("limit")]
    Limit = 25,
    /// No query begins with this word, 40.
    #[error("unknown query")]
    UnknownQuery = 40,
    /// The query is too long, or what stands after its word is not what the word asks for, 41.
    #[error("malformed query")]
    MalformedQuery = 41,
    /// An allocation failed, 90.
    #[error("out of memory")]
    Memory = 90,
}

impl Fault {
    /// The number of the fault: 15 wrong kind, 16 unknown revision, 17 ambiguous, 25 limit, 40
    /// unknown query, 41 malformed query, 90 out of memory.
    pub fn code(self) -> u16
        ensures { result ≡ code_of self }
    {
        self as u16
    }
}

impl From<revisions::Fault> for Fault {
    ghost use Rattle.answers.specs.Faults.{resolving_fault};

    ghost from_gives = { λ refusal e. e ≡ resolving_fault refusal };

    fn from(refusal: revisions::Fault) -> Fault {
        match refusal {
            revisions::Fault::Malformed => Fault::MalformedQuery,
            revisions::Fault::WrongKind => Fault::WrongKind,
            revisions::Fault::UnknownRevision => Fault::UnknownRevision,
            revisions::Fault::Ambiguous => Fault::Ambiguous,
            revisions::Fault::Memory => Fault::Memory,
        }
    }
}

impl From<export_text::Fault> for Fault {
    ghost use Rattle.answers.specs.Faults.{exporting_fault};

    ghost from_gives = { λ refusal e. e ≡ exporting_fault refusal };

    fn from(refusal: export_text::Fault) -> Fault {
        match refusal {
            export_text::Fault::Limit => Fault::Limit,
            export_text::Fault::Memory => Fault::Memory,
        }
    }
}

impl From<Memory> for Fault {
    ghost from_gives = { λ _ refused. refused ≡ fault.Memory };

    fn from(_refused: Memory) -> Fault {
        Fault::Memory
    }
}
