//! Why an open commit could not be changed, shown or ended.

ghost use Rattle.std.specs.Prelude.{◌≡◌};
ghost use Rattle.open_commits.specs.Faults.{code_of};
ghost use Rattle.open_commits.specs.declared.fault.Fault.TheVariants as fault;

use git_objects::Memory;
use thiserror::Error;

/// Why a call of an open commit is refused.
#[derive(Clone, Copy, Debug, PartialEq, Eq, Error)]
pub enum Fault {
    /// No object has this mark: 13.
    #[error("no object has this mark")]
    MarkUnknown = 13,
    /// The repository has no object of this name: 14.
    #[error("object unknown")]
    ObjectUnknown = 14,
    /// The object is of another kind than the command asks for: 15.
    #[error("the object is of another kind")]
    WrongKind = 15,
    /// No file is at or below the source: 18.
    #[error("source missing")]
    SourceMissing = 18,
    /// A file would be at the root: 20.
    #[error("root must be a directory")]
    RootNotDirectory = 20,
    /// The repository has another content of the same object name: 24.
    #[error("another content has this object name")]
    NameCollision = 24,
    /// A limit is exceeded: 25.
    #[error("a limit is passed")]
    Limit = 25,
    /// An allocation failed: 90.
    #[error("out of memory")]
    Memory = 90,
}

impl Fault {
    /// The number of the fault.
    pub fn code(self) -> u16
        ensures { result ≡ code_of self }
    {
        self as u16
    }
}

impl From<Memory> for Fault {
    ghost from_gives = { λ _ refused. refused ≡ fault.Memory };

    fn from(_refused: Memory) -> Fault {
        Fault::Memory
    }
}

impl From<file_maps::Fault> for Fault {
    ghost use Rattle.open_commits.specs.Faults.{editing_fault};

    ghost from_gives = { λ refusal refused. refused ≡ editing_fault refusal };

    fn from(refusal: file_maps::Fault) -> Fault {
        match refusal {
            file_maps::Fault::ObjectUnknown => Fault::ObjectUnknown,
            file_maps::Fault::WrongKind => Fault::WrongKind,
            file_maps::Fault::SourceMissing => Fault::SourceMissing,
            file_maps::Fault::RootNotDirectory => Fault::RootNotDirectory,
            file_maps::Fault::NameCollision => Fault::NameCollision,
            file_maps::Fault::Limit => Fault::Limit,
            file_maps::Fault::Memory => Fault::Memory,
        }
    }
}

impl From<tenant_tables::Fault> for Fault {
    ghost use Rattle.open_commits.specs.Faults.{storing_fault};

    ghost from_gives = { λ refusal refused. refused ≡ storing_fault refusal };

    fn from(refusal: tenant_tables::Fault) -> Fault {
        match refusal {
            tenant_tables::Fault::Limit => Fault::Limit,
            tenant_tables::Fault::NameCollision => Fault::NameCollision,
            tenant_tables::Fault::Memory => Fault::Memory,
        }
    }
}
