//! Why the files of a branch could not be changed or stored.

ghost use Rattle.std.specs.Prelude.{◌≡◌};
ghost use Rattle.file_maps.specs.Faults.{fault_code};
ghost use Rattle.file_maps.specs.declared.fault.Fault.TheVariants as fault;

use git_objects::Memory;
use thiserror::Error;

/// Why a call of `Files` was refused.
#[derive(Clone, Copy, Debug, PartialEq, Eq, Error)]
pub enum Fault {
    /// The table has no object of this name: 14.
    #[error("object unknown")]
    ObjectUnknown = 14,
    /// The object is no tree: 15.
    #[error("wrong kind")]
    WrongKind = 15,
    /// No file stands at or below the source: 18.
    #[error("source missing")]
    SourceMissing = 18,
    /// A file would stand at the root: 20.
    #[error("root must be a directory")]
    RootNotDirectory = 20,
    /// The table has another object under the name of a tree: 24.
    #[error("object name collision")]
    NameCollision = 24,
    /// A path would be too long, or there would be too many files or objects: 25.
    #[error("limit exceeded")]
    Limit = 25,
    /// An allocation failed: 90.
    #[error("out of memory")]
    Memory = 90,
}

impl Fault {
    /// The number of the fault: 14 object unknown, 15 wrong kind, 18 source missing, 20 root, 24
    /// name collision, 25 limit, 90 out of memory.
    pub fn code(self) -> u16
        ensures { result ≡ fault_code self }
    {
        self as u16
    }
}

impl From<Memory> for Fault {
    ghost from_gives = { λ _ refused. refused ≡ fault.Memory };

    fn from(_refused: Memory) -> Fault {
        Fault::Memory
    }
}
