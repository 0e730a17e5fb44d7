//! Why no missing objects are told.

ghost use Rattle.std.specs.Prelude.{◌≡◌};
ghost use Rattle.missing_objects.specs.Faults.{code_of};
ghost use Rattle.missing_objects.specs.declared.fault.MissingFault.TheVariants as fault;

use git_objects::Memory;
use thiserror::Error;

/// Why no missing objects are told.
#[derive(Clone, Copy, Debug, PartialEq, Eq, Error)]
pub enum MissingFault {
    /// A wanted name is that of no object, 16.
    #[error("unknown want")]
    UnknownWant = 16,
    /// An allocation failed, 90.
    #[error("out of memory")]
    Memory = 90,
}

impl MissingFault {
    /// The number of the fault: 16 unknown want, 90 out of memory.
    pub fn code(self) -> u16
        ensures { result ≡ code_of self }
    {
        self as u16
    }
}

impl From<Memory> for MissingFault {
    ghost from_gives = { λ _ refused. refused ≡ fault.Memory };

    fn from(_refused: Memory) -> MissingFault {
        MissingFault::Memory
    }
}
