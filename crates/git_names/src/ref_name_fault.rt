//! Why a ref name could not be read.

ghost use Rattle.std.specs.Prelude.{◌≡◌};
ghost use Rattle.git_names.specs.Faults.{ref_name_code};
ghost use Rattle.git_names.specs.declared.ref_name_fault.RefNameFault.TheVariants as fault;

use std::alloc::AllocError;
use thiserror::Error;

/// Why a ref name could not be read.
#[derive(Clone, Copy, Debug, PartialEq, Eq, Error)]
pub enum RefNameFault {
    /// The text is neither a ref name nor `HEAD`: 11.
    #[error("bad ref name")]
    BadRefName = 11,
    /// The text has more than 1,024 bytes: 25.
    #[error("ref name too long")]
    Limit = 25,
    /// An allocation failed: 90.
    #[error("out of memory")]
    Memory = 90,
}

impl RefNameFault {
    /// The number of the fault: 11 bad ref name, 25 limit, 90 out of memory.
    pub fn code(&self) -> u16
        ensures { result ≡ ref_name_code self.now }
    {
        *self as u16
    }
}

impl From<AllocError> for RefNameFault {
    ghost from_gives = { λ _ refused. refused ≡ fault.Memory };

    fn from(_refused: AllocError) -> RefNameFault {
        RefNameFault::Memory
    }
}
