//! Why a path could not be read.

ghost use Rattle.std.specs.Prelude.{◌≡◌};
ghost use Rattle.git_paths.specs.Faults.{code_of};
ghost use Rattle.git_paths.specs.declared.fault.Fault.TheVariants as fault;

use std::alloc::AllocError;
use thiserror::Error;

/// Why a path could not be read.
#[derive(Clone, Copy, Debug, PartialEq, Eq, Error)]
pub enum Fault {
    /// The text is not a path, or the path does not end as its place requires: 10.
    #[error("bad path")]
    BadPath = 10,
    /// The path has more than 16,383 bytes or 256 components: 25.
    #[error("path too long")]
    Limit = 25,
    /// An allocation failed: 90.
    #[error("out of memory")]
    Memory = 90,
}

impl Fault {
    /// The number of the fault: 10 bad path, 25 limit, 90 out of memory.
    pub fn code(&self) -> u16
        ensures { result ≡ code_of self.now }
    {
        *self as u16
    }
}

impl From<AllocError> for Fault {
    ghost from_gives = { λ _ refused. refused ≡ fault.Memory };

    fn from(_refused: AllocError) -> Fault {
        Fault::Memory
    }
}
