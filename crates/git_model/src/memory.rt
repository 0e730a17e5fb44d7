//! The error of calls that fail only if memory runs out.

ghost use Rattle.std.specs.Prelude.{◌≡◌};

use std::alloc::{AllocError, AllocFailed};
use thiserror::Error;

const OUT_OF_MEMORY: u16 = 90;

/// An allocation failed: 90. A call answers this only if one really failed.
#[derive(Clone, Copy, Debug, PartialEq, Eq, Error)]
#[error("out of memory")]
pub struct Memory;

impl Memory {
    /// The number of this fault, 90.
    pub fn code(self) -> u16
        ensures { result ≡ 90 }
    {
        OUT_OF_MEMORY
    }
}

impl From<AllocError> for Memory {
    ghost from_gives = { λ _ _. Unit {0} };

    fn from(_e: AllocError) -> Memory {
        Memory
    }
}

impl<T: Drop> From<AllocFailed<T>> for Memory {
    ghost from_gives = { λ _ _. Unit {0} };

    fn from(_e: AllocFailed<T>) -> Memory {
        Memory
    }
}
