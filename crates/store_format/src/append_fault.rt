//! Why nothing could be appended to a file of rows or records.

use git_names::Memory;
use std::alloc::AllocError;
use thiserror::Error;

/// Why rows or records were not appended.
#[derive(Clone, Copy, Debug, PartialEq, Eq, Error)]
pub enum AppendFault {
    /// The file would have 2^32 of them, or 2^64 bytes: 25.
    #[error("fault 25")]
    Limit = 25,
    /// Memory ran out: 90.
    #[error("fault 90")]
    Memory = 90,
}

impl AppendFault {
    /// The number of the fault.
    pub fn code(self) -> u16 {
        self as u16
    }
}

impl From<AllocError> for AppendFault {
    fn from(_refused: AllocError) -> AppendFault {
        AppendFault::Memory
    }
}

impl From<Memory> for AppendFault {
    fn from(_refused: Memory) -> AppendFault {
        AppendFault::Memory
    }
}
