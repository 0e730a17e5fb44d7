//! The faults of an extraction.

ghost use Rattle.std.specs.Prelude.{◌≡◌};
ghost use Rattle.tenant_service.specs.Extracting.{code_of};

use thiserror::Error;

/// Why a tenant was not extracted to a pool file.
#[derive(Clone, Copy, Debug, PartialEq, Eq, Error)]
pub enum ExtractFault {
    /// The tenant has a stream, even a dead one (31). Nothing is written.
    #[error("fault 31")]
    StreamIsOpen = 31,
    /// No tenant can have this name (32). Nothing is written.
    #[error("fault 32")]
    BadTenantName = 32,
    /// A call of the writer failed (68). A prefix of the file is written.
    #[error("fault 68")]
    Device = 68,
    /// Memory ran out (90). A prefix of the file may be written.
    #[error("fault 90")]
    Memory = 90,
}

impl ExtractFault {
    /// The number of the fault, for messages and exit statuses.
    pub fn code(self) -> u16
        ensures { result ≡ code_of self }
    {
        self as u16
    }
}
