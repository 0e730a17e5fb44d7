//! Why a pool file was not read or written.

ghost use Rattle.std.specs.Prelude.{◌≡◌};
ghost use Rattle.pool_file_format.specs.Faults.{code_of};
ghost use Rattle.pool_file_format.specs.declared.fault.Fault.TheVariants as fault;

use crate::refusal::Refusal;
use byte_devices::{DeviceFault, FillFault};
use git_names::Memory;
use std::alloc::{AllocError, AllocFailed};
use thiserror::Error;

/// Why a pool file was not read or written, or a service not loaded from one or saved to one.
#[derive(Clone, Copy, Debug, PartialEq, Eq, Error)]
pub enum Fault {
    /// The bytes are not a valid pool file: 60 to 67, and 69.
    #[error("no pool file: {0}")]
    Refused(Refusal),
    /// A call of the reader or the writer failed, or 2^32 reads were made: 68.
    #[error("fault 68")]
    Device,
    /// Memory ran out: 90.
    #[error("fault 90")]
    Memory,
}

impl Fault {
    /// The number of the fault.
    pub fn code(self) -> u16
        ensures { result ≡ code_of self }
    {
        match self {
            Fault::Refused(refusal) => refusal.code(),
            Fault::Device => 68,
            Fault::Memory => 90,
        }
    }
}

impl From<DeviceFault> for Fault {
    ghost from_gives = { λ _ refused. refused ≡ fault.Device };

    fn from(_refused: DeviceFault) -> Fault {
        Fault::Device
    }
}

impl From<AllocError> for Fault {
    ghost from_gives = { λ _ refused. refused ≡ fault.Memory };

    fn from(_refused: AllocError) -> Fault {
        Fault::Memory
    }
}

impl<T: Drop> From<AllocFailed<T>> for Fault {
    ghost from_gives = { λ _ refused. refused ≡ fault.Memory };

    fn from(_refused: AllocFailed<T>) -> Fault {
        Fault::Memory
    }
}

impl From<Memory> for Fault {
    ghost from_gives = { λ _ refused. refused ≡ fault.Memory };

    fn from(_refused: Memory) -> Fault {
        Fault::Memory
    }
}
