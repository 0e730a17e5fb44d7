//! Why something was not written.

ghost use Rattle.std.specs.Prelude.{◌≡◌};
ghost use Rattle.byte_devices.specs.WriteFaults.{code_of};
ghost use Rattle.byte_devices.specs.declared.write_fault.WriteFault.TheVariants as fault;

use crate::device_fault::DeviceFault;
use std::alloc::AllocError;
use std::io;
use std::io::ErrorKind;
use thiserror::Error;

/// Why lines were not written, or a file was not locked or replaced.
#[derive(Clone, Copy, Debug, PartialEq, Eq, Error)]
pub enum WriteFault {
    /// A call of the device or of the system failed, or somebody else has the lock file (68).
    #[error("fault 68")]
    Device = 68,
    /// Memory ran out (90).
    #[error("fault 90")]
    Memory = 90,
}

impl WriteFault {
    /// The number of the fault: 68 device, 90 out of memory.
    pub fn code(self) -> u16
        ensures { result ≡ code_of self }
    {
        self as u16
    }
}

impl From<DeviceFault> for WriteFault {
    ghost from_gives = { λ _ refused. refused ≡ fault.Device };

    fn from(_refused: DeviceFault) -> WriteFault {
        WriteFault::Device
    }
}

impl From<AllocError> for WriteFault {
    ghost from_gives = { λ _ refused. refused ≡ fault.Memory };

    fn from(_refused: AllocError) -> WriteFault {
        WriteFault::Memory
    }
}

impl From<io::Error> for WriteFault {
    ghost use Rattle.std.specs.IoError.{error_kind};
    ghost use Rattle.byte_devices.specs.WriteFaults.{fault_of};

    ghost from_gives = { λ error refused. refused ≡ fault_of (error_kind error) };

    fn from(error: io::Error) -> WriteFault {
        match error.kind() {
            ErrorKind::OutOfMemory => WriteFault::Memory,
            _ => WriteFault::Device,
        }
    }
}
