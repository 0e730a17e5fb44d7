//! Why a frame was not read, or an answer not written.

ghost use Rattle.std.specs.Prelude.{◌≡◌};
ghost use Rattle.service_steps.specs.FrameFaults.{code_of};
ghost use Rattle.service_steps.specs.declared.frame_fault.FrameFault.TheVariants as fault;

use byte_devices::{DeviceFault, FillFault};
use std::alloc::AllocError;
use thiserror::Error;

/// Why a frame was not read, or an answer not written.
#[derive(Clone, Copy, Debug, PartialEq, Eq, Error)]
pub enum FrameFault {
    /// The kind of a frame is unknown, or its kind does not allow one of its lengths: 50.
    #[error("fault 50")]
    BadFrame = 50,
    /// The input ended inside a frame: 51.
    #[error("fault 51")]
    CutOff = 51,
    /// A call of the reader or the writer failed, or 2^32 frames were read: 68.
    #[error("fault 68")]
    Device = 68,
    /// Memory ran out: 90.
    #[error("fault 90")]
    Memory = 90,
}

impl FrameFault {
    /// The number of the fault, for messages and exit statuses.
    pub fn code(self) -> u16
        ensures { result ≡ code_of self }
    {
        self as u16
    }
}

impl From<DeviceFault> for FrameFault {
    ghost from_gives = { λ _ refused. refused ≡ fault.Device };

    fn from(_refused: DeviceFault) -> FrameFault {
        FrameFault::Device
    }
}

impl From<FillFault> for FrameFault {
    ghost use Rattle.service_steps.specs.FrameFaults.{frame_fault};

    ghost from_gives = { λ short refused. refused ≡ frame_fault short };

    fn from(short: FillFault) -> FrameFault {
        match short {
            FillFault::Ended => FrameFault::CutOff,
            FillFault::Failed => FrameFault::Device,
        }
    }
}

impl From<AllocError> for FrameFault {
    ghost from_gives = { λ _ refused. refused ≡ fault.Memory };

    fn from(_refused: AllocError) -> FrameFault {
        FrameFault::Memory
    }
}
