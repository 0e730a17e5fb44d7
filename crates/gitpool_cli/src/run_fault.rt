//! Why a run failed, with the number of the fault and the exit status.

use gitpool::{ExtractFault, FrameFault, PackFault, PoolFault, StepFault, WriteFault};
use std::alloc::AllocError;
use std::io::ErrorKind;
use std::{fmt, io};

// Exit statuses other than 0.
const REFUSED: u8 = 1;

const NO_POOL: u8 = 3;

const DEVICE: u8 = 4;

const MEMORY: u8 = 5;

/// The first fault of a run. Its text is `fault` and its number.
#[derive(Clone, Copy)]
pub enum RunFault {
    /// A step or a stream was refused, under this number.
    Step(u16),
    /// The frames of steps were refused.
    Frames(FrameFault),
    /// The pool file was refused, or not written.
    Pool(PoolFault),
    /// Standard input or output failed, or the pool file was not there or could not be replaced
    /// (68).
    Device,
    /// Memory ran out (90).
    Memory,
}

impl RunFault {
    /// The number of the fault.
    pub fn code(self) -> u16 {
        match self {
            RunFault::Step(code) => code,
            RunFault::Frames(fault) => fault.code(),
            RunFault::Pool(fault) => fault.code(),
            RunFault::Device => 68,
            RunFault::Memory => 90,
        }
    }

    /// The exit status of a run that failed with this fault: 1 if a step, a stream, a frame or a
    /// call for a tenant was refused, 3 if the pool file was refused, 4 if a device failed, 5 if memory ran
    /// out.
    pub fn status(self) -> u8 {
        match self.code() {
            68 => DEVICE,
            90 => MEMORY,
            60..=69 => NO_POOL,
            _ => REFUSED,
        }
    }
}

impl fmt::Display for RunFault {
    fn fmt<W: fmt::Write>(&self, f: &mut fmt::Formatter<W>) -> fmt::Result {
        write!(f, "fault {}", self.code())
    }
}

impl From<StepFault> for RunFault {
    fn from(fault: StepFault) -> RunFault {
        match fault {
            StepFault::Refused(code) => RunFault::Step(code),
            StepFault::Device => RunFault::Device,
            StepFault::Memory => RunFault::Memory,
        }
    }
}

impl From<WriteFault> for RunFault {
    fn from(fault: WriteFault) -> RunFault {
        match fault {
            WriteFault::Device => RunFault::Device,
            WriteFault::Memory => RunFault::Memory,
        }
    }
}

impl From<ExtractFault> for RunFault {
    fn from(fault: ExtractFault) -> RunFault {
        match fault {
            ExtractFault::Device => RunFault::Device,
            ExtractFault::Memory => RunFault::Memory,
            refused => RunFault::Step(refused.code()),
        }
    }
}

impl From<PackFault> for RunFault {
    fn from(fault: PackFault) -> RunFault {
        match fault {
            PackFault::Device => RunFault::Device,
            PackFault::Memory => RunFault::Memory,
            refused => RunFault::Step(refused.code()),
        }
    }
}

impl From<AllocError> for RunFault {
    fn from(_refused: AllocError) -> RunFault {
        RunFault::Memory
    }
}

impl From<io::Error> for RunFault {
    fn from(error: io::Error) -> RunFault {
        match error.kind() {
            ErrorKind::OutOfMemory => RunFault::Memory,
            _ => RunFault::Device,
        }
    }
}

impl From<PoolFault> for RunFault {
    fn from(fault: PoolFault) -> RunFault {
        RunFault::Pool(fault)
    }
}

impl From<FrameFault> for RunFault {
    fn from(fault: FrameFault) -> RunFault {
        RunFault::Frames(fault)
    }
}
