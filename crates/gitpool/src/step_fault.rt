//! The faults of a query and of an import.

ghost use Rattle.std.specs.Prelude.{◌≡◌};
ghost use Rattle.gitpool.specs.StepFaults.{as_result, code_of};
ghost use Rattle.gitpool.specs.declared.step_fault.StepFault.TheVariants as fault;

use git_objects::DeviceFault;
use service_steps::Answer;
use thiserror::Error;

/// Why a query was not answered, or an import did not end well.
#[derive(Clone, Copy, Debug, PartialEq, Eq, Error)]
pub enum StepFault {
    /// The query, the stream or its end was refused, under this number.
    #[error("fault {0}")]
    Refused(u16),
    /// A call of the reader or the writer failed, or the reader never ends (68).
    #[error("fault 68")]
    Device,
    /// Memory ran out (90).
    #[error("fault 90")]
    Memory,
}

impl StepFault {
    /// The number of the fault, for messages and exit statuses.
    pub fn code(self) -> u16
        ensures { result ≡ code_of self }
    {
        match self {
            StepFault::Refused(code) => code,
            StepFault::Device => 68,
            StepFault::Memory => 90,
        }
    }
}

impl From<DeviceFault> for StepFault {
    ghost from_gives = { λ _ refused. refused ≡ fault.Device };

    fn from(_refused: DeviceFault) -> StepFault {
        StepFault::Device
    }
}

// The answer of a step as a result of the call that took it.
pub(crate) fn as_result(answer: Answer) -> Result<(), StepFault>
    ensures { result ≡ as_result answer }
{
    match answer {
        Answer::Ok => Ok(()),
        Answer::Fault(code) => Err(StepFault::Refused(code)),
        Answer::Memory(_) => Err(StepFault::Memory),
    }
}
