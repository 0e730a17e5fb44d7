//! The faults with which a service itself refuses a step or a call of the operator.
//!
//! It refuses a step before the step reaches a stream, and a copy before its first step.

ghost use Rattle.std.specs.Prelude.{◌≡◌};
ghost use Rattle.service_steps.specs.Faults.{code_of};

use crate::answer::Answer;
use thiserror::Error;

/// Why a service itself refuses a step or a call of the operator. A refusal changes nothing.
#[derive(Clone, Copy, Debug, PartialEq, Eq, Error)]
pub enum ServiceFault {
    /// A Feed, an End or an abandon of a tenant without a stream: 30.
    #[error("fault 30")]
    NoStream = 30,
    /// An Open of a tenant that has a stream, even a dead one, a copy to that tenant, or its removal:
    /// 31.
    #[error("fault 31")]
    StreamIsOpen = 31,
    /// A name that no tenant can have: 32.
    #[error("fault 32")]
    BadTenantName = 32,
    /// A copy to a tenant that has an object, a ref, or a HEAD other than `refs/heads/main`: 33.
    #[error("fault 33")]
    TenantNotEmpty = 33,
}

impl ServiceFault {
    /// The number of the fault.
    pub fn code(self) -> u16
        ensures { result ≡ code_of self }
    {
        self as u16
    }

    /// The answer that reports this fault.
    pub fn answer(self) -> Answer
        ensures { result ≡ Answer.Fault (code_of self) }
    {
        Answer::Fault(self.code())
    }
}
