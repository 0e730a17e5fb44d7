//! Why a repository is not exported.

ghost use Rattle.std.specs.Prelude.{◌≡◌};
ghost use Rattle.export_text.specs.Faults.{code_of};
ghost use Rattle.export_text.specs.declared.fault.Fault.TheVariants as fault;

use git_objects::Memory;
use thiserror::Error;

/// Why a repository is not exported.
#[derive(Clone, Copy, Debug, PartialEq, Eq, Error)]
pub enum Fault {
    /// The refs, with those that importing the reached tags sets, are more than 65,535: 25.
    #[error("too many refs")]
    Limit = 25,
    /// An allocation failed, 90.
    #[error("out of memory")]
    Memory = 90,
}

impl Fault {
    /// The number of the fault: 25 limit, 90 out of memory.
    pub fn code(self) -> u16
        ensures { result ≡ code_of self }
    {
        self as u16
    }
}

impl From<Memory> for Fault {
    ghost from_gives = { λ _ refused. refused ≡ fault.Memory };

    fn from(_refused: Memory) -> Fault {
        Fault::Memory
    }
}
