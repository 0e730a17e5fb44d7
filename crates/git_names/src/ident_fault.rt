//! Why an ident could not be read.

ghost use Rattle.std.specs.Prelude.{◌≡◌};
ghost use Rattle.git_names.specs.Ident.{code_of};
ghost use Rattle.git_names.specs.declared.ident_fault.IdentFault.TheVariants as fault;

use git_model::Memory;
use thiserror::Error;

/// Why an ident could not be read.
#[derive(Clone, Copy, Debug, PartialEq, Eq, Error)]
pub enum IdentFault {
    /// The name, the email or the space after it is wrong: 21.
    #[error("bad identity")]
    BadIdentity = 21,
    /// The seconds, or the offset after them, are wrong: 22.
    #[error("bad date")]
    BadDate = 22,
    /// An allocation failed: 90.
    #[error("out of memory")]
    Memory = 90,
}

impl IdentFault {
    /// The number of the fault: 21 bad identity, 22 bad date, 90 out of memory.
    pub fn code(self) -> u16
        ensures { result ≡ code_of self }
    {
        self as u16
    }
}

impl From<Memory> for IdentFault {
    ghost from_gives = { λ _ refused. refused ≡ fault.Memory };

    fn from(_refused: Memory) -> IdentFault {
        IdentFault::Memory
    }
}
