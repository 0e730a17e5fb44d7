//! Why a question for a pack is refused.

ghost use Rattle.std.specs.Prelude.{◌≡◌};
ghost use Rattle.pack_objects.specs.Faults.{code_of};
ghost use Rattle.pack_objects.specs.declared.fault.PackFault.TheVariants as fault;

use git_objects::Memory;
use missing_objects::MissingFault;
use thiserror::Error;

/// Why a question for a pack is refused.
#[derive(Clone, Copy, Debug, PartialEq, Eq, Error)]
pub enum PackFault {
    /// A wanted name, or the name of an entry, is that of no object: 16.
    #[error("unknown object")]
    UnknownObject = 16,
    /// The entries are longer than the caller allows: 25.
    #[error("limit passed")]
    Limit = 25,
    /// No tenant can have this name: 32. Only calls that are given the name of a tenant answer it.
    #[error("bad tenant name")]
    BadTenantName = 32,
    /// A call of the writer failed: 68. Only calls that write answer it.
    #[error("device failed")]
    Device = 68,
    /// An allocation failed: 90.
    #[error("out of memory")]
    Memory = 90,
}

impl PackFault {
    /// The number of the fault: 16 unknown object, 25 limit, 32 bad tenant name, 68 device, 90 out
    /// of memory.
    pub fn code(self) -> u16
        ensures { result ≡ code_of self }
    {
        self as u16
    }
}

impl From<Memory> for PackFault {
    ghost from_gives = { λ _ refused. refused ≡ fault.Memory };

    fn from(_refused: Memory) -> PackFault {
        PackFault::Memory
    }
}

impl From<MissingFault> for PackFault {
    ghost use Rattle.pack_objects.specs.Faults.{of_missing};

    ghost from_gives = { λ refusal e. e ≡ of_missing refusal };

    fn from(fault: MissingFault) -> PackFault {
        match fault {
            MissingFault::UnknownWant => PackFault::UnknownObject,
            MissingFault::Memory => PackFault::Memory,
        }
    }
}
