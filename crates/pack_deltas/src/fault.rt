//! Why a delta is not carried out.

ghost use Rattle.std.specs.Prelude.{◌≡◌};
ghost use Rattle.pack_deltas.specs.declared.fault.Fault.TheVariants as fault;

use git_names::Memory;
use thiserror::Error;

/// Why a delta is not carried out.
#[derive(Clone, Copy, Debug, PartialEq, Eq, Error)]
pub enum Fault {
    /// It tells a larger size than is allowed, 25.
    #[error("limit")]
    Limit = 25,
    /// An allocation failed, 90.
    #[error("out of memory")]
    Memory = 90,
}

impl From<Memory> for Fault {
    ghost from_gives = { λ _ refused. refused ≡ fault.Memory };

    fn from(_refused: Memory) -> Fault {
        Fault::Memory
    }
}
