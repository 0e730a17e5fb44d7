//! Why an object was not added.

ghost use Rattle.std.specs.Prelude.{◌≡◌};
ghost use Rattle.tenant_tables.specs.Fault.{fault_code};
ghost use Rattle.tenant_tables.specs.declared.fault.Fault.TheVariants as fault;

use git_names::Memory;
use thiserror::Error;

/// Why `Table::add`, `add_tree` and `add_tree_owned` refuse an object. Table and pool are unchanged
/// then.
#[derive(Clone, Copy, Debug, PartialEq, Eq, Error)]
pub enum Fault {
    /// The contents are longer than 134,217,728 bytes, or the table has 4,194,304 objects (25).
    #[error("limit exceeded")]
    Limit = 25,
    /// The table has another content under this name (24).
    #[error("object name collision")]
    NameCollision = 24,
    /// An allocation failed (90).
    #[error("out of memory")]
    Memory = 90,
}

impl Fault {
    /// The number of the fault: 24, 25 or 90.
    pub fn code(self) -> u16
        ensures { result ≡ fault_code self }
    {
        self as u16
    }
}

impl From<Memory> for Fault {
    ghost from_gives = { λ _ refused. refused ≡ fault.Memory };

    fn from(_refused: Memory) -> Fault {
        Fault::Memory
    }
}
