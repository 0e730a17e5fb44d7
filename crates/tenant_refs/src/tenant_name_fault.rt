//! Why a tenant name could not be read.

ghost use Rattle.std.specs.Prelude.{◌≡◌};

use thiserror::Error;

/// Why a tenant name could not be read.
#[derive(Clone, Copy, Debug, PartialEq, Eq, Error)]
pub enum TenantNameFault {
    /// The text is not a tenant name by the rules of `is_tenant_name` (32).
    #[error("bad tenant name")]
    BadTenantName = 32,
}

impl TenantNameFault {
    ghost use Rattle.tenant_refs.specs.Faults.{tenant_name_code};

    /// The number of the fault: 32.
    pub fn code(&self) -> u16
        ensures { result ≡ tenant_name_code self.now }
    {
        *self as u16
    }
}
