//! A tenant as `load` answers it and as `save` takes it.

ghost use Rattle.std.specs.Prelude.{◌≡◌};
ghost use Rattle.pool_file.specs.Worth.{tenant_seen, with_committed};

use crate::tenant_view::TenantView;
use tenant_refs::{Refs, TenantName};
use tenant_tables::Table;

/// A tenant of a pool file: its name, the table of its objects, and its refs. After a load, all of
/// its objects are committed.
#[derive(Drop)]
pub struct Tenant {
    pub name: TenantName,
    pub table: Table,
    pub refs: Refs,
}

impl Tenant {
    // The tenant, lent to be saved with its committed objects.
    pub(crate) fn view(&self) -> TenantView<'_>
        ensures { tenant_seen result ≡ with_committed self.now }
    {
        TenantView {
            name: &self.name,
            table: &self.table,
            objects: self.table.committed_len(),
            refs: &self.refs,
        }
    }
}
