//! A pool with its tenants, saved as a pool file in memory and loaded from it.

ghost use Rattle.std.specs.Prelude.{◌≡◌, IfOk, map};
ghost use Rattle.pool_file_checks.specs.Saving.{CanSave};
ghost use Rattle.pool_file.specs.Loading.{loaded_repositories};
ghost use Rattle.pool_file.specs.Worth.{TablesStand, committed_in, worth_saving};

use byte_devices::Counted;
use content_pool::Pool;
use pool_file::{Tenant, load, save};
use pool_file_format::{Fault, StreamingDigest};
use std::alloc::Global;

/// A second pool, and tables and refs over it, with the repositories of these tenants. Objects
/// after the last checkpoint are left out, and so are tenants with nothing to save. The faults are
/// those of `save` and `load`.
pub fn reload<N: StreamingDigest>(
    alloc: Global,
    naming: N,
    pool: &Pool<N>,
    tenants: &[Tenant],
) -> Result<(Pool<N>, Vec<Tenant>), Fault>
    requires { TablesStand N.digest_of pool.now tenants.now }
    ensures { CanSave 2 N.digest_of (worth_saving (map (committed_in pool.now) tenants.now))
        → IfOk result (λ r. loaded_repositories r.0 r.1.items
        ≡ worth_saving (map (committed_in pool.now) tenants.now)) }
{
    let mut writer = Counted::new(Vec::new(alloc));
    save(alloc, pool, tenants, &mut writer)?;
    let file = writer.into_inner();
    let mut reader = Counted::new(file.as_slice());
    load(alloc, naming, &mut reader)
}
