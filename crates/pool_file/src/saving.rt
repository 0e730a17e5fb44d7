//! Saving repositories to a pool file.

ghost use Rattle.std.specs.Prelude.{◌≡◌, IfOk, map};
ghost use Rattle.byte_devices.specs.Device.{device_of, seen};
ghost use Rattle.pool_file_checks.specs.Repositories.{file_text};
ghost use Rattle.pool_file.specs.Worth.{tenant_seen, with_committed, committed_in, worth_saving};
ghost use Rattle.pool_file.specs.{Worth.{to_save, AllStand, TablesStand}, Saves.{Saves}};

use crate::plan::planned;
use crate::tenant::Tenant;
use crate::tenant_view::TenantView;
use byte_devices::Counted;
use content_pool::Pool;
use pool_file_format::{Fault, StreamingDigest, write_lent};
use std::alloc::{AllocError, Global};
use std::io::Write;

/// Writes the pool file of those tenants of which an object is saved, or that have a HEAD other than
/// `refs/heads/main`. The file has version 2, and contains the first `objects` of each table, each
/// content once, and their refs. If the names of the tenants are distinct, it is the same for every order
/// of the tenants; of several tenants with one name the first is saved. `pool` is the pool that the
/// tables stand in.
///
/// - `Fault::Device` (68) if a call of `write` answered an error or took nothing. A prefix of the
///   file has then been written.
/// - `Fault::Memory` (90) if there is no memory for the order of the contents, for what is noted of
///   their slots, or for the tenants' numbers, names and refs.
///
/// Nothing is refused, whatever the repositories are. `CanSave` of pool_file_checks says which of
/// them can be read again. The pool and the tenants are as they were.
pub fn save_views<'a, N: StreamingDigest, W: Write>(
    alloc: Global,
    pool: &'a Pool<N>,
    tenants: &[TenantView<'a>],
    writer: &mut Counted<W>,
) -> Result<(), Fault>
    requires { AllStand N.digest_of pool.now tenants.now }
    ensures { Saves (seen (W.contents (device_of writer.old)) writer.old) result
        (seen (W.contents (device_of writer.new)) writer.new)
        (file_text N.digest_of (to_save pool.now tenants.now)) }
{
    let plan = planned(alloc, pool, tenants)?;
    write_lent(alloc, pool.naming(), &plan.objects, &plan.tenants, writer)?;
    Ok(())
}

// Each tenant, lent.
fn views_of<'a>(alloc: Global, tenants: &'a [Tenant]) -> Result<Vec<TenantView<'a>>, AllocError>
    ensures { IfOk result (λ views.
        map tenant_seen views.items ≡ map with_committed tenants.now) }
{
    let mut views = Vec::new(alloc);
    for tenant in tenants {
        views.push(tenant.view())?;
    }
    Ok(views)
}

/// Writes the pool file of these tenants, as `load` answers them. It has those with a committed
/// object, or a HEAD other than `refs/heads/main`. The file is the one that `save_views` writes;
/// this call also takes memory for a list of the views.
///
/// - `Fault::Device` (68) if a call of `write` answered an error or took nothing. A prefix of the
///   file has then been written.
/// - `Fault::Memory` (90) if an allocation fails. A prefix of the file may have been written.
///
/// Nothing is refused. The pool and the tenants are as they were.
pub fn save<N: StreamingDigest, W: Write>(
    alloc: Global,
    pool: &Pool<N>,
    tenants: &[Tenant],
    writer: &mut Counted<W>,
) -> Result<(), Fault>
    requires { TablesStand N.digest_of pool.now tenants.now }
    ensures { Saves (seen (W.contents (device_of writer.old)) writer.old) result
        (seen (W.contents (device_of writer.new)) writer.new)
        (file_text N.digest_of (worth_saving (map (committed_in pool.now) tenants.now))) }
{
    let views = views_of(alloc, tenants)?;
    save_views(alloc, pool, &views, writer)
}
