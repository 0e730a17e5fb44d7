//! What each tenant has in the pool: for the operator.

ghost use Rattle.std.specs.Prelude.{◌≡◌, IfOk, map};
ghost use Rattle.pool_file.specs.Worth.{AllStand, named_in, to_save};
ghost use Rattle.tenant_service.specs.Sizes.{own_size, size, sizes_by, sizes_told, total};
ghost use Rattle.tenant_service.specs.Tenants.{holds_of};
ghost use Rattle.tenant_tables.specs.IsBackedBy.{IsBackedBy};

use content_pool::Pool;
use git_objects::{Memory, Naming};
use pool_file::{TenantView, tenants_to_save};
use std::alloc::Global;

/// What a tenant has at its last checkpoint. A sum of bytes is 2^64 - 1 if it would be greater.
#[derive(Clone, Copy)]
pub struct TenantSizes<'a> {
    /// The name of the tenant.
    pub tenant: &'a [u8],
    /// How many objects it has.
    pub objects: u64,
    /// The sum of their sizes in bytes.
    pub bytes: u64,
    /// The same sum, without the objects whose contents another tenant has too.
    pub own_bytes: u64,
    /// How many refs it has.
    pub refs: u64,
}

// The sizes in bytes of the objects of a tenant that a save writes: the sum of all, and of those
// that no other table holds.
fn totals<N: Naming>(pool: &Pool<N>, view: &TenantView<'_>) -> (u64, u64)
    requires { IsBackedBy N.digest_of pool.now view.now.table.now.entries }
    ensures all { result.0 ≡ total size (named_in pool.now view.now).repository.objects }
    ensures own { result.1
        ≡ total (own_size (holds_of pool.now)) (named_in pool.now view.now).repository.objects }
{
    pool.holds_each_once();
    let mut all: u64 = 0;
    let mut own: u64 = 0;
    for place in 0..view.object_count() {
        if let Some((_, slot)) = view.table.at(place) {
            let (_, bytes) = pool.get(slot);
            let size = bytes.len() as u64;
            all = all.saturating_add(size);
            if pool.hold_count(slot) == 1 {
                own = own.saturating_add(size);
            }
        }
    }
    (all, own)
}

// What one tenant has.
fn sizes_of<'a, N: Naming>(pool: &Pool<N>, view: &TenantView<'a>) -> TenantSizes<'a>
    requires { IsBackedBy N.digest_of pool.now view.now.table.now.entries }
    ensures { sizes_told result ≡ sizes_by (holds_of pool.now) (named_in pool.now view.now) }
{
    let (bytes, own_bytes) = totals(pool, view);
    TenantSizes {
        tenant: view.name.as_bytes(),
        objects: view.object_count() as u64,
        bytes,
        own_bytes,
        refs: view.refs.len() as u64,
    }
}

// What each of these tenants has.
fn sizes_of_all<'a, N: Naming>(
    alloc: Global,
    pool: &Pool<N>,
    tenants: &[TenantView<'a>],
) -> Result<Vec<TenantSizes<'a>>, Memory>
    requires { AllStand N.digest_of pool.now tenants.now }
    ensures { IfOk result (λ sizes. map sizes_told sizes.items
        ≡ map (sizes_by (holds_of pool.now)) (map (named_in pool.now) tenants.now)) }
{
    let mut sizes = Vec::new(alloc);
    for tenant in tenants {
        sizes.push(sizes_of(pool, tenant))?;
    }
    Ok(sizes)
}

/// What each of these tenants has, of those that a save writes, in rising order of their names.
///
/// `Memory` (90) if there is no memory for the list.
pub fn sizes_of_saved<'a, N: Naming>(
    alloc: Global,
    pool: &Pool<N>,
    tenants: &[TenantView<'a>],
) -> Result<Vec<TenantSizes<'a>>, Memory>
    requires { AllStand N.digest_of pool.now tenants.now }
    ensures { IfOk result (λ sizes. map sizes_told sizes.items
        ≡ map (sizes_by (holds_of pool.now)) (to_save pool.now tenants.now)) }
{
    let saved = tenants_to_save(alloc, tenants)?;
    sizes_of_all(alloc, pool, &saved)
}
