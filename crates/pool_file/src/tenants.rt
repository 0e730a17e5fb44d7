//! Which tenants are saved, and what the file has of each.

ghost use Rattle.std.specs.Prelude.{◌≡◌, ◌<◌, ℕ, All, List, IfOk, length, map};
ghost use Rattle.git_model.specs.Content.{Content};
ghost use Rattle.content_pool.specs.Pool.{Cells};
ghost use Rattle.pool_file_format.specs.Shown.{tenant_of, tenants_of};
ghost use Rattle.pool_file_checks.specs.Repositories.{raw_tenant};
ghost use Rattle.pool_file.specs.Worth.{AllStand, named_in, to_save};
ghost use Rattle.pool_file.specs.Slots.{IsNumbered, all_slots, slots_of};

use crate::numbers::numbers_of;
use crate::raw_refs::raw_refs;
use crate::tenant_view::TenantView;
use git_names::Memory;
use pool_file_format::RawTenant;
use std::alloc::Global;
use std::collections::BTreeSet;
use tenant_refs::TenantName;

// A tenant in the order of names.
#[derive(Clone, Copy)]
#[derive_where(PartialEq, Eq, PartialOrd, Ord)]
struct ByName<'a> {
    name: &'a TenantName,
    #[derive_where(skip)]
    tenant: TenantView<'a>,
}

// The tenants of a set, in rising order of their names.
fn all_tenants<'a>(
    alloc: Global,
    by_name: BTreeSet<ByName<'a>>,
) -> Result<Vec<TenantView<'a>>, Memory>
    ensures { IfOk result (λ tenants. tenants.items ≡ map (λ one. one.tenant) by_name.entry.keys) }
{
    Ok(by_name.into_iter().map(|one| one.tenant).collect(alloc)?)
}

/// The tenants that are worth saving, in rising order of their names. Of several with one name, the
/// first.
///
/// `Memory` (90) if there is no memory for them.
pub fn tenants_to_save<'a>(
    alloc: Global,
    tenants: &[TenantView<'a>],
) -> Result<Vec<TenantView<'a>>, Memory>
    ensures saved { IfOk result (λ saved. (pool : Cells)
        → map (named_in pool) saved.items ≡ to_save pool tenants.now) }
    ensures stand { IfOk result (λ saved. (digest : List ℕ → List ℕ) (pool : Cells)
        → AllStand digest pool tenants.now → AllStand digest pool saved.items) }
{
    let mut by_name = BTreeSet::new(alloc);
    for tenant in tenants {
        if tenant.is_worth_saving() {
            by_name.insert(ByName {
                name: tenant.name,
                tenant: *tenant,
            })?;
        }
    }
    all_tenants(alloc, by_name)
}

// A tenant, as the file has it.
fn raw_tenant<'a>(
    alloc: Global,
    by_slot: &[u64],
    tenant: &TenantView<'a>,
) -> Result<RawTenant, Memory>
    requires { All (λ s. s < length by_slot.now) (slots_of tenant.now) }
    ensures { IfOk result (λ raw. (pool : Cells) (contents : List Content)
        → All (IsNumbered pool contents by_slot.now) (slots_of tenant.now)
        → tenant_of raw ≡ raw_tenant contents (named_in pool tenant.now)) }
{
    let numbers = numbers_of(alloc, by_slot, tenant)?;
    Ok(RawTenant {
        name: Vec::from_slice(alloc, tenant.name.as_bytes())?,
        numbers,
        refs: raw_refs(alloc, tenant)?,
        head: Vec::from_slice(alloc, tenant.refs.head())?,
    })
}

/// All tenants, as the file has them. `by_slot` has the number of each content at the number of its
/// slot.
///
/// `Memory` (90) if there is no memory for them.
pub fn raw_tenants<'a>(
    alloc: Global,
    by_slot: &[u64],
    tenants: &[TenantView<'a>],
) -> Result<Vec<RawTenant>, Memory>
    requires { All (λ s. s < length by_slot.now) (all_slots tenants.now) }
    ensures { IfOk result (λ raws. (pool : Cells) (contents : List Content)
        → All (IsNumbered pool contents by_slot.now) (all_slots tenants.now)
        → tenants_of raws.items ≡ map (raw_tenant contents) (map (named_in pool) tenants.now)) }
{
    let mut raws = Vec::new(alloc);
    for tenant in tenants {
        raws.push(raw_tenant(alloc, by_slot, tenant)?)?;
    }
    Ok(raws)
}
