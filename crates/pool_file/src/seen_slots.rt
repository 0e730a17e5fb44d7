//! The slots that tenants save, each at its number.
//!
//! Tenants share contents, and the pool has each of them in one slot.

ghost use Rattle.std.specs.Prelude.{◌<◌, ◌∷◌, [], length, IfOk, OnOk};
ghost use Rattle.pool_file.specs.Slots.{KeepsSlots, Sees, AreSeen, slots_of, all_slots};

use crate::tenant_view::TenantView;
use content_pool::Slot;
use git_names::Memory;
use std::alloc::Global;

// Makes the list longer than this number, without more slots.
fn reach(seen: &mut Vec<Option<Slot>>, number: usize) -> Result<(), Memory>
    ensures within { OnOk result (number < length seen.new.items) }
    ensures same { OnOk result (KeepsSlots seen.old.items seen.new.items) }
{
    while seen.as_slice().len() <= number {
        seen.push(None)?;
    }
    Ok(())
}

// Notes this slot at its number. The list grows where it does not reach the number.
fn see(seen: &mut Vec<Option<Slot>>, slot: Slot) -> Result<(), Memory>
    ensures { OnOk result (Sees seen.old.items seen.new.items (slot ∷ [])) }
{
    let number = slot.number();
    reach(seen, number)?;
    seen[number] = Some(slot);
    Ok(())
}

// Notes the slots of the objects of a tenant that are saved.
fn see_tenant(seen: &mut Vec<Option<Slot>>, tenant: &TenantView<'_>) -> Result<(), Memory>
    ensures { OnOk result (Sees seen.old.items seen.new.items (slots_of tenant.now)) }
{
    for place in 0..tenant.object_count() {
        if let Some((_, slot)) = tenant.table.at(place) {
            see(seen, slot)?;
        }
    }
    Ok(())
}

/// The slots of the objects of all tenants that are saved, each at its number.
///
/// `Memory` (90) if there is no memory for as many slots as the greatest of these numbers.
pub fn seen_slots(alloc: Global, tenants: &[TenantView<'_>]) -> Result<Vec<Option<Slot>>, Memory>
    ensures { IfOk result (λ seen. AreSeen seen.items (all_slots tenants.now)) }
{
    let mut seen = Vec::new(alloc);
    for tenant in tenants {
        see_tenant(&mut seen, tenant)?;
    }
    Ok(seen)
}
