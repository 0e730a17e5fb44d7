//! The numbers of objects in the list of all contents, by the slots of their contents.

ghost use Rattle.std.specs.Prelude.{◌≡◌, ◌<◌, All, IfOk, length, map, slice_index};
ghost use Rattle.pool_file.specs.Slots.{NumbersSlots, AreOnce, slots_of};

use crate::content::ListedContent;
use crate::tenant_view::TenantView;
use content_pool::Slot;
use git_names::Memory;
use std::alloc::Global;

/// The number of each of these contents, counted from 0, at the number of its slot.
///
/// `Memory` (90) if there is no memory for a number for each of so many slots.
pub fn numbers_by_slot(
    alloc: Global,
    contents: &[ListedContent<'_>],
    slots: usize,
) -> Result<Vec<u64>, Memory>
    requires within { All (λ c. c.slot < slots) contents.now }
    requires once { AreOnce contents.now }
    ensures { IfOk result (λ numbers. NumbersSlots contents.now numbers.items) }
{
    let mut numbers = Vec::from_elem(alloc, 0, slots)?;
    for place in 0..contents.len() {
        numbers[contents[place].slot] = place as u64;
    }
    Ok(numbers)
}

// The number at this slot.
fn number_at(by_slot: &[u64], slot: Slot) -> u64
    requires { slot < length by_slot.now }
    ensures { result ≡ slice_index by_slot.now slot }
{
    by_slot[slot.number()]
}

/// The numbers of those objects of a tenant that are saved, oldest first. `by_slot` has the number
/// of each content at the number of its slot.
///
/// `Memory` (90) if there is no memory for them.
pub fn numbers_of(
    alloc: Global,
    by_slot: &[u64],
    tenant: &TenantView<'_>,
) -> Result<Vec<u64>, Memory>
    requires { All (λ s. s < length by_slot.now) (slots_of tenant.now) }
    ensures { IfOk result (λ numbers. numbers.items
        ≡ map (λ s. slice_index by_slot.now s) (slots_of tenant.now)) }
{
    let mut numbers = Vec::with_capacity(alloc, tenant.object_count())?;
    for place in 0..tenant.object_count() {
        if let Some((_, slot)) = tenant.table.at(place) {
            numbers.push(number_at(by_slot, slot))?;
        }
    }
    Ok(numbers)
}
