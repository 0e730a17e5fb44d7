//! All contents that are saved, each once, in the order of the file.
//!
//! They are first listed in the order of their slots. A load fills slots in the order of its file,
//! so what it loaded is then in order already, and a sort compares each content with its neighbours
//! only.

ghost use Rattle.std.specs.Prelude.{◌≡◌, ◌<◌, ℕ, All, IfOk, List, Some, length, slice_get};
ghost use Rattle.content_pool.specs.Pool.{IsLive};
ghost use Rattle.pool_file.specs.{Worth.{AllStand}, Listing.{IsInOrder}, Lent.{listed_key}};
ghost use Rattle.pool_file.specs.Slots.{AreSeen, AreListed, all_slots};

use crate::content::{ListedContent, lent_content};
use crate::seen_slots::seen_slots;
use crate::tenant_view::TenantView;
use content_pool::{Pool, Slot};
use git_names::{Memory, Naming};
use std::alloc::Global;

/// The contents in the order of the file. The number of each of their slots is below `slots`.
#[derive(Drop)]
pub struct Listing<'a> {
    pub contents: Vec<ListedContent<'a>>,
    pub slots: usize,
}

// The contents in these slots, in the order of the slots' numbers.
fn contents_in<'a, N: Naming>(
    alloc: Global,
    pool: &'a Pool<N>,
    seen: &[Option<Slot>],
) -> Result<Vec<ListedContent<'a>>, Memory>
    requires { (n s : ℕ) → slice_get seen.now n ≡ Some (Some s)
        → (s ≡ n) × IsLive pool.now s }
    ensures listed { IfOk result (λ contents. (slots : List ℕ)
        → AreSeen seen.now slots → AreListed pool.now contents.items slots) }
    ensures within { IfOk result (λ contents. All (λ c. c.slot < length seen.now) contents.items) }
{
    let mut contents = Vec::new(alloc);
    for cell in seen {
        if let Some(slot) = cell {
            contents.push(ListedContent {
                content: lent_content(pool, *slot),
                slot: slot.number(),
            })?;
        }
    }
    Ok(contents)
}

/// The contents of the objects that are saved of all tenants, each once, in the order of the file.
///
/// `Memory` (90) if there is no memory for them, for their slots, or for their sort.
pub fn listed_contents<'a, N: Naming>(
    alloc: Global,
    pool: &'a Pool<N>,
    tenants: &[TenantView<'a>],
) -> Result<Listing<'a>, Memory>
    requires { AllStand N.digest_of pool.now tenants.now }
    ensures listed { IfOk result
        (λ listing. AreListed pool.now listing.contents.items (all_slots tenants.now)) }
    ensures order { IfOk result (λ listing. IsInOrder listed_key listing.contents.items) }
    ensures within { IfOk result
        (λ listing. All (λ c. c.slot < listing.slots) listing.contents.items) }
{
    let seen = seen_slots(alloc, tenants)?;
    let mut contents = contents_in(alloc, pool, &seen)?;
    contents.sort()?;
    pool.holds_each_once();
    Ok(Listing {
        contents,
        slots: seen.len(),
    })
}
