//! How many objects each record has, and whether what it stands on is there.

ghost use Rattle.store_format.specs.Standing.{count_of_base, count_after, counts_of};
ghost use Rattle.store_format.specs.Shown.{Gives, record_of, records_of};

use crate::tenant_record::TenantRecord;
use pool_file_format::{Fault, Refusal};
use std::alloc::Global;

// How many objects the record has that one stands on, by the counts of those before.
#[tactic(auto, unfolding(crate::specs::Standing::count_of_base))]
fn base_count(counts: &[u64], base: Option<u32>) -> Result<u64, Fault>
    ensures { Gives (λ x. x) result (count_of_base counts.now base) }
{
    match base {
        None => Ok(0),
        Some(number) => match counts.get(number as usize) {
            Some(count) => Ok(*count),
            None => Err(Fault::Refused(Refusal::MissingReference)),
        },
    }
}

// How many objects a record has, by the counts of those before.
#[tactic(auto, unfolding(crate::specs::Standing::count_after))]
fn record_count(counts: &[u64], tenant: &TenantRecord) -> Result<u64, Fault>
    ensures { Gives (λ x. x) result (count_after counts.now (record_of tenant.now)) }
{
    let base = base_count(counts, tenant.base)?;
    let shared = u64::from(tenant.shared);
    if base < shared {
        return Err(Fault::Refused(Refusal::MissingReference));
    }
    Ok(shared + tenant.numbers.len() as u64)
}

/// Counts the objects that each record has: those that it shares with the record that it stands on,
/// and its own.
///
/// `MissingReference` (66) if a record stands on one that is not before it, or on more objects than
/// that has. `Memory` (90) if there is no memory for the counts: eight bytes a record. The objects
/// are not listed.
pub fn count_objects(alloc: Global, records: &[TenantRecord]) -> Result<Vec<u64>, Fault>
    ensures { Gives (λ x. x.items) result (counts_of (records_of records.now)) }
{
    let mut counts = Vec::new(alloc);
    for tenant in records {
        let count = record_count(&counts, tenant)?;
        counts.push(count)?;
    }
    Ok(counts)
}
