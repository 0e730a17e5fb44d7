//! What a record tells, by the records that it stands on.

ghost use Rattle.std.specs.Prelude.{◌≡◌};
ghost use Rattle.store_format.specs.Shown.{Gives, record_of, records_of};
ghost use Rattle.store_format.specs.ShownTold.{told_of, lent_records_of, Leads};
ghost use Rattle.store_format.specs.Telling.{told_over, nothing_told, tells};

use crate::targets::Targets;
use crate::tenant_record::TenantRecord;
use crate::told::Told;
use pool_file_format::{Fault, Refusal};
use std::alloc::Global;

// What a record stands on that stands on none.
fn nothing_told<'a>(alloc: Global) -> Told<'a>
    ensures { told_of result ≡ nothing_told }
{
    Told {
        name: &[],
        numbers: Vec::new(alloc),
        refs: Targets::new(alloc),
        head: &[],
    }
}

// What a record tells that stands on one that told this.
#[tactic(auto, unfolding(crate::specs::Telling::told_over))]
fn tell_over<'a>(told: Told<'a>, tenant: &'a TenantRecord) -> Result<Told<'a>, Fault>
    ensures { Gives told_of result (told_over (told_of told.entry) (record_of tenant.now)) }
{
    let Told {
        mut numbers,
        mut refs,
        ..
    } = told;
    let shared = tenant.shared as usize;
    if numbers.len() < shared {
        return Err(Fault::Refused(Refusal::MissingReference));
    }
    numbers.truncate(shared);
    numbers.extend_from_slice(&tenant.numbers)?;
    refs.change_all(&tenant.changes)?;
    Ok(Told {
        name: &tenant.name,
        numbers,
        refs,
        head: &tenant.head,
    })
}

// The record of a number, the one that it stands on, and so on. Each is before the last one.
fn path_of<'a>(
    alloc: Global,
    records: &'a [TenantRecord],
    number: u32,
) -> Result<Vec<&'a TenantRecord>, Fault>
    ensures { Leads (λ x. lent_records_of x.items) result (tells (records_of records.now) number) }
{
    let mut path = Vec::new(alloc);
    let mut before = records;
    let mut next = Some(number);
    while let Some(at) = next {
        let Some(tenant) = before.get(at as usize) else {
            return Err(Fault::Refused(Refusal::MissingReference));
        };
        path.push(tenant)?;
        before = before.split_at(at as usize).0;
        next = tenant.base;
    }
    Ok(path)
}

/// Tells what the tenant of a record has: its objects, its refs and HEAD. Records are counted from 0.
///
/// `MissingReference` (66) if there is no record of this number; if one of those that it stands on is
/// not before the record that stands on it; or if one stands on more objects than the other has.
/// Other records are not judged. `Memory` (90) if there is no memory for the list of objects, the
/// refs, or the records on the way.
pub fn tell(alloc: Global, records: &[TenantRecord], number: u32) -> Result<Told<'_>, Fault>
    ensures { Gives told_of result (tells (records_of records.now) number) }
{
    let mut path = path_of(alloc, records, number)?;
    let mut told = nothing_told(alloc);
    while let Some(tenant) = path.pop() {
        told = tell_over(told, tenant)?;
    }
    Ok(told)
}
