//! Reading records.

ghost use Rattle.std.specs.Int.{w32};
ghost use Rattle.pool_file_format.specs.Lengths.{number_at, many_at, counted_at};
ghost use Rattle.store_format.specs.Lengths.{change_at, record_at};
ghost use Rattle.store_format.specs.Shown.{Gives, change_of, changes_of, record_of, records_of};

use crate::parts::{next_optional, next_owned, next_u32, next_u64};
use crate::tenant_record::{RefChange, TenantRecord};
use pool_file_format::Fault;
use std::alloc::Global;

// `count` numbers of rows.
fn read_many_numbers(alloc: Global, count: u64, bytes: &[u8]) -> Result<(Vec<u32>, &[u8]), Fault>
    ensures { Gives (λ x. (x.0.items, x.1.now)) result (many_at (number_at w32) count bytes.now) }
{
    let mut numbers = Vec::new(alloc);
    let mut rest = bytes;
    for _ in 0..count {
        let (number, after) = next_u32(rest)?;
        numbers.push(number)?;
        rest = after;
    }
    Ok((numbers, rest))
}

// All numbers of rows, after their count.
#[tactic(auto, unfolding(pool_file_format::specs::Lengths::counted_at))]
fn read_numbers(alloc: Global, bytes: &[u8]) -> Result<(Vec<u32>, &[u8]), Fault>
    ensures { Gives (λ x. (x.0.items, x.1.now)) result (counted_at (number_at w32) bytes.now) }
{
    let (count, rest) = next_u64(bytes)?;
    read_many_numbers(alloc, count, rest)
}

#[tactic(auto, unfolding(crate::specs::Lengths::change_at))]
fn read_change(alloc: Global, bytes: &[u8]) -> Result<(RefChange, &[u8]), Fault>
    ensures { Gives (λ x. (change_of x.0, x.1.now)) result (change_at bytes.now) }
{
    let (name, rest) = next_owned(alloc, bytes)?;
    let (target, rest) = next_optional(rest)?;
    Ok((RefChange { name, target }, rest))
}

// `count` changes of refs.
fn read_many_changes(
    alloc: Global,
    count: u64,
    bytes: &[u8],
) -> Result<(Vec<RefChange>, &[u8]), Fault>
    ensures { Gives (λ x. (changes_of x.0.items, x.1.now)) result
        (many_at change_at count bytes.now) }
{
    let mut changes = Vec::new(alloc);
    let mut rest = bytes;
    for _ in 0..count {
        let (change, after) = read_change(alloc, rest)?;
        changes.push(change)?;
        rest = after;
    }
    Ok((changes, rest))
}

// All changes of refs, after their count.
#[tactic(auto, unfolding(pool_file_format::specs::Lengths::counted_at))]
fn read_changes(alloc: Global, bytes: &[u8]) -> Result<(Vec<RefChange>, &[u8]), Fault>
    ensures { Gives (λ x. (changes_of x.0.items, x.1.now)) result (counted_at change_at bytes.now) }
{
    let (count, rest) = next_u64(bytes)?;
    read_many_changes(alloc, count, rest)
}

/// Reads a record. Judges nothing of what it says.
///
/// `CutOff` (62) if the bytes end early. `Memory` (90) if there is no memory for what is read.
#[tactic(auto, unfolding(crate::specs::Lengths::record_at))]
pub fn read_record(alloc: Global, bytes: &[u8]) -> Result<(TenantRecord, &[u8]), Fault>
    ensures { Gives (λ x. (record_of x.0, x.1.now)) result (record_at bytes.now) }
{
    let (name, rest) = next_owned(alloc, bytes)?;
    let (base, rest) = next_optional(rest)?;
    let (shared, rest) = next_u32(rest)?;
    let (numbers, rest) = read_numbers(alloc, rest)?;
    let (changes, rest) = read_changes(alloc, rest)?;
    let (head, rest) = next_owned(alloc, rest)?;
    let tenant = TenantRecord {
        name,
        base,
        shared,
        numbers,
        changes,
        head,
    };
    Ok((tenant, rest))
}

/// `count` records.
pub fn read_many_records(
    alloc: Global,
    count: u32,
    bytes: &[u8],
) -> Result<(Vec<TenantRecord>, &[u8]), Fault>
    ensures { Gives (λ x. (records_of x.0.items, x.1.now)) result
        (many_at record_at count bytes.now) }
{
    let mut records = Vec::new(alloc);
    let mut rest = bytes;
    for _ in 0..count {
        let (tenant, after) = read_record(alloc, rest)?;
        records.push(tenant)?;
        rest = after;
    }
    Ok((records, rest))
}
