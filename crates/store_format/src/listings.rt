//! Files of rows and of records: up to the size that the state names.

ghost use Rattle.std.specs.{Prelude.{◌≡◌, ◌++◌, ◌+◌, ◌-◌, length, IfOk, OnOk}, List.{flat_map}};
ghost use Rattle.store_format.specs.{Rows.{row_text}, Records.{record_text}};
ghost use Rattle.store_format.specs.{Lengths.{row_at, record_at}, Saying.{first_of, listed}};
ghost use Rattle.store_format.specs.Saves.{listing_after};
ghost use Rattle.store_format.specs.Shown.{Gives, listing_of, rows_of, records_of};

use crate::append_fault::AppendFault;
use crate::chains::{NO_CHAIN, records_chained, rows_chained};
use crate::parts::{is_same, next_end};
use crate::printing::{append_many_records, append_many_rows};
use crate::record_reading::read_many_records;
use crate::row::Row;
use crate::row_reading::read_many_rows;
use crate::state::Listing;
use crate::tenant_record::TenantRecord;
use git_names::Naming;
use pool_file_format::{Fault, Refusal};
use std::alloc::Global;

// The bytes that count. What follows them does not.
#[tactic(auto, unfolding(pool_file_format::specs::Lengths::bytes_at))]
fn counted_bytes<'a>(listing: &Listing, bytes: &'a [u8]) -> Result<&'a [u8], Fault>
    ensures { Gives (λ x. x.now) result (first_of listing.now.size bytes.now) }
{
    if (bytes.len() as u64) < listing.size {
        return Err(Fault::Refused(Refusal::CutOff));
    }
    Ok(bytes.split_at(listing.size as usize).0)
}

/// Reads the rows that a state counts from the bytes of their file, and checks their chain under
/// this naming. Bytes after the size of the listing do not count.
///
/// `CutOff` (62) if the file is shorter than its size, or the last row is cut; `TrailingBytes` (69)
/// if there are bytes between the last row and the size; after that, `WrongDigest` (63) if the chain
/// is another. `Memory` (90) if there is no memory for the rows.
#[tactic(auto, unfolding(crate::specs::Saying::listed))]
pub fn read_rows<N: Naming>(
    alloc: Global,
    naming: &N,
    listing: &Listing,
    bytes: &[u8],
) -> Result<Vec<Row>, Fault>
    ensures { Gives (λ x. rows_of x.items) result
        (listed N.digest_of row_text row_at (listing_of listing.now) bytes.now) }
{
    let front = counted_bytes(listing, bytes)?;
    let (rows, rest) = read_many_rows(alloc, listing.count, front)?;
    let (_end, _rest) = next_end(rest)?;
    let chain = rows_chained(alloc, naming, NO_CHAIN, &rows)?;
    if !is_same(&listing.chain, &chain) {
        return Err(Fault::Refused(Refusal::WrongDigest));
    }
    Ok(rows)
}

/// Reads the records that a state counts from the bytes of their file, and checks their chain under
/// this naming. Bytes after the size of the listing do not count.
///
/// The same faults as `read_rows`.
#[tactic(auto, unfolding(crate::specs::Saying::listed))]
pub fn read_records<N: Naming>(
    alloc: Global,
    naming: &N,
    listing: &Listing,
    bytes: &[u8],
) -> Result<Vec<TenantRecord>, Fault>
    ensures { Gives (λ x. records_of x.items) result
        (listed N.digest_of record_text record_at (listing_of listing.now) bytes.now) }
{
    let front = counted_bytes(listing, bytes)?;
    let (records, rest) = read_many_records(alloc, listing.count, front)?;
    let (_end, _rest) = next_end(rest)?;
    let chain = records_chained(alloc, naming, NO_CHAIN, &records)?;
    if !is_same(&listing.chain, &chain) {
        return Err(Fault::Refused(Refusal::WrongDigest));
    }
    Ok(records)
}

// The size of a file that had `size` bytes and got as many as `out` got after its first `before`.
fn grown(size: u64, out: &[u8], before: usize) -> Result<u64, AppendFault>
    ensures { IfOk result (λ n. n ≡ size + (length out.now - before)) }
{
    let more = out.len().saturating_sub(before);
    size.checked_add(more as u64).ok_or(AppendFault::Limit)
}

// The count after more of them.
fn counted_on(count: u32, more: usize) -> Result<u32, AppendFault>
    ensures { IfOk result (λ n. n ≡ count + more) }
{
    match u32::try_from(more) {
        Ok(more) => count.checked_add(more).ok_or(AppendFault::Limit),
        Err(_) => Err(AppendFault::Limit),
    }
}

/// Appends rows to the text of a file of rows, and answers the listing of the file after them, with
/// their chain under this naming.
///
/// `Limit` (25) if the file would have 2^32 rows: then nothing is appended. `Limit` too if it would
/// have 2^64 bytes, and `Memory` (90) if there is no memory for the text: part of it may then be
/// appended.
pub fn append_rows<N: Naming>(
    alloc: Global,
    naming: &N,
    out: &mut Vec<u8>,
    listing: &Listing,
    rows: &[Row],
) -> Result<Listing, AppendFault>
    ensures appended { OnOk result (out.new.items
        ≡ out.old.items ++ flat_map row_text (rows_of rows.now)) }
    ensures counted { IfOk result (λ after. listing_of after
        ≡ listing_after N.digest_of row_text (listing_of listing.now) (rows_of rows.now)) }
{
    let count = counted_on(listing.count, rows.len())?;
    let chain = rows_chained(alloc, naming, listing.chain, rows)?;
    let before = out.len();
    append_many_rows(out, rows)?;
    Ok(Listing {
        number: listing.number,
        count,
        size: grown(listing.size, out, before)?,
        chain,
    })
}

/// Appends records to the text of a file of records, and answers the listing of the file after them,
/// with their chain under this naming.
///
/// The same faults as `append_rows`.
pub fn append_records<N: Naming>(
    alloc: Global,
    naming: &N,
    out: &mut Vec<u8>,
    listing: &Listing,
    records: &[TenantRecord],
) -> Result<Listing, AppendFault>
    ensures appended { OnOk result (out.new.items
        ≡ out.old.items ++ flat_map record_text (records_of records.now)) }
    ensures counted { IfOk result (λ after. listing_of after
        ≡ listing_after N.digest_of record_text (listing_of listing.now) (records_of records.now)) }
{
    let count = counted_on(listing.count, records.len())?;
    let chain = records_chained(alloc, naming, listing.chain, records)?;
    let before = out.len();
    append_many_records(out, records)?;
    Ok(Listing {
        number: listing.number,
        count,
        size: grown(listing.size, out, before)?,
        chain,
    })
}
