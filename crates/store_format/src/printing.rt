//! Writing states, rows and records.

ghost use Rattle.std.specs.{Prelude.{◌≡◌, ◌++◌, OnOk, IfOk}, List.{flat_map}, Int.{w16}};
ghost use Rattle.pool_file_format.specs.Format.{sized, counted};
ghost use Rattle.store_format.specs.State.{contents_file_text, listing_text, body_text, state_text};
ghost use Rattle.store_format.specs.Rows.{row_text, place_text, summary_text, sizes_text};
ghost use Rattle.store_format.specs.Records.{row_number_text, optional_text, change_text};
ghost use Rattle.store_format.specs.Records.{record_text};
ghost use Rattle.store_format.specs.Shown.{contents_file_of, contents_files_of, listing_of};
ghost use Rattle.store_format.specs.Shown.{state_of, sizes_of, summary_of, row_of, rows_of};
ghost use Rattle.store_format.specs.Shown.{change_of, changes_of, record_of, records_of};

use crate::row::{Row, Summary};
use crate::state::{ContentsFile, Listing, State};
use crate::tenant_record::{RefChange, TenantRecord};
use git_names::Naming;
use std::alloc::{AllocError, Global};

/// The first eight bytes of a state.
pub const MAGIC: &[u8] = b"gpstore\n";

// The sizes that stand where there is no summary.
const NO_SIZES: Summary = Summary {
    files: 0xffff_ffff,
    depth: 0xffff,
    longest: 0xffff,
};

fn append_contents_file(out: &mut Vec<u8>, file: &ContentsFile) -> Result<(), AllocError>
    ensures { OnOk result (out.new.items
        ≡ out.old.items ++ contents_file_text (contents_file_of file.now)) }
{
    out.extend_from_slice(&file.number.to_be_bytes())?;
    out.extend_from_slice(&file.size.to_be_bytes())
}

fn append_contents(out: &mut Vec<u8>, files: &[ContentsFile]) -> Result<(), AllocError>
    ensures { OnOk result (out.new.items
        ≡ out.old.items ++ flat_map contents_file_text (contents_files_of files.now)) }
{
    for file in files {
        append_contents_file(out, file)?;
    }
    Ok(())
}

// All files of contents, after their count.
fn append_counted(out: &mut Vec<u8>, files: &[ContentsFile]) -> Result<(), AllocError>
    ensures { OnOk result (out.new.items
        ≡ out.old.items ++ counted contents_file_text (contents_files_of files.now)) }
{
    out.extend_from_slice(&(files.len() as u64).to_be_bytes())?;
    append_contents(out, files)?;
    Ok(())
}

fn append_listing(out: &mut Vec<u8>, listing: &Listing) -> Result<(), AllocError>
    ensures { OnOk result (out.new.items ≡ out.old.items ++ listing_text (listing_of listing.now)) }
{
    out.extend_from_slice(&listing.number.to_be_bytes())?;
    out.extend_from_slice(&listing.count.to_be_bytes())?;
    out.extend_from_slice(&listing.size.to_be_bytes())?;
    out.extend_from_slice(&listing.chain)
}

// All bytes of a state before its digest.
fn append_body(out: &mut Vec<u8>, state: &State) -> Result<(), AllocError>
    ensures { OnOk result (out.new.items ≡ out.old.items ++ body_text (state_of state.now)) }
{
    out.extend_from_slice(MAGIC)?;
    out.extend_from_slice(&1u32.to_be_bytes())?;
    out.extend_from_slice(&state.generation.to_be_bytes())?;
    out.extend_from_slice(&state.next.to_be_bytes())?;
    append_counted(out, &state.contents)?;
    append_listing(out, &state.rows)?;
    append_listing(out, &state.tenants)?;
    Ok(())
}

/// The digest of all bytes of a state before its digest, under this naming.
pub fn body_digest<N: Naming>(
    alloc: Global,
    naming: &N,
    state: &State,
) -> Result<[u8; 20], AllocError>
    ensures { IfOk result (λ digest. digest ≡ N.digest_of (body_text (state_of state.now))) }
{
    let mut body = Vec::new(alloc);
    append_body(&mut body, state)?;
    Ok(naming.digest(&body))
}

/// Appends a state, and after it the digest of its bytes under this naming.
///
/// `AllocError` (90) if there is no memory for it; part of it may then be appended.
pub fn append_state<N: Naming>(
    alloc: Global,
    naming: &N,
    out: &mut Vec<u8>,
    state: &State,
) -> Result<(), AllocError>
    ensures { OnOk result (out.new.items
        ≡ out.old.items ++ state_text N.digest_of (state_of state.now)) }
{
    let digest = body_digest(alloc, naming, state)?;
    append_body(out, state)?;
    out.extend_from_slice(&digest)?;
    Ok(())
}

fn append_place(out: &mut Vec<u8>, row: &Row) -> Result<(), AllocError>
    ensures { OnOk result (out.new.items ≡ out.old.items ++ place_text (row_of row.now)) }
{
    out.extend_from_slice(&row.file.to_be_bytes())?;
    out.extend_from_slice(&row.offset.to_be_bytes())?;
    out.extend_from_slice(&row.size.to_be_bytes())
}

fn append_sizes(out: &mut Vec<u8>, sizes: &Summary) -> Result<(), AllocError>
    ensures { OnOk result (out.new.items ≡ out.old.items ++ sizes_text (sizes_of sizes.now)) }
{
    out.extend_from_slice(&sizes.files.to_be_bytes())?;
    out.extend_from_slice(&sizes.depth.to_be_bytes())?;
    out.extend_from_slice(&sizes.longest.to_be_bytes())
}

fn append_summary(out: &mut Vec<u8>, summary: &Option<Summary>) -> Result<(), AllocError>
    ensures { OnOk result (out.new.items ≡ out.old.items ++ summary_text (summary_of summary.now)) }
{
    match summary {
        None => append_sizes(out, &NO_SIZES),
        Some(sizes) => append_sizes(out, sizes),
    }
}

/// Appends a row: 41 bytes.
///
/// `AllocError` (90) if there is no memory for it; part of it may then be appended.
pub fn append_row(out: &mut Vec<u8>, row: &Row) -> Result<(), AllocError>
    ensures { OnOk result (out.new.items ≡ out.old.items ++ row_text (row_of row.now)) }
{
    out.extend_from_slice(&row.id)?;
    out.push(row.kind)?;
    append_place(out, row)?;
    append_summary(out, &row.summary)?;
    Ok(())
}

/// Appends rows, one after another.
pub fn append_many_rows(out: &mut Vec<u8>, rows: &[Row]) -> Result<(), AllocError>
    ensures { OnOk result (out.new.items ≡ out.old.items ++ flat_map row_text (rows_of rows.now)) }
{
    for row in rows {
        append_row(out, row)?;
    }
    Ok(())
}

// Bytes after their length in two bytes. A longer length is written modulo 65,536.
fn append_sized(out: &mut Vec<u8>, bytes: &[u8]) -> Result<(), AllocError>
    ensures { OnOk result (out.new.items ≡ out.old.items ++ sized w16 bytes.now) }
{
    out.extend_from_slice(&((bytes.len() % 65_536) as u16).to_be_bytes())?;
    out.extend_from_slice(bytes)
}

// 1 more than the number, or 0 for none. The greatest number is written as 0.
fn append_optional(out: &mut Vec<u8>, number: Option<u32>) -> Result<(), AllocError>
    ensures { OnOk result (out.new.items ≡ out.old.items ++ optional_text number) }
{
    match number {
        None => out.extend_from_slice(&0u32.to_be_bytes()),
        Some(number) => out.extend_from_slice(&number.wrapping_add(1).to_be_bytes()),
    }
}

fn append_many_numbers(out: &mut Vec<u8>, numbers: &[u32]) -> Result<(), AllocError>
    ensures { OnOk result (out.new.items ≡ out.old.items ++ flat_map row_number_text numbers.now) }
{
    for number in numbers {
        out.extend_from_slice(&number.to_be_bytes())?;
    }
    Ok(())
}

// All numbers of rows, after their count.
fn append_numbers(out: &mut Vec<u8>, numbers: &[u32]) -> Result<(), AllocError>
    ensures { OnOk result (out.new.items ≡ out.old.items ++ counted row_number_text numbers.now) }
{
    out.extend_from_slice(&(numbers.len() as u64).to_be_bytes())?;
    append_many_numbers(out, numbers)?;
    Ok(())
}

fn append_change(out: &mut Vec<u8>, change: &RefChange) -> Result<(), AllocError>
    ensures { OnOk result (out.new.items ≡ out.old.items ++ change_text (change_of change.now)) }
{
    append_sized(out, &change.name)?;
    append_optional(out, change.target)
}

fn append_many_changes(out: &mut Vec<u8>, changes: &[RefChange]) -> Result<(), AllocError>
    ensures { OnOk result (out.new.items
        ≡ out.old.items ++ flat_map change_text (changes_of changes.now)) }
{
    for change in changes {
        append_change(out, change)?;
    }
    Ok(())
}

// All changes of refs, after their count.
fn append_changes(out: &mut Vec<u8>, changes: &[RefChange]) -> Result<(), AllocError>
    ensures { OnOk result (out.new.items
        ≡ out.old.items ++ counted change_text (changes_of changes.now)) }
{
    out.extend_from_slice(&(changes.len() as u64).to_be_bytes())?;
    append_many_changes(out, changes)?;
    Ok(())
}

/// Appends a record. The length of a name, a ref or HEAD is written modulo 65,536.
///
/// `AllocError` (90) if there is no memory for it; part of it may then be appended.
pub fn append_record(out: &mut Vec<u8>, tenant: &TenantRecord) -> Result<(), AllocError>
    ensures { OnOk result (out.new.items ≡ out.old.items ++ record_text (record_of tenant.now)) }
{
    append_sized(out, &tenant.name)?;
    append_optional(out, tenant.base)?;
    out.extend_from_slice(&tenant.shared.to_be_bytes())?;
    append_numbers(out, &tenant.numbers)?;
    append_changes(out, &tenant.changes)?;
    append_sized(out, &tenant.head)?;
    Ok(())
}

/// Appends records, one after another.
pub fn append_many_records(out: &mut Vec<u8>, records: &[TenantRecord]) -> Result<(), AllocError>
    ensures { OnOk result (out.new.items
        ≡ out.old.items ++ flat_map record_text (records_of records.now)) }
{
    for tenant in records {
        append_record(out, tenant)?;
    }
    Ok(())
}
