//! Chains of digests: each takes the one before it and one more text.

ghost use Rattle.std.specs.Prelude.{◌≡◌, ◌++◌, IfOk};
ghost use Rattle.store_format.specs.{Chains.{chained_on}, Rows.{row_text}, Records.{record_text}};
ghost use Rattle.store_format.specs.Shown.{row_of, rows_of, record_of, records_of};

use crate::printing::{append_record, append_row};
use crate::row::Row;
use crate::tenant_record::TenantRecord;
use git_names::{Memory, Naming};
use std::alloc::Global;

/// The chain of no rows or records.
pub const NO_CHAIN: [u8; 20] = [0; 20];

// The chain after one more row.
fn row_chained<N: Naming>(
    alloc: Global,
    naming: &N,
    chain: &[u8; 20],
    row: &Row,
) -> Result<[u8; 20], Memory>
    ensures { IfOk result (λ after. after
        ≡ N.digest_of (chain.now ++ row_text (row_of row.now))) }
{
    let mut text = Vec::new(alloc);
    append_row(&mut text, row)?;
    naming.digest_parts(alloc, chain, &text)
}

/// The chain after more rows, under this naming. `Memory` (90) if there is no memory for the text of
/// one of them.
pub fn rows_chained<N: Naming>(
    alloc: Global,
    naming: &N,
    chain: [u8; 20],
    rows: &[Row],
) -> Result<[u8; 20], Memory>
    ensures { IfOk result (λ after. after
        ≡ chained_on N.digest_of row_text chain (rows_of rows.now)) }
{
    let mut after = chain;
    for row in rows {
        after = row_chained(alloc, naming, &after, row)?;
    }
    Ok(after)
}

// The chain after one more record.
fn record_chained<N: Naming>(
    alloc: Global,
    naming: &N,
    chain: &[u8; 20],
    tenant: &TenantRecord,
) -> Result<[u8; 20], Memory>
    ensures { IfOk result (λ after. after
        ≡ N.digest_of (chain.now ++ record_text (record_of tenant.now))) }
{
    let mut text = Vec::new(alloc);
    append_record(&mut text, tenant)?;
    naming.digest_parts(alloc, chain, &text)
}

/// The chain after more records, under this naming. `Memory` (90) if there is no memory for the text
/// of one of them.
pub fn records_chained<N: Naming>(
    alloc: Global,
    naming: &N,
    chain: [u8; 20],
    records: &[TenantRecord],
) -> Result<[u8; 20], Memory>
    ensures { IfOk result (λ after. after
        ≡ chained_on N.digest_of record_text chain (records_of records.now)) }
{
    let mut after = chain;
    for tenant in records {
        after = record_chained(alloc, naming, &after, tenant)?;
    }
    Ok(after)
}
