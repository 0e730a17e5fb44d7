//! Reading rows.

ghost use Rattle.pool_file_format.specs.Lengths.{many_at};
ghost use Rattle.store_format.specs.Lengths.{summary_from, sizes_at, summary_at, row_at};
ghost use Rattle.store_format.specs.Shown.{Gives, sizes_of, summary_of, row_of, rows_of};
ghost use Rattle.std.specs.Prelude.{◌≡◌};

use crate::parts::{next_byte, next_digest, next_u16, next_u32};
use crate::row::{Row, Summary};
use pool_file_format::Fault;
use std::alloc::Global;

#[tactic(auto, unfolding(crate::specs::Lengths::sizes_at))]
fn read_sizes(bytes: &[u8]) -> Result<(Summary, &[u8]), Fault>
    ensures { Gives (λ x. (sizes_of x.0, x.1.now)) result (sizes_at bytes.now) }
{
    let (files, rest) = next_u32(bytes)?;
    let (depth, rest) = next_u16(rest)?;
    let (longest, rest) = next_u16(rest)?;
    let sizes = Summary {
        files,
        depth,
        longest,
    };
    Ok((sizes, rest))
}

// A summary, or none if all its bytes are 255.
fn summary_with(sizes: Summary) -> Option<Summary>
    ensures { summary_of result ≡ summary_from (sizes_of sizes) }
{
    if sizes.files == 0xffff_ffff && sizes.depth == 0xffff && sizes.longest == 0xffff {
        None
    } else {
        Some(sizes)
    }
}

#[tactic(auto, unfolding(crate::specs::Lengths::summary_at))]
fn read_summary(bytes: &[u8]) -> Result<(Option<Summary>, &[u8]), Fault>
    ensures { Gives (λ x. (summary_of x.0, x.1.now)) result (summary_at bytes.now) }
{
    let (sizes, rest) = read_sizes(bytes)?;
    Ok((summary_with(sizes), rest))
}

/// Reads a row: 41 bytes. Judges nothing of what it says.
///
/// `CutOff` (62) if there are fewer bytes. Takes no memory.
#[tactic(auto, unfolding(crate::specs::Lengths::row_at))]
pub fn read_row(bytes: &[u8]) -> Result<(Row, &[u8]), Fault>
    ensures { Gives (λ x. (row_of x.0, x.1.now)) result (row_at bytes.now) }
{
    let (id, rest) = next_digest(bytes)?;
    let (kind, rest) = next_byte(rest)?;
    let (file, rest) = next_u32(rest)?;
    let (offset, rest) = next_u32(rest)?;
    let (size, rest) = next_u32(rest)?;
    let (summary, rest) = read_summary(rest)?;
    let row = Row {
        id,
        kind,
        file,
        offset,
        size,
        summary,
    };
    Ok((row, rest))
}

/// `count` rows.
pub fn read_many_rows(alloc: Global, count: u32, bytes: &[u8]) -> Result<(Vec<Row>, &[u8]), Fault>
    ensures { Gives (λ x. (rows_of x.0.items, x.1.now)) result (many_at row_at count bytes.now) }
{
    let mut rows = Vec::new(alloc);
    let mut rest = bytes;
    for _ in 0..count {
        let (row, after) = read_row(rest)?;
        rows.push(row)?;
        rest = after;
    }
    Ok((rows, rest))
}
