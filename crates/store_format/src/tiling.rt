//! How contents lie in their files.

ghost use Rattle.std.specs.Prelude.{◌≡◌, ◌≤◌, ◌↔◌, IsTrue, length};
ghost use Rattle.pool_file_format.specs.declared.refusal.Refusal.TheVariants as refusal;
ghost use Rattle.store_format.specs.Tiling.{FillFrom, count_in, AreTiled};
ghost use Rattle.store_format.specs.Shown.{Requires, contents_file_of, contents_files_of, rows_of};

use crate::row::Row;
use crate::state::{ContentsFile, State};
use pool_file_format::{Fault, Refusal};

// How many rows come before the first one that names another file.
fn count_in(number: u32, rows: &[Row]) -> usize
    ensures count { result ≡ count_in number (rows_of rows.now) }
    ensures few { result ≤ length rows.now }
{
    let mut count = 0;
    for row in rows {
        if row.file != number {
            return count;
        }
        count += 1;
    }
    count
}

// Whether the contents of a row begin at this place.
fn begins_at(row: &Row, number: u32, offset: u64) -> bool
    ensures { IsTrue result ↔ ((row.now.file ≡ number) × (row.now.offset ≡ offset)) }
{
    row.file == number && u64::from(row.offset) == offset
}

// Whether the contents of these rows are all bytes of the file.
fn is_filled(file: &ContentsFile, rows: &[Row]) -> bool
    ensures { IsTrue result ↔ FillFrom (contents_file_of file.now) 0 (rows_of rows.now) }
{
    let mut end = 0;
    for row in rows {
        if !begins_at(row, file.number, end) {
            return false;
        }
        end = u64::from(row.offset) + u64::from(row.size);
    }
    end == u64::from(file.size)
}

fn are_tiled(files: &[ContentsFile], rows: &[Row]) -> bool
    ensures { IsTrue result ↔ AreTiled (contents_files_of files.now) (rows_of rows.now) }
{
    let mut left = rows;
    for file in files {
        let (own, others) = left.split_at(count_in(file.number, left));
        if !is_filled(file, own) {
            return false;
        }
        left = others;
    }
    left.is_empty()
}

/// Judges where the rows of a state say that their contents are.
///
/// `NotCanonical` (64) unless they lie one after the other in the order of the rows, file after
/// file, from the first byte of each file to its size. So no file has a byte that no row has, and
/// no byte is that of two rows. Takes no memory.
pub fn check_places(state: &State, rows: &[Row]) -> Result<(), Fault>
    ensures { Requires (AreTiled (contents_files_of state.now.contents.items) (rows_of rows.now))
        refusal.NotCanonical result }
{
    if !are_tiled(&state.contents, rows) {
        return Err(Fault::Refused(Refusal::NotCanonical));
    }
    Ok(())
}
