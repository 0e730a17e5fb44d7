//! The contents at the places of rows.

ghost use Rattle.store_format.specs.Saying.{file_of, bytes_from, object_of};
ghost use Rattle.store_format.specs.Shown.{Gives, numbered_of, raw_object_of, row_of};

use crate::row::Row;
use pool_file_format::{Fault, Refusal};

/// A file of contents whose bytes are lent: its number, and the bytes that the state counts.
#[derive(Clone, Copy)]
pub struct LentFile<'a> {
    pub number: u32,
    pub bytes: &'a [u8],
}

// The bytes of the file with this number.
#[tactic(auto, unfolding(crate::specs::Saying::file_of))]
fn file_with<'a>(files: &[LentFile<'a>], number: u32) -> Result<&'a [u8], Fault>
    ensures { Gives (λ x. x.now) result (file_of (numbered_of files.now) number) }
{
    for file in files {
        if file.number == number {
            return Ok(file.bytes);
        }
    }
    Err(Fault::Refused(Refusal::MissingReference))
}

// The bytes of a file at this place.
fn bytes_at_place(bytes: &[u8], offset: u32, size: u32) -> Result<&[u8], Fault>
    ensures { Gives (λ x. x.now) result (bytes_from offset size bytes.now) }
{
    let (offset, size) = (offset as usize, size as usize);
    if bytes.len() < offset + size {
        return Err(Fault::Refused(Refusal::MissingReference));
    }
    let (_before, rest) = bytes.split_at(offset);
    Ok(rest.split_at(size).0)
}

/// The contents of a row, which is not looked at otherwise.
///
/// `MissingReference` (66) if none of the files has the row's number, or that file ends before the
/// row's place does. Takes no memory.
#[tactic(auto, unfolding(crate::specs::Saying::object_of))]
pub fn content_of<'a>(files: &[LentFile<'a>], row: &Row) -> Result<&'a [u8], Fault>
    ensures { Gives (λ x. raw_object_of row.now.kind x.now) result
        (object_of (numbered_of files.now) (row_of row.now)) }
{
    let bytes = file_with(files, row.file)?;
    bytes_at_place(bytes, row.offset, row.size)
}
