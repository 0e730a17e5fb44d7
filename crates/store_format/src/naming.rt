//! Whether rows have the names of their contents.

ghost use Rattle.store_format.specs.Naming.{kind_at, named, all_named};
ghost use Rattle.store_format.specs.Shown.{Gives, numbered_of, row_of, rows_of};

use crate::contents::{LentFile, content_of};
use crate::parts::is_same;
use crate::row::Row;
use git_model::Kind;
use git_names::{Naming, name_of};
use pool_file_format::{Fault, Refusal};
use std::alloc::Global;

// The kind of a byte.
fn kind_at(byte: u8) -> Result<Kind, Fault>
    ensures { Gives (λ x. x) result (kind_at byte) }
{
    match byte {
        1 => Ok(Kind::Commit),
        2 => Ok(Kind::Tree),
        3 => Ok(Kind::Blob),
        4 => Ok(Kind::Tag),
        _ => Err(Fault::Refused(Refusal::BadObject)),
    }
}

#[tactic(auto, unfolding(crate::specs::Naming::named))]
fn check_name<N: Naming>(
    alloc: Global,
    naming: &N,
    files: &[LentFile<'_>],
    row: &Row,
) -> Result<(), Fault>
    ensures { Gives (λ x. x) result (named N.digest_of (numbered_of files.now) (row_of row.now)) }
{
    let bytes = content_of(files, row)?;
    let kind = kind_at(row.kind)?;
    let id = name_of(alloc, naming, kind, bytes)?;
    if !is_same(&row.id, id.as_bytes()) {
        return Err(Fault::Refused(Refusal::NotCanonical));
    }
    Ok(())
}

/// Judges whether each row has the name of its contents under this naming. Trees, commits and tags
/// are not read.
///
/// The first refusal in the order of the rows: `MissingReference` (66) if the contents of a row are
/// not there, `BadObject` (65) if its kind is none, `NotCanonical` (64) if its name is another.
/// `Memory` (90) comes only from a naming that copies what it digests.
pub fn check_names<N: Naming>(
    alloc: Global,
    naming: &N,
    files: &[LentFile<'_>],
    rows: &[Row],
) -> Result<(), Fault>
    ensures { Gives (λ x. x) result
        (all_named N.digest_of (numbered_of files.now) (rows_of rows.now)) }
{
    for row in rows {
        check_name(alloc, naming, files, row)?;
    }
    Ok(())
}
