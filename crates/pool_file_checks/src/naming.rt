//! The names and the contents of a file's objects.

ghost use Rattle.std.specs.Prelude.{◌≡◌, IfOk};
ghost use Rattle.git_model.specs.Content.{content_from};
ghost use Rattle.pool_file_checks.specs.Own.{kind_of, content_at, names_of};
ghost use Rattle.pool_file_format.specs.Shown.{objects_of};

use git_names::{Memory, Name, Naming, name_of};
use git_objects::Kind;
use pool_file_format::RawObject;
use std::alloc::Global;

/// The kind of this byte of the file. A byte of no kind counts as that of a blob.
pub fn kind_of(byte: u8) -> Kind
    ensures { result ≡ kind_of byte }
{
    match byte {
        1 => Kind::Commit,
        2 => Kind::Tree,
        4 => Kind::Tag,
        _ => Kind::Blob,
    }
}

/// The content of the object with this number in the file's list, from 0; an empty blob past the
/// end of the list.
pub fn content_at(objects: &[RawObject], number: usize) -> (Kind, &[u8])
    ensures { content_from result.0 result.1.now ≡ content_at (objects_of objects.now) number }
{
    match objects.get(number) {
        Some(object) => (kind_of(object.kind), object.bytes.as_slice()),
        None => (Kind::Blob, &[]),
    }
}

/// The names of all objects of a file under this naming, in their order.
///
/// `Memory` (90) if there is no memory for them.
pub fn name_objects<N: Naming>(
    alloc: Global,
    naming: &N,
    objects: &[RawObject],
) -> Result<Vec<Name>, Memory>
    ensures { IfOk result (λ names. names.items
        ≡ names_of N.digest_of (objects_of objects.now)) }
{
    let mut names = Vec::with_capacity(alloc, objects.len())?;
    for object in objects {
        let id = name_of(alloc, naming, kind_of(object.kind), object.bytes.as_slice())?;
        names.push(id)?;
    }
    Ok(names)
}
