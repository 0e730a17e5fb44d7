//! What the tests of pool files share: the parts of a file, and the number of an answer.

use byte_devices::Counted;
use content_pool::Bytes;
use git_names::{Name, Naming};
use pool_file_checks::name_objects;
use pool_file_format::{Fault, RawFile, RawObject, RawTenant, StreamingDigest, write_sealed};
use std::alloc::Global;

/// The byte of a kind, and contents.
pub type Object<'a> = (u8, &'a [u8]);

/// Objects, and their names.
#[derive(Drop)]
pub struct Named {
    pub objects: Vec<RawObject>,
    pub names: Vec<Name>,
}

/// Adds an object of a kind.
pub fn push_object(
    alloc: Global,
    objects: &mut Vec<RawObject>,
    kind: u8,
    bytes: &[u8],
) -> Result<(), Fault> {
    let bytes = Bytes::taken(Vec::from_slice(alloc, bytes)?);
    objects.push(RawObject { kind, bytes })?;
    Ok(())
}

fn push_objects(
    alloc: Global,
    list: &mut Vec<RawObject>,
    objects: &[Object<'_>],
) -> Result<(), Fault> {
    for (kind, bytes) in objects {
        push_object(alloc, list, *kind, bytes)?;
    }
    Ok(())
}

/// The objects of a file.
pub fn objects_of(alloc: Global, objects: &[Object<'_>]) -> Result<Vec<RawObject>, Fault> {
    let mut list = Vec::new(alloc);
    push_objects(alloc, &mut list, objects)?;
    Ok(list)
}

/// Objects under the names that a naming gives them.
pub fn with_names<N: Naming>(
    alloc: Global,
    naming: &N,
    objects: &[Object<'_>],
) -> Result<Named, Fault> {
    let objects = objects_of(alloc, objects)?;
    let names = name_objects(alloc, naming, &objects)?;
    Ok(Named { objects, names })
}

/// A tenant without refs.
pub fn tenant_of(
    alloc: Global,
    name: &[u8],
    numbers: &[u64],
    head: &[u8],
) -> Result<RawTenant, Fault> {
    Ok(RawTenant {
        name: Vec::from_slice(alloc, name)?,
        numbers: Vec::from_slice(alloc, numbers)?,
        refs: Vec::new(alloc),
        head: Vec::from_slice(alloc, head)?,
    })
}

/// All bytes of a file.
pub fn printed<N: StreamingDigest>(
    alloc: Global,
    naming: &N,
    file: &RawFile,
) -> Result<Vec<u8>, Fault> {
    let mut writer = Counted::new(Vec::new(alloc));
    write_sealed(naming, file, &mut writer)?;
    Ok(writer.into_inner())
}

/// The number of the fault that is answered, 0 for none.
pub fn code_of<T: Drop>(answer: Result<T, Fault>) -> u16 {
    match answer {
        Ok(_) => 0,
        Err(fault) => fault.code(),
    }
}

/// The number of a refusal by its last digit, 0 for a point.
pub fn number_of(digit: u8) -> u16 {
    match digit {
        b'.' => 0,
        _ => digit.wrapping_add(12) as u16,
    }
}
