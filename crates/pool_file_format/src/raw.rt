//! The raw values of a file, as they were read or will be written.

use content_pool::Bytes;

/// An object: the byte of its kind (commit 1, tree 2, blob 3, tag 4), and its contents, owned or
/// lent.
#[derive(Drop)]
pub struct RawObject {
    pub kind: u8,
    pub bytes: Bytes,
}

/// A ref: its full name with the namespaces of its tenant, and the position of its target among the
/// tenant's objects, from 0.
#[derive(Drop)]
pub struct RawRef {
    pub name: Vec<u8>,
    pub place: u64,
}

/// A tenant: its name, the numbers of its objects in the file's list, from 0, its refs, and the ref
/// that HEAD names.
#[derive(Drop)]
pub struct RawTenant {
    pub name: Vec<u8>,
    pub numbers: Vec<u64>,
    pub refs: Vec<RawRef>,
    pub head: Vec<u8>,
}

/// A file without its digest: its version (1 or 2), all objects, and all tenants.
#[derive(Drop)]
pub struct RawFile {
    pub version: u32,
    pub objects: Vec<RawObject>,
    pub tenants: Vec<RawTenant>,
}
