//! The state of a store, as it was read or will be written.

/// A file of contents.
#[derive(Clone, Copy, Drop)]
pub struct ContentsFile {
    /// The number of the file.
    pub number: u32,
    /// How many of its bytes count, at most 2^30.
    pub size: u32,
}

/// A file of rows or of records.
#[derive(Clone, Copy, Drop)]
pub struct Listing {
    /// The number of the file.
    pub number: u32,
    /// How many rows or records count.
    pub count: u32,
    /// In how many bytes.
    pub size: u64,
    /// The chain of their digests.
    pub chain: [u8; 20],
}

/// A state: which files a store has, and how much of each counts.
#[derive(Drop)]
pub struct State {
    /// How many saves were before this one.
    pub generation: u64,
    /// The first number that no file has had yet.
    pub next: u32,
    /// The files of contents, in the order of their numbers.
    pub contents: Vec<ContentsFile>,
    /// The file of rows.
    pub rows: Listing,
    /// The file of the records of tenants.
    pub tenants: Listing,
}
