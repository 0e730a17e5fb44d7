//! How many files a branch may have.

/// How many files a branch may have.
pub const FILES_LIMIT: usize = 1_048_576;
