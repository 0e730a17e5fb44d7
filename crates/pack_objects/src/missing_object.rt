//! A missing object, as it is told.

use git_objects::{Kind, Name};

/// An object that a pack has: its name, its kind, and the size of its contents in bytes.
#[derive(Clone, Copy, Debug, PartialEq, Eq)]
pub struct MissingObject {
    /// The object name.
    pub id: Name,
    /// The kind.
    pub kind: Kind,
    /// How many bytes the contents have.
    pub size: u64,
}
