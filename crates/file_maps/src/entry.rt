//! What stands at a path of a file map.

use git_model::FileMode;
use git_objects::Name;

/// What stands at a path: the mode, and the object name of the blob, of the tree, or of the commit
/// of a gitlink.
#[derive(Clone, Copy, Debug, PartialEq, Eq)]
pub struct Entry {
    /// Whether it is a file, an executable, a symbolic link, a gitlink or a directory.
    pub mode: FileMode,
    /// The name of its object, 20 bytes.
    pub name: Name,
}
