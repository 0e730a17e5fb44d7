//! Marked objects: git-fast-import(1), "mark".

use git_model::Kind;
use git_names::Name;

/// What a mark stands for: an object and its kind. The parser sets no mark; the kind is kept for
/// those that do, so that a command can ask for it without a look at the object.
#[derive(Clone, Copy, PartialEq, Eq)]
pub struct MarkedObject {
    /// The name of the object.
    pub name: Name,
    /// The kind of the object.
    pub kind: Kind,
}
