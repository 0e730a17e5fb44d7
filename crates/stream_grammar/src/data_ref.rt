//! Datarefs: git-fast-import(1), "cat-blob".

use crate::mark::Mark;
use git_names::Name;

/// How a command names an object: by its mark or by its object name. The parser does not decide
/// whether there is such an object.
#[derive(Clone, Copy, PartialEq, Eq)]
pub enum DataRef {
    /// The object that this mark was set to last.
    Mark(Mark),
    /// The object of this name.
    Name(Name),
}
