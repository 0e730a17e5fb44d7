//! The files of a branch: which file stands at each path, and the trees that they make.
#![tactic(auto)]

mod check;
mod entry;
mod fault;
mod grafted;
pub mod laws;
mod naming;
mod storing;

pub use check::FILES_LIMIT;
pub use entry::Entry;
pub use fault::Fault;
pub use grafted::{is_small, read_entries, tree_summary};
pub use naming::contents_of;
pub use storing::{add_contents, add_entries};
