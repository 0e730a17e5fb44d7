//! A commit of git-fast-import(1) from its message to its end: its parents, the changes of its
//! files, and the objects that it makes.
//!
//! Each call borrows the marks, the pool and the table that it needs. The caller decides what a
//! branch is, which commit a commit-ish names, and what is printed.
#![tactic(auto)]

mod changes;
mod closing;
mod contents;
mod datarefs;
mod fault;
pub mod file_laws;
pub mod laws;
mod open_commit;
mod parents;
mod showing;
mod storing;

pub use fault::Fault;
pub use open_commit::{Header, OpenCommit};
