//! The marks of a stream: git-fast-import(1), "mark".
#![tactic(auto)]

mod table;

pub use table::Marks;
