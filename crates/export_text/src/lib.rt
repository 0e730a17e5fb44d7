//! A repository as one stream of git-fast-import(1): git-fast-export(1).
//!
//! First come the objects that the refs reach, in the order of the repository, so an object comes
//! after all that it refers to. Then come the refs. An object's mark is its place, counted from 1.
#![tactic(auto)]

mod commit_text;
mod export;
mod fault;
mod file_text;
mod item_text;
pub mod laws;
mod mark_text;
mod marking;
mod object_text;
pub mod reached;
mod ref_text;
pub mod referring;
mod tag_refs;
mod tag_text;
mod told;

pub use export::{append_export, is_exportable};
pub use fault::Fault;
