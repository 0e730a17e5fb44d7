//! The files of a branch as a tree of directories. A directory is read only when it is needed.
#![tactic(auto)]

mod chunks;
mod component;
mod copying;
mod counting;
mod dir;
mod dropping;
mod edits;
mod entry;
mod extents;
mod files;
mod grafting;
pub mod laws;
mod matching;
mod moving;
mod names;
mod naming;
mod opening;
mod placing;
mod putting;
mod reading;
mod stores;
mod storing;
mod sums;
mod within;
mod writing;

pub use files::Files;
