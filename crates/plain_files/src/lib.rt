//! The files of a branch as a plain map from paths to entries, to compare tree_build with.
#![tactic(auto)]

mod below;
mod check;
mod files;
mod grafted;
mod map;
mod naming;
mod storing;

pub use files::Files;
