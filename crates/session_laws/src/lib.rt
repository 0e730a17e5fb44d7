//! Laws of one stream of git-fast-import(1): functions over the definitions alone, which run
//! nothing.
//!
//! The laws say what a running stream keeps true, and that no act comes where the command that it
//! belongs to is not open.
#![tactic(auto)]

pub mod laws;
