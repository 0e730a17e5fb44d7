//! Defines Git's objects, and states laws of these definitions.
//!
//! The definitions are in `specs/`. The only Rust here is two enums, which code and definitions
//! share, the error of calls that fail only if memory runs out, and the functions of `laws`, which
//! do nothing when they run.
#![tactic(auto)]

mod file_mode;
mod kind;
pub mod laws;
mod memory;

pub use file_mode::FileMode;
pub use kind::Kind;
pub use memory::Memory;
