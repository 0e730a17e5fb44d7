//! How a program calls the crates of this repository: one example for each crate that users call.
//!
//! Each module stands word for word in the CALLING.md of the crate that it shows.
#![tactic(auto)]

pub mod asking;
pub mod checking;
pub mod counting;
pub mod importing;
pub mod outlining;
pub mod reloading;
pub mod rewording;
