//! Laws of exports and imports together: functions over the definitions alone, which run nothing.
//!
//! The laws say what the commands of an export leave when they are carried out in an empty
//! repository.
#![tactic(auto)]

pub mod examples;
pub mod laws;
