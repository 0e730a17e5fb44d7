//! Which commits a commit reaches by its parents: "reachable" of gitglossary(7).
//!
//! What a commit refers to comes before it in the list of objects. So a walk goes once from late
//! positions to early ones, without a queue or a stack, and reads each commit once.
#![tactic(auto)]

mod ancestry;
mod commits;
mod lines;
mod log;
mod log_key;
mod marks;
mod parents;
mod ranges;
mod reach;

pub use ancestry::Ancestry;
pub use lines::first_parent_in;
pub use log::{a_log_is_one_list, log_of};
pub use ranges::{log_between, log_of_either};
pub use reach::{reached_from, reaches};
