//! Answers to queries over the objects and refs of one tenant.
#![tactic(auto)]

mod abbreviating;
mod answering;
mod fault;
pub mod laws;
mod log_printing;
mod object_printing;
mod printing;
mod query;
mod query_reading;
mod ref_printing;

pub use answering::{answer, answer_along};
pub use fault::Fault;
pub use query::{ObjectQuery, Query, RepositoryQuery};
pub use query_reading::read_query;
