//! An ordered index of object names, for abbreviations: runs of names, each in order, that double
//! in length, and a few names after them in no order.
//!
//! The last few names and the runs that are no longer than what follows them become one run from
//! time to time. So a name costs a few sequential moves and 20 bytes, and a look-up searches each
//! run by halves.
#![tactic(auto)]

mod digits;
mod found;
mod index;
mod run;

pub use digits::shared_apart;
pub use found::Between;
pub use index::NameIndex;
