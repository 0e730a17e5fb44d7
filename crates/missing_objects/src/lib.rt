//! Which objects some names reach and others do not: git-rev-list(1), `--objects WANT.. ^HAVE..`.
//!
//! An object comes after all that it refers to. So one sweep from the last object to the first
//! settles whether an object is wanted and whether it is had, and it stops as soon as no wanted
//! object that is not had lies below.
#![tactic(auto)]

mod fault;
mod flags;
pub mod laws;
mod marks;
mod missing;
mod sweep;

pub use fault::MissingFault;
pub use missing::missing_places;
