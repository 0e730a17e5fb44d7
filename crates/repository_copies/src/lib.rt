//! Which objects a copy of a repository has, by their places.
//!
//! The copy that the import of an export leaves is defined: which objects it has, and in which
//! order. Here they are found by a walk over the objects that the refs reach, and no text is
//! written.
#![tactic(auto)]

mod copying;
mod fits;
mod found;
mod limits;
mod trees;

pub use copying::copied_places;
