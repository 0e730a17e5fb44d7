//! What a pack of a repository has: which objects are missing, their entries, and names and lists of
//! objects as bytes.
//!
//! Everything here goes by the objects in sight alone, and changes nothing.
#![tactic(auto)]

mod entries;
mod fault;
mod listing;
mod missing_object;
mod names;
mod pack;
mod told;

pub use entries::append_entries;
pub use fault::PackFault;
pub use listing::append_listing;
pub use missing_object::MissingObject;
pub use names::names_in;
pub use pack::write_missing;
pub use told::missing;
