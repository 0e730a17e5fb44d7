//! The object table of a tenant: which object names it has, in the order in which they were added.
//!
//! The contents lie in the pool, which the tenants share. A lookup uses only this table, so what is
//! not in it does not exist for the tenant. Objects after the committed prefix belong to the open
//! stream, and `roll_back` removes them. `Objects` shows the objects in sight to callers that only
//! read a repository.
#![tactic(auto)]

mod abbreviation;
mod copying;
mod entry;
mod entry_list;
mod fault;
mod found;
mod front;
pub mod laws;
mod objects;
mod places;
mod releasing;
mod sharing;
mod sight;
mod summary;
mod table;

pub use abbreviation::bounds;
pub use copying::copied_table;
pub use fault::Fault;
pub use found::Found;
pub use objects::Objects;
pub use sight::Sight;
pub use summary::Summary;
pub use table::{CONTENTS_LIMIT, OBJECTS_LIMIT, Table};
