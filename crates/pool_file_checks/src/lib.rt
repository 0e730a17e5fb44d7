//! What a pool file may say, and which repositories it says.
//!
//! `read_judged` reads a file and judges it. `check_file` makes all checks of a file in their
//! order; the other checks are its parts. Crate pool_file makes pools and tables from a judged
//! file.
#![tactic(auto)]

mod alike;
mod contents;
mod fronts;
mod good;
mod held;
mod judged;
mod judging;
mod known;
mod last_trees;
pub mod laws;
mod naming;
mod order;
mod own;
mod quick;
mod references;
mod refs;
mod standing;
mod sums;
mod targets;
mod tenants;
mod whole;

pub use held::check_held;
pub use judged::{Judged, read_judged, read_judged_by};
pub use judging::check_objects;
pub use known::KnownSums;
pub use naming::{kind_of, name_objects};
pub use own::index_objects;
pub use references::check_references;
pub use refs::check_refs;
pub use sums::{add_object as add_sum, check_sums};
pub use tenants::{check_name, check_numbers};
pub use whole::check_file;
