//! Paths of a tree: reads them from a line of git-fast-import(1), prints them as Git does, and
//! compares, splits and joins them.
#![tactic(auto)]

mod components;
mod fault;
mod judging;
pub mod laws;
mod letters;
mod order;
mod path;
mod place;
mod prefixes;
mod printing;
mod reading;
mod unquoting;

pub use components::Components;
pub use fault::Fault;
pub use git_model::Memory;
pub use judging::is_component;
pub use path::Path;
pub use place::Place;
pub use printing::quote_into;
