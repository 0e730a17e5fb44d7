//! The pool of contents that all tenants share. Each distinct content is stored once, in a slot
//! with a count of holds. After the last hold is released the slot is used again.
//!
//! The pool knows no tenant and gives object names no meaning: a caller keeps slots, and may keep
//! names with them. Two contents are the same if their kinds and bytes are, whatever their names.
#![tactic(auto)]

mod bucket;
mod bytes;
mod index;
mod pool;
mod prefix;
mod slot;
mod stored;

pub use bytes::Bytes;
pub use pool::Pool;
pub use slot::Slot;
