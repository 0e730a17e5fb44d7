//! The text of a pack, without deltas and without compression: gitformat-pack(5).
//!
//! `write_pack` writes a whole pack without holding it. `append_entry` appends the entry of one
//! object, and `entry_len` tells its length beforehand. A law says that a whole pack is read back.
//! Nothing here reads one.
#![tactic(auto)]

mod adler;
mod block_writer;
mod entry;
mod entry_length;
pub mod laws;
mod pack;
mod pack_contents;
mod sink;

pub use adler::adler32;
pub use entry::{append_entry, number_of};
pub use entry_length::entry_len;
pub use pack::write_pack;
pub use pack_contents::PackContents;
