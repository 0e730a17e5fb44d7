//! Reads and writes the contents of trees, commits and tags, byte for byte as Git does.
//!
//! Nothing here knows a repository, a pool or a tenant. The crate re-exports the names of git_names
//! and the devices of byte_devices that a user of contents needs.
#![tactic(auto)]

mod commit;
mod commit_time;
mod front;
mod header;
mod listing;
mod mode;
mod parts;
mod tag;
mod tree;
mod tree_entry;

pub use byte_devices::{Counted, DeviceFault, FailingReader, FailingWriter, write_all};
pub use commit::{
    CommitParts, look_commit, look_commit_tree, read_commit, read_commit_tree, write_commit,
};
pub use commit_time::time_of;
pub use git_model::{FileMode, Kind};
pub use git_names::{
    Ident, IdentFault as Fault, Memory, Name, Naming, Sha1Naming, TailNaming, has_twenty_bytes,
    is_ref_name, is_written_ident, kind_word, name_of,
};
pub use listing::{append_listing, kind_of_mode, six_digits};
pub use mode::{mode_digits, read_mode};
pub use parts::append_parts;
pub use tag::{TagParts, look_tag, read_tag, write_tag};
pub use tree::{look_tree, read_tree, write_tree};
pub use tree_entry::{TreeEntry, is_entry_name};
