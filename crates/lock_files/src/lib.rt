//! Lock files as Git has them: a file beside another one, which whoever works on that file holds
//! locked, and which takes its name by rename(2) when it is whole and on the disk.
//!
//! `LockFile` is such a file. `NextFile` is a further one, for a holder that replaces the file again
//! and again and keeps the lock. They look at no byte of what is written to them.
#![tactic(auto)]

mod links;
mod lock_file;
mod named_files;
mod next_file;
mod replacements;

pub use lock_file::LockFile;
pub use next_file::NextFile;
