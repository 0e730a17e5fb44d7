//! The pool file as bytes: all repositories of a service, number by number, and a digest.
//!
//! A file is read from a counted reader and written to a counted writer as raw values. Crate
//! pool_file_checks judges what the values say, and pool_file makes pools and tables from them.
#![tactic(auto)]

mod digesting;
mod fault;
mod fields;
mod filling;
mod gathering;
pub mod laws;
mod listed;
mod number_block;
mod printing;
mod raw;
mod reading;
mod refusal;
mod sealing;
mod sink;

pub use digesting::{DigestState, StreamingDigest};
pub use fault::Fault;
pub use listed::LentObject;
pub use raw::{RawFile, RawObject, RawRef, RawTenant};
pub use reading::{READS_LIMIT, read_file, read_file_by};
pub use refusal::Refusal;
pub use sealing::{digest_of, read_sealed, read_sealed_by, write_lent, write_sealed};
