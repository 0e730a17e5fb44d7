//! Readers that lend what comes next in place of copying it: bytes in memory, and files.
//!
//! What a reader lends stays for as long as the process lives, and nobody writes into it. Nothing
//! here knows what the bytes mean.
#![tactic(auto)]

mod chunked_file;
mod lent_bytes;
mod placed_file;

pub use chunked_file::ChunkedFile;
pub use lent_bytes::LentBytes;
