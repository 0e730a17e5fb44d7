//! One stream of git-fast-import(1) from its bytes, over the objects and refs of one tenant.
//!
//! The bytes come in pieces that are cut anywhere. A piece does what the items that it completes
//! do. The pool, the table and the refs are lent to each call; this crate does not know who else
//! holds contents in the pool.
#![tactic(auto)]

mod stream;
mod stream_error;

pub use stream::Stream;
pub use stream_error::StreamError;
