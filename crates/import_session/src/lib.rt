//! One stream of git-fast-import(1), item by item, over the objects and refs of one tenant.
//!
//! `stream_lex` splits the bytes into items, `stream_commands` carries out all commands but commits,
//! and `content_pool` keeps the contents. Each call of a session borrows the pool, the table and the
//! refs, and looks only at its own table.
#![tactic(auto)]

mod acts;
mod changes;
mod closing;
mod commits;
mod opening;
mod session;

pub use session::Session;
pub use stream_parts::fault::Fault;
