//! The state of one running stream of git-fast-import(1), and what its commands do with it, except
//! `commit` and what changes the files of a commit.
//!
//! `import_session` carries the stream out. Each call borrows the pool, the table and the refs.
#![tactic(auto)]

pub mod checkpoint;
pub mod commit_ishes;
pub mod controls;
pub mod fault;
pub mod objects;
pub mod open_command;
mod print;
pub mod refs;
pub mod replies;
pub mod state;
mod tags;
