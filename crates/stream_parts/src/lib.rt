//! What one stream of git-fast-import(1) keeps that needs no open commit: its marks, branches and
//! pending tags, what the lines of a command have said, and what is stored, looked up, saved and
//! printed by it.
//!
//! `import_session` carries the stream out. Each call borrows the pool, the table and the refs.
#![tactic(auto)]

pub mod branches;
pub mod checkpoint;
pub mod commit_ishes;
pub mod encoding;
pub mod entries;
pub mod fault;
pub mod head;
pub mod headers;
pub mod marks;
pub mod objects;
pub mod print;
pub mod tags;
pub mod target;
