//! The commands of a stream: git-fast-import(1), "Commands".
//!
//! A parser takes the items of a stream in order and answers what each asks for. It knows the
//! grammar and the words of a line, and nothing about a repository: it looks up no mark and no
//! object. It holds the open command, with the parts that may still come, or the fault that it has
//! answered.
//!
//! ```text
//! commit refs/heads/m           Commit(Begin(refs/heads/m))
//! mark :3                       Wait
//! committer A <a@b> 0 +0000     Commit(Committer(A <a@b> 0 +0000))
//! data 2                        Commit(Message { mark: Some(3), message: "x\n" })
//! M 644 :1 a/b                  Change(Modify { mode: Regular, object: Mark(1), path: a/b })
//! get-mark :1                   the commit ends, and Reply(GetMark(1))
//! ```
#![tactic(auto)]

mod act;
mod changes;
mod command;
mod commit_ish;
mod data_ref;
mod fault;
mod feature;
pub mod laws;
mod lines;
mod mark;
mod marked_object;
mod names;
mod parser;
mod part;
mod stage;
mod text;

pub use act::{
    Act, CommitCommand, ControlCommand, Done, FileChange, ObjectCommand, RefCommand, ReplyCommand,
};
pub use commit_ish::CommitIsh;
pub use data_ref::DataRef;
pub use fault::Fault;
pub use feature::Feature;
pub use git_model::FileMode;
pub use git_names::{Ident, Name, RefName};
pub use git_paths::Path;
pub use mark::Mark;
pub use marked_object::MarkedObject;
pub use parser::Parser;
pub use part::{
    ChangeLine, CommitIshLine, ControlLine, HeaderLine, OpeningLine, Part, ReplyLine, part_of,
};
