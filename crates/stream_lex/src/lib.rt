//! The items of a git-fast-import(1) stream: lines, data and blank lines. The stream may be cut at
//! any byte.
//!
//! The lexer knows no command. It keeps one copy of the bytes whose item was not given yet, and
//! each item borrows from it. The crates above decide what an item means.
//!
//! ```rust
//! let mut lexer = Lexer::new(alloc);
//! lexer.feed(b"blob\ndata 6\nhel")?;
//! lexer.feed(b"lo\n")?;
//! // `next` gives Line("blob"), then Data("hello LF"), then None.
//! ```
#![tactic(auto)]

mod cursor;
mod fault;
mod header;
mod item;
pub mod laws;
mod lexer;
mod look;
mod place;
mod search;

pub use fault::Fault;
pub use item::Item;
pub use lexer::Lexer;
