//! Command lines of `gitpool`: the subcommand that the words name, with its arguments.
//!
//! The words are read by `clap`, after the rules of gitcli(7). A refusal is `clap`'s error, whose
//! text is the usage or the help. Nothing here opens a file, prints or ends the program.
#![tactic(auto)]

mod line;
mod usage;
mod version;

pub use line::Line;
pub use version::VERSION;
