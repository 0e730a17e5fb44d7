//! Deltas of Git: gitformat-pack(5), "Deltified representation".
//!
//! A delta says how to make one text of another, its base: which parts of the base to copy, and
//! which bytes to insert. `patched` makes that text. Nothing here makes deltas.
#![tactic(auto)]

mod fault;
mod instruction;
mod number;
mod patching;

pub use fault::Fault;
pub use patching::patched;
