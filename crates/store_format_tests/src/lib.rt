//! Tests of the files of a store. The crate has no other code.
#![tactic(auto)]

#[cfg(test)]
mod tests;
