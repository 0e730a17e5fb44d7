//! Tests of pool files and of packs. The crate has no other code.
#![tactic(auto)]

#[cfg(test)]
mod tests;
