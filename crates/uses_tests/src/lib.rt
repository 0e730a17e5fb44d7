//! Tests of the examples. The crate has no other code.
#![tactic(auto)]

#[cfg(test)]
mod of_one_layer;
