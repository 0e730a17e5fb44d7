//! Tests of command lines. The crate has nothing else.
#![tactic(auto)]

#[cfg(test)]
mod help;
#[cfg(test)]
mod lines;
#[cfg(test)]
mod refusals;
#[cfg(test)]
mod told;
