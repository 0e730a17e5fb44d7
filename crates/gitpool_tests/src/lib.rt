//! Tests of whole services and whole streams, across crates. The crate has nothing else.
#![tactic(auto)]

#[cfg(test)]
mod tests;
#[cfg(test)]
mod two_tenants;
