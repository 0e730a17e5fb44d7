//! Tests of import_session: streams as items. The crate has no code of its own.
#![tactic(auto)]

#[cfg(test)]
mod steps;
