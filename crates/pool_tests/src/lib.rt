//! Tests of the pool, of the index of names, of tables, of walks and of refs, with a plain pool and
//! a plain table to compare them with.
#![tactic(auto)]

#[cfg(test)]
mod names;
#[cfg(test)]
mod pools;
#[cfg(test)]
mod refs;
#[cfg(test)]
mod tables;
#[cfg(test)]
mod walks;
