//! Tests of open_commits: commits from their message to their end, compared with the names that Git
//! gives. The crate has no code of its own.
#![tactic(auto)]

#[cfg(test)]
mod commits;
#[cfg(test)]
mod repository;
#[cfg(test)]
mod taking;
#[cfg(test)]
mod words;
