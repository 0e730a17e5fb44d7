//! Tests of `revisions`, `answers` and `missing_objects`, compared with what Git's commands print
//! over the same objects.
#![tactic(auto)]

#[cfg(test)]
mod expressions;
#[cfg(test)]
mod history;
#[cfg(test)]
mod missing;
#[cfg(test)]
mod queries;
