//! Tests of plain_files and tree_build: edits, grafts and the trees of a branch, compared with the
//! names that Git gives. The crate has nothing else.
#![tactic(auto)]

#[cfg(test)]
mod body;
#[cfg(test)]
mod branch;
#[cfg(test)]
mod files;
#[cfg(test)]
mod grafts;
#[cfg(test)]
mod large_directories;
#[cfg(test)]
mod made_by_git;
#[cfg(test)]
mod random_edits;
#[cfg(test)]
mod real_trees;
#[cfg(test)]
mod step;
