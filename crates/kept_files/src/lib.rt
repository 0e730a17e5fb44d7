//! The files of the last commits that ended, kept so that the next commits need not read them.
#![tactic(auto)]

mod kept_files;

pub use kept_files::KeptFiles;
