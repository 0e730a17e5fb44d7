//! The key that decides the place of a commit in a log.

use git_objects::Name;
use std::cmp::Reverse;
use std::marker::Model;

/// The key of a commit in a log: later times come first, and commits of one time by rising name.
#[derive(Clone, Copy, PartialEq, Eq, PartialOrd, Ord)]
pub struct LogKey {
    pub newest: Reverse<u64>,
    pub id: Name,
}

impl Model for LogKey {
    ghost use Rattle.commit_walk.specs.Logs.{LogKey as Key};

    ghost Value = { Key };

    ghost view = { λ k. record { time = k.newest.0; id = k.id } };

    ghost inverse = { λ k. record { newest = record { 0 = k.time }; id = k.id } };
}
