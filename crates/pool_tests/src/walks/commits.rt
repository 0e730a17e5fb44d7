//! A table of commits in its own pool, for tests of walks.

use commit_walk::{log_between, reaches};
use content_pool::Pool;
use git_objects::{Kind, Memory, Name, Naming};
use std::alloc::Global;
use std::marker::Model;
use tenant_tables::{Fault, Objects, Sight, Table};

/// A table, and a pool in which nobody else holds anything.
#[derive(Drop)]
pub struct Commits<N: Naming> {
    alloc: Global,
    pool: Pool<N>,
    table: Table,
}

impl<N: Naming> Model for Commits<N> {
    ghost use Rattle.std.specs.Prelude.{[]};
    ghost use Rattle.tenant_tables.specs.{IsBackedBy.{Share}, View.{Entries}};

    ghost Value = { Entries };

    ghost view = { λ commits. commits.table.entries };

    ghost invariant = { λ commits. Share N.digest_of commits.pool commits.table.entries [] };
}

impl<N: Naming> Commits<N> {
    pub fn new(alloc: Global, naming: N) -> Commits<N> {
        Commits {
            alloc,
            pool: Pool::new(alloc, naming),
            table: Table::new(alloc),
        }
    }

    pub fn add(&mut self, contents: &[u8]) -> Result<Name, Fault> {
        self.table.add(&mut self.pool, Kind::Commit, contents)
    }

    pub fn reaches(&self, tip: &Name, old: &Name) -> Result<bool, Memory> {
        reaches(self.alloc, &self.pool, &self.table, tip, old)
    }

    pub fn log_between(&self, old: &Name, tip: &Name) -> Result<Vec<Name>, Memory> {
        let objects = Objects::of(&self.pool, &self.table, Sight::All);
        log_between(self.alloc, &objects, old, tip)
    }
}
