//! A table and a plain table, each over its own pool, taken through the same steps.

use super::plain_table::PlainTable;
use super::told;
use content_pool::Pool;
use git_objects::{Kind, Memory, Name, Naming, TailNaming};
use std::alloc::Global;
use std::marker::Model;
use tenant_tables::{Fault, Sight, Table};

/// A step: what is done to both, or how many objects they then have.
#[derive(Clone, Copy)]
pub enum Step<'a> {
    Add(&'a [u8]),
    Commit,
    RollBack,
    Length(usize),
}

/// The position of the first step that fails: it goes another way, the two answer differently, or
/// they are not alike after it.
pub fn first_unlike(alloc: Global, steps: &[Step<'_>]) -> Result<Option<usize>, Memory> {
    let mut beside = Beside::new(alloc, TailNaming, TailNaming);
    let unlike = beside.first_unlike(steps);
    drop(beside);
    unlike
}

/// The two tables. Nobody else shares their pools.
#[derive(Drop)]
pub struct Beside<N: Naming> {
    pool: Pool<N>,
    table: Table,
    plain_pool: Pool<N>,
    plain: PlainTable,
}

impl<N: Naming> Model for Beside<N> {
    ghost use Rattle.std.specs.Prelude.{ℕ, []};
    ghost use Rattle.tenant_tables.specs.IsBackedBy.{Share};

    ghost Value = { ℕ };

    ghost view = { λ two. 0 };

    ghost invariant = { λ two. Share N.digest_of two.pool two.table.entries []
        × Share N.digest_of two.plain_pool two.plain.entries [] };
}

impl<N: Naming> Beside<N> {
    pub fn new(alloc: Global, naming: N, again: N) -> Beside<N> {
        Beside {
            pool: Pool::new(alloc, naming),
            table: Table::new(alloc),
            plain_pool: Pool::new(alloc, again),
            plain: PlainTable::new(alloc),
        }
    }

    // Whether a step goes as it says, and leaves both alike.
    fn stays_alike(&mut self, step: &Step<'_>) -> Result<bool, Memory> {
        let goes = self.takes(step)?;
        Ok(goes && self.are_alike())
    }

    fn takes(&mut self, step: &Step<'_>) -> Result<bool, Memory> {
        match step {
            Step::Add(bytes) => return self.answers_alike(bytes),
            Step::Commit => self.commit(),
            Step::RollBack => self.roll_back(),
            Step::Length(count) => return Ok(self.len() == *count),
        }
        Ok(true)
    }

    // Apart from the function that owns the two: each way out of an owner makes its proof longer.
    fn first_unlike(&mut self, steps: &[Step<'_>]) -> Result<Option<usize>, Memory> {
        for (place, step) in steps.iter().enumerate() {
            if !self.stays_alike(step)? {
                return Ok(Some(place));
            }
        }
        Ok(None)
    }

    // Whether both answer the same when these bytes are added.
    fn answers_alike(&mut self, bytes: &[u8]) -> Result<bool, Memory> {
        let (answer, plain) = self.add(bytes);
        Ok(told(answer)? == told(plain)?)
    }

    pub fn add(&mut self, bytes: &[u8]) -> (Result<Name, Fault>, Result<Name, Fault>) {
        let answer = self.table.add(&mut self.pool, Kind::Blob, bytes);
        (
            answer,
            self.plain.add(&mut self.plain_pool, Kind::Blob, bytes),
        )
    }

    pub fn commit(&mut self) {
        self.table.commit();
        self.plain.commit();
    }

    pub fn roll_back(&mut self) {
        self.table.roll_back(&mut self.pool);
        self.plain.roll_back(&mut self.plain_pool);
    }

    pub fn len(&self) -> usize {
        self.table.len()
    }

    /// Whether both have the same objects at the same places, and their pools the same contents.
    pub fn are_alike(&self) -> bool {
        for place in 0..self.table.len() {
            if !self.are_alike_at(place) {
                return false;
            }
        }
        self.table.len() == self.plain.len()
            && self.table.committed_len() == self.plain.committed_len()
            && self.pool.stored() == self.plain_pool.stored()
    }

    fn are_alike_at(&self, place: usize) -> bool {
        let Some((id, slot)) = self.table.at(place) else {
            return false;
        };
        let found = self.find_alike(&id);
        found && self.plain.at(place) == Some((id, slot))
    }

    /// Whether both find the same under this name, and under each of its abbreviations in both
    /// sights.
    pub fn find_alike(&self, id: &Name) -> bool {
        let digits = id.to_hex();
        for end in 0..=40usize {
            let few = &digits[..end];
            if self.table.starting_with(few, Sight::All)
                != self.plain.starting_with(few, Sight::All)
                || self.table.starting_with(few, Sight::Committed)
                    != self.plain.starting_with(few, Sight::Committed)
            {
                return false;
            }
        }
        self.table.find(id) == self.plain.find(id)
            && self.table.find_committed(id) == self.plain.find_committed(id)
            && self.table.place(id) == self.plain.place(id)
    }
}
