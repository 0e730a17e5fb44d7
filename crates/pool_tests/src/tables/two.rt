//! Two tables over one pool, for tests: what a caller of tables has to keep.

use super::told;
use content_pool::Pool;
use git_objects::{Kind, Memory, Name, Naming};
use std::alloc::Global;
use std::marker::Model;
use std::test::Fail;
use tenant_tables::{Fault, Found, Sight, Table};

/// A step: what is done to two tables or looked up in them, and the answer. Object names are given
/// by their digits.
#[derive(Clone, Copy)]
pub enum Step<'a> {
    AddFirst(&'a [u8], Result<&'a [u8; 40], Fault>),
    AddSecond(&'a [u8], Result<&'a [u8; 40], Fault>),
    /// Adds to the first table; tried again if an allocation failed and changed nothing.
    AddFirstAgain(&'a [u8]),
    CommitFirst,
    RollBackFirst,
    RollBackSecond,
    /// The second table, which has nothing, becomes one of the first objects of the first table.
    ShareFirst(usize),
    /// How many objects the first table has, and the second.
    Lengths(usize, usize),
    /// How many objects of the first table are committed.
    CommittedFirst(usize),
    PlaceInFirst(&'a [u8; 40], Option<usize>),
    PlaceInSecond(&'a [u8; 40], Option<usize>),
    /// The only name of the first table that begins with these digits, or that there is none.
    StartingInFirst(&'a [u8], Sight, Option<&'a [u8; 40]>),
    /// How many contents the pool stores, and how many bytes.
    Stored(u64, u64),
}

/// What two tables do, in words and as steps from two empty ones.
pub struct Case {
    pub does: &'static str,
    pub steps: &'static [Step<'static>],
}

/// The position of the first of these steps that two new tables answer differently.
pub fn first_wrong<N: Naming>(
    alloc: Global,
    naming: N,
    steps: &[Step<'_>],
) -> Result<Option<usize>, Fail> {
    let mut two = Two::new(alloc, naming);
    let wrong = two.first_wrong(steps);
    drop(two);
    wrong
}

// Whether an object was added under the name of these digits, or refused with this fault.
fn is_answer(
    answer: Result<Name, Fault>,
    wanted: Result<&[u8; 40], Fault>,
) -> Result<bool, Memory> {
    match (told(answer)?, wanted) {
        (Ok(name), Ok(digits)) => Ok(name.to_hex() == *digits),
        (Err(fault), Err(refusal)) => Ok(fault == refusal),
        _ => Ok(false),
    }
}

// What finds the name of these digits, or none.
fn found_of(digits: Option<&[u8; 40]>) -> Result<Found, Fail> {
    let Some(digits) = digits else {
        return Ok(Found::None);
    };
    let name = Name::from_hex(digits).ok_or("no name")?;
    Ok(Found::One(name))
}

// The position of the name of these digits.
fn place_in(table: &Table, digits: &[u8]) -> Result<Option<usize>, Fail> {
    let name = Name::from_hex(digits).ok_or("no name")?;
    Ok(table.place(&name))
}

// Two tables over one pool, in which nobody else holds anything.
#[derive(Drop)]
struct Two<N: Naming> {
    alloc: Global,
    pool: Pool<N>,
    first: Table,
    second: Table,
}

impl<N: Naming> Model for Two<N> {
    ghost use Rattle.std.specs.Prelude.{ℕ};
    ghost use Rattle.tenant_tables.specs.IsBackedBy.{Share};

    ghost Value = { ℕ };

    ghost view = { λ two. 0 };

    ghost invariant = { λ two. Share N.digest_of two.pool two.first.entries two.second.entries };
}

impl<N: Naming> Two<N> {
    fn new(alloc: Global, naming: N) -> Two<N> {
        Two {
            alloc,
            pool: Pool::new(alloc, naming),
            first: Table::new(alloc),
            second: Table::new(alloc),
        }
    }

    // Apart from the function that owns the two: each way out of an owner makes its proof longer.
    fn first_wrong(&mut self, steps: &[Step<'_>]) -> Result<Option<usize>, Fail> {
        for (place, step) in steps.iter().enumerate() {
            if !self.takes(step)? {
                return Ok(Some(place));
            }
        }
        Ok(None)
    }

    // Whether a step goes as it says. Each function knows some of them, to keep its proof short.
    fn takes(&mut self, step: &Step<'_>) -> Result<bool, Fail> {
        match step {
            Step::AddFirst(bytes, answer) => Ok(is_answer(self.add_first(bytes), *answer)?),
            Step::AddSecond(bytes, answer) => Ok(is_answer(self.add_second(bytes), *answer)?),
            Step::AddFirstAgain(bytes) => Ok(self.stays_after_a_refusal(bytes)?),
            Step::ShareFirst(count) => Ok(self.share_first(*count)?),
            other => self.goes(other),
        }
    }

    fn goes(&mut self, step: &Step<'_>) -> Result<bool, Fail> {
        match step {
            Step::CommitFirst => self.commit_first(),
            Step::RollBackFirst => self.roll_back_first(),
            Step::RollBackSecond => self.roll_back_second(),
            other => return self.shows(other),
        }
        Ok(true)
    }

    fn shows(&self, step: &Step<'_>) -> Result<bool, Fail> {
        match step {
            Step::Lengths(first, second) => Ok(self.lengths() == (*first, *second)),
            Step::CommittedFirst(count) => Ok(self.first.committed_len() == *count),
            Step::PlaceInFirst(digits, place) => Ok(place_in(&self.first, *digits)? == *place),
            Step::PlaceInSecond(digits, place) => Ok(place_in(&self.second, *digits)? == *place),
            Step::Stored(contents, bytes) => Ok(self.stored() == (*contents, *bytes)),
            other => self.finds(other),
        }
    }

    fn finds(&self, step: &Step<'_>) -> Result<bool, Fail> {
        match step {
            Step::StartingInFirst(digits, sight, name) => {
                Ok(self.first.starting_with(digits, *sight) == found_of(*name)?)
            }
            _ => Ok(false),
        }
    }

    fn add_first(&mut self, bytes: &[u8]) -> Result<Name, Fault> {
        self.first.add(&mut self.pool, Kind::Blob, bytes)
    }

    fn add_second(&mut self, bytes: &[u8]) -> Result<Name, Fault> {
        self.second.add(&mut self.pool, Kind::Blob, bytes)
    }

    // Whether the second table had nothing, and the first so many objects.
    fn share_first(&mut self, count: usize) -> Result<bool, Memory> {
        if self.second.len() > 0 || count > self.first.len() {
            return Ok(false);
        }
        self.second = self.first.share(self.alloc, &mut self.pool, count)?;
        Ok(true)
    }

    fn commit_first(&mut self) {
        self.first.commit();
    }

    fn roll_back_first(&mut self) {
        self.first.roll_back(&mut self.pool);
    }

    fn roll_back_second(&mut self) {
        self.second.roll_back(&mut self.pool);
    }

    // Adds a content to the first table, again if an allocation failed, and answers whether table
    // and pool were unchanged after the failure.
    fn stays_after_a_refusal(&mut self, bytes: &[u8]) -> Result<bool, Fault> {
        let before = self.sizes();
        if self.add_first(bytes) != Err(Fault::Memory) {
            return Ok(true);
        }
        let after = self.sizes();
        self.add_first(bytes)?;
        Ok(after == before)
    }

    // How many objects each table has.
    fn lengths(&self) -> (usize, usize) {
        (self.first.len(), self.second.len())
    }

    // How many objects each table has, and what the pool stores.
    fn sizes(&self) -> ((usize, usize), (u64, u64)) {
        (self.lengths(), self.stored())
    }

    fn stored(&self) -> (u64, u64) {
        self.pool.stored()
    }
}
