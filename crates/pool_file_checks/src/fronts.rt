//! What a quick look keeps of the objects that passed, for tenants whose objects begin alike.

ghost use Rattle.std.specs.Prelude.{◌≡◌, ◌<◌, ◌≤◌, ℕ, List, length, take, All, IfOk, IfSome, OnOk};
ghost use Rattle.pool_file_checks.specs.{Fronts.{IsFront}, Own.{names_of, AreDistinct}};
ghost use Rattle.pool_file_format.specs.{Format.{RawObject as Raw}, Shown.{objects_of}};

use crate::good::add_sums;
use crate::last_trees::LastTrees;
use crate::own::index_rest;
use git_names::{Memory, Name};
use indexmap::IndexMap;
use pool_file_format::{Fault, RawObject, Refusal};
use std::alloc::Global;
use tenant_tables::Summary;

// How many fronts are kept.
const FRONTS_LIMIT: usize = 4;

/// The objects of a tenant that passed: their numbers, an index of them under their names, and
/// their summaries, all in the tenant's order. A later tenant whose first objects are the same can
/// go on from there.
#[derive(Drop)]
pub struct Front {
    numbers: Vec<u64>,
    index: IndexMap<Name, usize>,
    sums: Vec<Summary>,
    last: LastTrees,
}

// How many of the first numbers are the same in both lists.
fn common_count(numbers: &[u64], others: &[u64]) -> usize
    ensures first { result ≤ length numbers.now }
    ensures second { result ≤ length others.now }
    ensures same { take result numbers.now ≡ take result others.now }
{
    let most = numbers.len().min(others.len());
    for place in 0..most {
        if numbers[place] != others[place] {
            return place;
        }
    }
    most
}

impl Front {
    // No objects, with room for some.
    fn new(alloc: Global, room: usize) -> Result<Front, Memory>
        ensures { (digest : List ℕ → List ℕ) (os : List Raw) → IfOk result (IsFront digest os) }
    {
        Ok(Front {
            numbers: Vec::with_capacity(alloc, room)?,
            index: IndexMap::with_capacity(alloc, room)?,
            sums: Vec::with_capacity(alloc, room)?,
            last: LastTrees::new(alloc, room)?,
        })
    }

    // Keeps the first objects.
    fn cut(&mut self, count: usize)
        ensures numbers { self.new.numbers.items ≡ take count self.old.numbers.items }
        ensures rows { self.new.index.entries ≡ take count self.old.index.entries }
        ensures distinct { AreDistinct self.new.index.entries }
        ensures sums { self.new.sums.items ≡ take count self.old.sums.items }
    {
        self.numbers.truncate(count);
        self.index.truncate(count);
        self.sums.truncate(count);
    }

    /// Passes the objects of a tenant with these numbers, and is then what is known of them. The
    /// objects that the tenant has in common with the last one are not read again.
    ///
    /// `Refused` only says that the look does not tell. `Memory` (90) if there is no memory for what
    /// is read or kept. After an error, nothing is known.
    pub fn pass(
        &mut self,
        alloc: Global,
        objects: &[RawObject],
        names: &[Name],
        numbers: &[u64],
    ) -> Result<(), Fault>
        ensures { (digest : List ℕ → List ℕ)
            → names.now ≡ names_of digest (objects_of objects.now)
            → All (λ n. n < length objects.now) numbers.now
            → IsFront digest (objects_of objects.now) self.old
            → OnOk result (IsFront digest (objects_of objects.now) self.new
            × (self.new.numbers.items ≡ numbers.now)) }
    {
        let common = common_count(&self.numbers, numbers);
        self.cut(common);
        index_rest(&mut self.index, names, numbers)?;
        if !add_sums(alloc, objects, &self.index, &mut self.sums, &mut self.last)? {
            return Err(Fault::Refused(Refusal::BadObject));
        }
        self.numbers.extend_from_slice(numbers.split_at(common).1)?;
        Ok(())
    }

    /// The summaries of its objects.
    pub fn sums(&self) -> &[Summary]
        ensures { result.now ≡ self.now.sums.items }
    {
        self.sums.as_slice()
    }
}

// The place of the front that has the most in common with these numbers, and of which more than
// half would be kept.
fn place_of_front(fronts: &[Front], numbers: &[u64]) -> Option<usize>
    ensures { IfSome result (λ place. place < length fronts.now) }
{
    let mut best = None;
    let mut most = 0;
    for place in 0..fronts.len() {
        let own = fronts[place].numbers.as_slice();
        let common = common_count(own, numbers);
        if common > most && common > own.len() / 2 {
            best = Some(place);
            most = common;
        }
    }
    best
}

// Drops the front that was not taken for the longest time, if as many are kept as may be.
fn make_room(fronts: &mut Vec<Front>)
    ensures { (digest : List ℕ → List ℕ) (os : List Raw) → All (IsFront digest os) fronts.old.items
        → All (IsFront digest os) fronts.new.items }
{
    if fronts.len() >= FRONTS_LIMIT {
        fronts.remove(0);
    }
}

/// Takes the front out that is best for a tenant with these numbers: the one that has the most in
/// common with them, unless half of it would be lost; then a new one. `objects` is how many the
/// file has.
///
/// `Memory` (90) if there is no memory for a new one.
pub fn take_front(
    alloc: Global,
    fronts: &mut Vec<Front>,
    objects: usize,
    numbers: &[u64],
) -> Result<Front, Memory>
    ensures { (digest : List ℕ → List ℕ) (os : List Raw) → All (IsFront digest os) fronts.old.items
        → All (IsFront digest os) fronts.new.items × IfOk result (IsFront digest os) }
{
    if let Some(place) = place_of_front(fronts, numbers) {
        return Ok(fronts.remove(place));
    }
    make_room(fronts);
    Front::new(alloc, numbers.len().min(objects))
}
