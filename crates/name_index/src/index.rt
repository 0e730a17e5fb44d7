//! Runs of names.

ghost use Rattle.std.specs.Prelude.{◌≡◌, ◌≤◌, ◌++◌, ◌∷◌, [], true, filter, length, IfOk, OnOk};
ghost use Rattle.std.specs.Prelude.{OnErr};
ghost use Rattle.name_index.specs.Index.{Merges, Reorders, in_sight, is_between, names_of};
ghost use Rattle.name_index.specs.Index.{most_shared, two_of, with_more};

use crate::digits::shared_apart;
use crate::found::Between;
use crate::run::Run;
use git_names::{Memory, Name};
use std::alloc::Global;
use std::marker::Model;

/// How many names at the end are in no order. A lookup compares each of them; once there are so
/// many, they are put into order.
const FEW: usize = 64;

/// Distinct object names: the committed ones, and those of the open stream.
#[derive(Drop)]
pub struct NameIndex {
    alloc: Global,
    runs: Vec<Run>,
    few: Vec<Name>,
    base: usize,
    closed: bool,
}

impl Model for NameIndex {
    ghost use Rattle.std.specs.Prelude.{◌&&◌, not, nat_lt, vec_len, vec_capacity};
    ghost use Rattle.name_index.specs.Index.{View, IsIndex, committed_of, added_of};

    ghost Value = { View };

    ghost view = { λ t. record {
      committed = committed_of t.runs.items t.few.items t.base t.closed;
      added = added_of t.runs.items t.few.items t.base t.closed;
      room = not t.closed && nat_lt (vec_len t.few) (vec_capacity t.few);
    } };

    ghost invariant = { λ t. IsIndex t.runs.items t.base t.closed };
}

impl NameIndex {
    /// An empty index. Takes no memory; what it holds later comes from `alloc`.
    pub fn new(alloc: Global) -> NameIndex
        ensures committed { result.committed ≡ [] }
        ensures added { result.added ≡ [] }
    {
        NameIndex {
            alloc,
            runs: Vec::new(alloc),
            few: Vec::new(alloc),
            base: 0,
            closed: false,
        }
    }

    /// Makes room for one more name. `Memory` (90) if an allocation fails; the names stay.
    pub fn reserve(&mut self) -> Result<(), Memory>
        ensures same { Reorders self.old self.new }
        ensures room { OnOk result (self.new.room ≡ true) }
    {
        if self.closed {
            pack(&mut self.runs, &mut self.few, 0, self.alloc)?;
            self.base = self.runs.as_slice().len();
            self.closed = false;
        } else if self.few.len() >= FEW {
            pack(&mut self.runs, &mut self.few, self.base, self.alloc)?;
        }
        self.few.reserve(1).map_err(|_| Memory)
    }

    /// Adds a name. There must be room for it.
    pub fn insert(&mut self, id: Name)
        requires room { self.old.room ≡ true }
        ensures committed { self.new.committed ≡ self.old.committed }
        ensures added { self.new.added ≡ self.old.added ++ id ∷ [] }
    {
        self.few.push_reserved(id);
    }

    /// Makes all names committed. Takes no memory.
    pub fn commit(&mut self)
        ensures committed { self.new.committed ≡ self.old.committed ++ self.old.added }
        ensures added { self.new.added ≡ [] }
    {
        self.base = self.runs.as_slice().len();
        self.closed = true;
    }

    /// Removes the names of the open stream. Takes no memory.
    pub fn roll_back(&mut self)
        ensures committed { self.new.committed ≡ self.old.committed }
        ensures added { self.new.added ≡ [] }
    {
        if !self.closed {
            self.runs.truncate(self.base);
            self.few.clear();
        }
    }

    /// What is found from `first` to `last` among all names, or among the committed ones. Takes no
    /// memory.
    pub fn between(&self, first: &Name, last: &Name, all: bool) -> Between
        ensures { result
            ≡ two_of (filter (is_between first.now last.now) (in_sight all self.now)) }
    {
        if all {
            self.between_all(first, last)
        } else {
            self.between_committed(first, last)
        }
    }

    /// The most leading hexadecimal digits that a name shares with `id`, of all names other than
    /// `id`, or of the committed ones; 0 if there are no others. Takes no memory.
    pub fn most_shared(&self, id: &Name, all: bool) -> usize
        ensures { result ≡ most_shared id.now (in_sight all self.now) }
    {
        if all {
            self.most_shared_all(id)
        } else {
            self.most_shared_committed(id)
        }
    }

    fn between_all(&self, first: &Name, last: &Name) -> Between
        ensures { result ≡ two_of (filter (is_between first.now last.now)
            (self.now.committed ++ self.now.added)) }
    {
        let found = in_runs(self.runs.as_slice(), first, last);
        among(found, self.few.as_slice(), first, last)
    }

    fn between_committed(&self, first: &Name, last: &Name) -> Between
        ensures { result ≡ two_of (filter (is_between first.now last.now) self.now.committed) }
    {
        let found = in_runs(&self.runs[..self.base], first, last);
        if self.closed {
            among(found, self.few.as_slice(), first, last)
        } else {
            found
        }
    }

    fn most_shared_all(&self, id: &Name) -> usize
        ensures { result ≡ most_shared id.now (self.now.committed ++ self.now.added) }
    {
        let most = most_in_runs(self.runs.as_slice(), id);
        most.max(most_among(self.few.as_slice(), id))
    }

    fn most_shared_committed(&self, id: &Name) -> usize
        ensures { result ≡ most_shared id.now self.now.committed }
    {
        let most = most_in_runs(&self.runs[..self.base], id);
        if self.closed {
            most.max(most_among(self.few.as_slice(), id))
        } else {
            most
        }
    }
}

// From `floor` on, how many runs are longer than all that follows them.
fn longer(runs: &[Run], floor: usize, few: usize) -> usize
    requires { floor ≤ length runs.now }
    ensures { (floor ≤ result) × (result ≤ length runs.now) }
{
    let mut kept = runs.len();
    let mut place = runs.len();
    let mut after = few;
    while place > floor {
        place -= 1;
        let own = runs[place].len();
        if own <= after {
            kept = place;
        }
        after = after.saturating_add(own);
    }
    kept
}

// Merges the last few names and the runs from `floor` on that are no longer than what follows them.
fn pack(runs: &mut Vec<Run>, few: &mut Vec<Name>, floor: usize, alloc: Global) -> Result<(), Memory>
    requires { floor ≤ length runs.old.items }
    ensures ok { OnOk result (Merges floor runs.old.items runs.new.items few.old.items) }
    ensures few { OnOk result (few.new.items ≡ []) }
    ensures err { OnErr result ((runs.new.items ≡ runs.old.items)
        × (few.new.items ≡ few.old.items)) }
{
    let kept = longer(runs.as_slice(), floor, few.len());
    runs.reserve(1)?;
    let run = Run::sorted(together(&runs[kept..], few.as_slice(), alloc)?, alloc)?;
    runs.truncate(kept);
    runs.push_reserved(run);
    few.clear();
    Ok(())
}

// The names of runs, and a few more.
fn together(runs: &[Run], few: &[Name], alloc: Global) -> Result<Vec<Name>, Memory>
    ensures { IfOk result (λ names. names.items ≡ names_of runs.now ++ few.now) }
{
    let mut names = Vec::new(alloc);
    for run in runs {
        names.extend_from_slice(run.names())?;
    }
    names.extend_from_slice(few)?;
    Ok(names)
}

fn in_runs(runs: &[Run], first: &Name, last: &Name) -> Between
    ensures { result ≡ two_of (filter (is_between first.now last.now) (names_of runs.now)) }
{
    let mut found = Between::None;
    for run in runs {
        found = found.with(run.between(first, last));
    }
    found
}

// What is found, with names in no order.
fn among(before: Between, few: &[Name], first: &Name, last: &Name) -> Between
    ensures { result ≡ with_more before (filter (is_between first.now last.now) few.now) }
{
    let mut found = before;
    for id in few {
        if id.cmp(first).is_ge() && id.cmp(last).is_le() {
            found = found.with(&[*id]);
        }
    }
    found
}

fn most_in_runs(runs: &[Run], id: &Name) -> usize
    ensures { result ≡ most_shared id.now (names_of runs.now) }
{
    let mut most = 0;
    for run in runs {
        most = most.max(run.most_shared(id));
    }
    most
}

// The most digits shared by names in no order.
fn most_among(few: &[Name], id: &Name) -> usize
    ensures { result ≡ most_shared id.now few.now }
{
    let mut most = 0;
    for other in few {
        most = most.max(shared_apart(id, other));
    }
    most
}
