//! Names in order.

ghost use Rattle.std.specs.Prelude.{◌≡◌, ◌≢◌, ◌≤◌, ◌<◌, IfOk, true, false, filter, get_or, length};
ghost use Rattle.std.specs.{Prelude.{IsPermutation, IsSorted}, List.{AllWithin}};
ghost use Rattle.std.specs.{List.Sorted.{IsPartitionPoint}, Cmp.Lexicographic.{slice_cmp}};
ghost use Rattle.std.specs.Ordering.{nat_cmp};
ghost use Rattle.name_index.specs.Index.{is_before, is_up_to, is_between, most_shared};
ghost use Rattle.name_index.specs.Index.{shared_apart};

use crate::digits::shared_apart;
use git_names::{Memory, Name};
use std::alloc::Global;
use std::marker::Model;

/// Names in the order of their bytes.
#[derive(Drop)]
pub(crate) struct Run {
    names: Vec<Name>,
}

impl Model for Run {
    ghost use Rattle.std.specs.{Prelude.{ℕ, List, IsSorted}, Cmp.Lexicographic.{slice_cmp}};
    ghost use Rattle.std.specs.Ordering.{nat_cmp};

    ghost Value = { List (List ℕ) };

    ghost view = { λ run. run.names.items };

    ghost invariant = { λ run. IsSorted (slice_cmp nat_cmp) run.names.items };
}

impl Run {
    /// Puts names into order.
    pub(crate) fn sorted(mut names: Vec<Name>, alloc: Global) -> Result<Run, Memory>
        ensures { IfOk result (IsPermutation names.items) }
    {
        names.as_mut_slice().sort(alloc)?;
        Ok(Run { names })
    }

    /// How many names it has.
    pub(crate) fn len(&self) -> usize
        ensures { result ≡ length self.now }
    {
        self.names.len()
    }

    /// Its names.
    pub(crate) fn names(&self) -> &[Name]
        ensures { result.now ≡ self.now }
    {
        self.names.as_slice()
    }

    /// The names from `first` to `last`. Takes no memory.
    pub(crate) fn between(&self, first: &Name, last: &Name) -> &[Name]
        ensures { result.now ≡ filter (is_between first.now last.now) self.now }
    {
        between(self.names.as_slice(), first, last)
    }

    /// The most leading digits that another of its names shares with `id`. Takes no memory.
    pub(crate) fn most_shared(&self, id: &Name) -> usize
        ensures { result ≡ most_shared id.now self.now }
    {
        most_shared(self.names.as_slice(), id)
    }
}

// The most digits that another of names in order shares with `id`: one that stands next to it does.
fn most_shared(names: &[Name], id: &Name) -> usize
    requires { IsSorted (slice_cmp nat_cmp) names.now }
    ensures { result ≡ most_shared id.now names.now }
{
    let start = from(names, id);
    let next = shared_at(names, after(names, id, start), id);
    if start > 0 {
        next.max(shared_at(names, start - 1, id))
    } else {
        next
    }
}

// The digits that the name at a place shares with `id`; 0 if there is no name.
fn shared_at(names: &[Name], place: usize, id: &Name) -> usize
    ensures reached { result ≤ most_shared id.now names.now }
    ensures value { place < length names.now
        → result ≡ shared_apart id.now (get_or names.now place id.now) }
{
    if place < names.len() {
        shared_apart(id, &names[place])
    } else {
        0
    }
}

// The place after the names that are `id`, from `start` on.
fn after(names: &[Name], id: &Name, start: usize) -> usize
    ensures from { start ≤ result }
    ensures same { AllWithin (λ other. other ≡ id.now) names.now start result }
    ensures next { result < length names.now → get_or names.now result id.now ≢ id.now }
{
    let mut end = start;
    while end < names.len() && names[end] == *id {
        end += 1;
    }
    end
}

// The names from `first` to `last` of names in order.
fn between<'a>(names: &'a [Name], first: &Name, last: &Name) -> &'a [Name]
    requires { IsSorted (slice_cmp nat_cmp) names.now }
    ensures { result.now ≡ filter (is_between first.now last.now) names.now }
{
    let start = from(names, first);
    let end = past(names, last);
    if start < end { &names[start..end] } else { &[] }
}

// How many names are before `first`.
fn from(names: &[Name], first: &Name) -> usize
    requires { IsSorted (slice_cmp nat_cmp) names.now }
    ensures within { result ≤ length names.now }
    ensures point { IsPartitionPoint (λ id. is_before first.now id ≡ true)
        (λ id. is_before first.now id ≡ false) names.now result }
{
    names.partition_point(|id| id.cmp(first).is_lt())
}

// How many names are not after `last`.
fn past(names: &[Name], last: &Name) -> usize
    requires { IsSorted (slice_cmp nat_cmp) names.now }
    ensures within { result ≤ length names.now }
    ensures point { IsPartitionPoint (λ id. is_up_to last.now id ≡ true)
        (λ id. is_up_to last.now id ≡ false) names.now result }
{
    names.partition_point(|id| id.cmp(last).is_le())
}
