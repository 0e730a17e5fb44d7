//! Which commits reach which, for many questions about one list of objects.

ghost use Rattle.std.specs.Prelude.{◌≡◌, ◌+◌, ◌-◌, ◌<◌, ◌≤◌, List, length, slice_index_or, false};
ghost use Rattle.std.specs.Prelude.{IfOk, IfSome};
ghost use Rattle.git_model.specs.{Repository.{Object}, References.{object_at}, Reach.{reaches}};
ghost use Rattle.git_model.specs.HeldObjects.{AreHeld};
ghost use Rattle.commit_walk.specs.{Marks.{IsReached}, Remembered.{Remembers}};
ghost use Rattle.commit_walk.specs.Remembered.{AreParentPlaces, Tells, IsDoneWalk, HaveParents};

use crate::commits::commit_place;
use crate::parents::parent_places;
use crate::reach::{walk, walk_by};
use git_objects::{Memory, Name, Naming};
use std::alloc::Global;
use std::marker::Model;
use tenant_tables::Objects;

// A walk that is done: what the commit at position `top` reaches, from position `floor` on.
#[derive(Drop)]
pub(crate) struct DoneWalk {
    pub(crate) top: usize,
    pub(crate) floor: usize,
    pub(crate) flags: Vec<bool>,
}

/// Which commits of a list of objects reach which, for many questions in a row. It remembers what
/// the last walk found, so all questions about one tip cost little more than the longest of their
/// walks. Once walks have read more commits than there are objects, it keeps the positions of all
/// parents, and reads no commit again.
///
/// Contracts see the list of the objects.
#[derive(Drop)]
pub struct Ancestry<'a, N: Naming> {
    objects: Objects<'a, N>,
    last: Option<DoneWalk>,
    reads: usize,
    parents: Option<Vec<Vec<usize>>>,
}

impl<'a, N: Naming> Model for Ancestry<'a, N> {
    ghost use Rattle.std.specs.Prelude.{List};
    ghost use Rattle.git_model.specs.{Repository.{Object}, HeldObjects.{AreHeld}};
    ghost use Rattle.commit_walk.specs.Remembered.{HaveParents, Remembers};

    ghost Value = { List Object };

    ghost view = { λ w. w.objects };

    ghost invariant = { λ w. HaveParents w.objects w.parents
        × (AreHeld N.digest_of w.objects → Remembers w.objects w.last w.parents) };
}

impl<'a, N: Naming> Ancestry<'a, N> {
    /// The ancestry of the commits among these objects. No walk is done yet. Takes no memory.
    pub fn of(objects: Objects<'a, N>) -> Ancestry<'a, N>
        ensures { result ≡ objects.entry }
    {
        Ancestry {
            objects,
            last: None,
            reads: 0,
            parents: None,
        }
    }

    /// The objects. Takes no memory.
    pub fn objects(&self) -> &Objects<'a, N>
        ensures { result.now ≡ self.now }
    {
        &self.objects
    }

    /// Whether the commit `old` is reachable from the commit `tip`, as `reaches` answers it.
    ///
    /// The answer is right if the objects are held (`AreHeld` of git_model). `Memory` (90) if
    /// there is no room for a walk or for the positions of the parents; the next question is
    /// answered all the same.
    pub fn reaches(&mut self, alloc: Global, tip: &Name, old: &Name) -> Result<bool, Memory>
        ensures judged { AreHeld N.digest_of self.old
            → IfOk result (λ yes. yes ≡ reaches self.old tip.now old.now) }
        ensures same { self.new ≡ self.old }
    {
        let Some(floor) = commit_place(&self.objects, old) else {
            return Ok(false);
        };
        let Some(top) = commit_place(&self.objects, tip) else {
            return Ok(false);
        };
        if top < floor {
            return Ok(false);
        }
        let is_reached = self.is_reached(alloc, floor, top)?;
        Ok(is_reached)
    }

    // Whether the commit at position `top` reaches the one at `place`.
    fn is_reached(&mut self, alloc: Global, place: usize, top: usize) -> Result<bool, Memory>
        requires above { place ≤ top }
        requires within { top < length self.old }
        ensures tells { AreHeld N.digest_of self.old → IfOk result (Tells self.old top place) }
        ensures same { self.new ≡ self.old }
    {
        if let Some(yes) = answer_of(&self.last, place, top) {
            return Ok(yes);
        }
        let floor = floor_of(&self.last, place, top);
        self.last = None;
        read_parents(alloc, &self.objects, self.reads, &mut self.parents)?;
        let flags = flags_of(alloc, &self.objects, &self.parents, floor, top)?;
        self.reads = self.reads.saturating_add(count_of(&flags));
        let yes = flag_at(&flags, place - floor);
        self.last = Some(DoneWalk { top, floor, flags });
        Ok(yes)
    }
}

fn flag_at(flags: &[bool], offset: usize) -> bool
    ensures { result ≡ slice_index_or flags.now offset false }
{
    if offset < flags.len() {
        flags[offset]
    } else {
        false
    }
}

// How many commits a walk marked: it read each of them.
fn count_of(flags: &[bool]) -> usize {
    flags.iter().filter(|flag| **flag).count()
}

// What the last walk says of the commit at a position, if it began at `top` and came so far down.
fn answer_of(last: &Option<DoneWalk>, place: usize, top: usize) -> Option<bool>
    ensures { (os : List Object) → IfSome last.now (IsDoneWalk os)
        → IfSome result (Tells os top place) }
{
    let Some(walk) = last else {
        return None;
    };
    if walk.top == top && walk.floor <= place {
        Some(flag_at(&walk.flags, place - walk.floor))
    } else {
        None
    }
}

// How far down a walk is to go: if the last one began at the same commit, twice as far as that one.
// So the walks from one commit take together no longer than a few times the longest.
fn floor_of(last: &Option<DoneWalk>, place: usize, top: usize) -> usize
    ensures { result ≤ place }
{
    match last {
        Some(walk) if walk.top == top => {
            place.min(walk.floor.saturating_sub(top.saturating_sub(walk.floor)))
        }
        _ => place,
    }
}

// Reads the parents of all objects, if walks have read more commits than there are objects.
fn read_parents<N: Naming>(
    alloc: Global,
    objects: &Objects<'_, N>,
    reads: usize,
    parents: &mut Option<Vec<Vec<usize>>>,
) -> Result<(), Memory>
    ensures have { HaveParents objects.now parents.old → HaveParents objects.now parents.new }
    ensures places { AreHeld N.digest_of objects.now
        → IfSome parents.old (λ rows. AreParentPlaces objects.now rows.items)
        → IfSome parents.new (λ rows. AreParentPlaces objects.now rows.items) }
{
    if reads > objects.len() && parents.is_none() {
        *parents = Some(parent_places(alloc, objects)?);
    }
    Ok(())
}

// What the commit at position `top` reaches, from position `floor` on.
fn flags_of<N: Naming>(
    alloc: Global,
    objects: &Objects<'_, N>,
    parents: &Option<Vec<Vec<usize>>>,
    floor: usize,
    top: usize,
) -> Result<Vec<bool>, Memory>
    requires above { floor ≤ top }
    requires within { top < length objects.now }
    requires parents { HaveParents objects.now parents.now }
    ensures { AreHeld N.digest_of objects.now
        → IfSome parents.now (λ rows. AreParentPlaces objects.now rows.items)
        → IfOk result (λ flags.
        IsReached objects.now (object_at top objects.now).id floor flags.items) }
{
    let count = objects.len();
    prove!(top < count);
    let mut flags = vec![in alloc; false; top - floor + 1]?;
    match parents {
        Some(rows) => walk_by(rows, floor, top, &mut flags),
        None => walk(alloc, objects, floor, top, &mut flags)?,
    }
    Ok(flags)
}
