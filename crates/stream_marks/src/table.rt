//! The table of the marks of a stream, each with the object that it stands for.
//!
//! Streams of git-fast-export(1) and of most converters number their marks 1, 2, 3 and so on, and an
//! export of this program leaves out a few numbers, those of the trees. While marks are set in this
//! order, their objects are in a list. Every other mark is in a hash map.

ghost use Rattle.std.specs.Prelude.{◌≡◌, ◌<◌, ◌≤◌, ◌+◌, ◌-◌, [], ◌∷◌, ◌++◌, None, Some, length};
ghost use Rattle.std.specs.{Prelude.{nat_eq, is_some, replicate, OnOk}, Map.{lookup}};
ghost use Rattle.std.specs.{Option.{option_copied}, Vec.{vec_capacity, vec_len}};
ghost use Rattle.indexmap.specs.IndexMap.{insert_entry};
ghost use Rattle.stream_marks.specs.InOrder.{object_at, may_follow};

use git_names::Memory;
use indexmap::IndexMap;
use std::alloc::Global;
use std::marker::Model;
use stream_grammar::{Mark, MarkedObject};

/// The marks of a stream, each with its object, in the order in which they were first set.
pub struct Marks {
    // The objects of the marks 1, 2, 3 and so on, and `None` where a number was left out.
    in_order: Vec<Option<MarkedObject>>,
    // How many marks are in the list.
    count: usize,
    // All other marks, from the first that may not follow those in the list.
    others: IndexMap<Mark, MarkedObject>,
}

// Not derived, so that crates above need not prove again how its parts are dropped.
impl Drop for Marks {
    fn drop(self) {
        let Marks {
            in_order,
            count: _,
            others,
        } = self;
        drop(in_order);
        drop(others);
    }
}

impl Model for Marks {
    ghost use Rattle.std.specs.{Prelude.{◌-◌, length, min}, Vec.{vec_capacity}};
    ghost use Rattle.indexmap.specs.IndexMap.{spare};
    ghost use Rattle.stream_marks.specs.{InOrder.{HasMarks}, View.{View, in_turn}};

    ghost Value = { View };

    ghost view = { λ marks. record {
      entries = in_turn marks.in_order.items marks.others.entries;
      spare = min (vec_capacity marks.in_order - length marks.in_order.items) (spare marks.others);
    } };

    ghost invariant = { λ marks. HasMarks marks.in_order.items marks.count };
}

// How many numbers in a row may be left out of the list.
const LONGEST_GAP: usize = 16;

// A list of n marks has at most 4 * (n + 16) places: `PLACES_PER_MARK` for each mark, and for
// `MARKS_AHEAD` more. So no stream makes it large by leaving out numbers.
const PLACES_PER_MARK: usize = 4;

const MARKS_AHEAD: usize = 16;

// The position of a mark among the marks from 1.
fn position_of(mark: Mark) -> usize
    ensures { mark ≡ result + 1 }
{
    (mark.number() - 1) as usize
}

// The object at a position of the list. `None` past its end, and where a number was left out.
fn object_at(in_order: &[Option<MarkedObject>], position: usize) -> Option<&MarkedObject>
    ensures { option_copied result ≡ object_at in_order.now position }
{
    match in_order.get(position) {
        Some(Some(object)) => Some(object),
        Some(None) | None => None,
    }
}

// Whether the mark of a position may follow the marks in the list, of which there are `count`: there
// is room, and few numbers are left out, since the last mark and in all.
fn may_follow(in_order: &Vec<Option<MarkedObject>>, count: usize, position: usize) -> bool
    requires { count ≤ vec_len in_order.now }
    ensures { result ≡ may_follow (vec_len in_order.now) (vec_capacity in_order.now) count position }
{
    let end = in_order.len();
    end <= position
        && position < in_order.capacity()
        && position - end <= LONGEST_GAP
        && position / PLACES_PER_MARK <= count + MARKS_AHEAD
}

// Puts an object at a position past the end of the list. The numbers in between are left out.
fn put_at(in_order: &mut Vec<Option<MarkedObject>>, position: usize, object: MarkedObject)
    requires after { vec_len in_order.old ≤ position }
    requires room { position < vec_capacity in_order.old }
    ensures { in_order.new.items
        ≡ in_order.old.items ++ replicate (position - vec_len in_order.old) None ++ Some object ∷ [] }
{
    in_order.resize(position, None).unwrap();
    in_order.push(Some(object)).unwrap();
}

impl Marks {
    /// No marks. Allocates nothing.
    pub fn new(alloc: Global) -> Marks
        ensures { result.entries ≡ [] }
    {
        Marks {
            in_order: Vec::new(alloc),
            count: 0,
            others: IndexMap::new(alloc),
        }
    }

    /// How many marks there are.
    pub fn len(&self) -> usize
        ensures { result ≡ length self.now.entries }
    {
        self.count + self.others.len()
    }

    /// The object of a mark, or `None` if the mark was not set.
    pub fn get(&self, mark: Mark) -> Option<&MarkedObject>
        ensures { option_copied result ≡ lookup (nat_eq mark) self.now.entries }
    {
        match object_at(&self.in_order, position_of(mark)) {
            Some(object) => Some(object),
            None => self.others.get(&mark),
        }
    }

    /// Whether a mark was set.
    pub fn contains(&self, mark: Mark) -> bool
        ensures { result ≡ is_some (lookup (nat_eq mark) self.now.entries) }
    {
        self.get(mark).is_some()
    }

    /// Makes room for one more mark. `Memory` (90) if it cannot be allocated. The marks are
    /// unchanged.
    // The mark may be in the list, after as many numbers as may be left out, or in the map.
    pub fn reserve(&mut self) -> Result<(), Memory>
        ensures spare { OnOk result (0 < self.new.spare) }
        ensures same { self.new.entries ≡ self.old.entries }
    {
        self.in_order.reserve(LONGEST_GAP + 1)?;
        self.others.reserve(1)?;
        Ok(())
    }

    /// Sets a mark to an object. A mark that was set before keeps its place. `reserve` makes the
    /// room that this takes.
    pub fn set(&mut self, mark: Mark, object: MarkedObject)
        requires room { 0 < self.old.spare }
        ensures { self.new.entries ≡ insert_entry nat_eq self.old.entries mark object }
    {
        let position = position_of(mark);
        if object_at(&self.in_order, position).is_some() {
            self.in_order[position] = Some(object);
        } else if self.others.is_empty() && may_follow(&self.in_order, self.count, position) {
            put_at(&mut self.in_order, position, object);
            self.count += 1;
        } else {
            self.others.insert(mark, object).unwrap();
        }
    }
}
