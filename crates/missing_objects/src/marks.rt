//! Which objects are wanted and which are had, by their places, and how many are wanted and not had.
//! A mark stays once it is set.

ghost use Rattle.std.specs.Prelude.{◌≡◌, ◌<◌, [], ◌∷◌, true, false, get_or, length, set, IfOk};
ghost use Rattle.missing_objects.specs.Marks.{AreMarksOf, is_blank, is_open, no_marks, open_places};
ghost use Rattle.missing_objects.specs.Marks.{with_marks};

use crate::flags::Flags;
use git_objects::{Memory, Name, Naming};
use std::alloc::Global;
use std::marker::Model;
use tenant_tables::Objects;

/// What an object is marked as.
#[derive(Clone, Copy)]
pub enum Mark {
    Wanted,
    Had,
}

/// The marks of objects by their places.
#[derive(Drop)]
pub struct Marks {
    wanted: Flags,
    had: Flags,
    len: usize,
    open_count: usize,
}

impl Model for Marks {
    ghost use Rattle.std.specs.Prelude.{◌≡◌, length};
    ghost use Rattle.missing_objects.specs.Marks.{Marks as Flags, open_places};

    ghost Value = { Flags };

    ghost view = { λ m. record { wanted = m.wanted; had = m.had } };

    ghost invariant = { λ m. (length m.wanted ≡ m.len) × (length m.had ≡ m.len)
        × (m.open_count ≡ length (open_places (record { wanted = m.wanted; had = m.had }) m.len)) };
}

impl Marks {
    /// No marks on this many objects.
    pub fn none(alloc: Global, len: usize) -> Result<Marks, Memory>
        ensures { IfOk result (λ marks. marks ≡ no_marks len) }
    {
        let wanted = Flags::none(alloc, len)?;
        let had = Flags::none(alloc, len)?;
        Ok(Marks {
            wanted,
            had,
            len,
            open_count: 0,
        })
    }

    /// How many objects are wanted and not had.
    pub fn open_count(&self) -> usize
        ensures { result ≡ length (open_places self.now (length self.now.wanted)) }
    {
        self.open_count
    }

    /// Whether the object at a place is had.
    pub fn is_had(&self, place: usize) -> bool
        requires { place < length self.now.had }
        ensures { result ≡ get_or self.now.had place false }
    {
        self.had.get(place)
    }

    /// Whether the object at a place is wanted and not had.
    pub fn is_open(&self, place: usize) -> bool
        requires wanted { place < length self.now.wanted }
        requires had { place < length self.now.had }
        ensures { result ≡ is_open self.now place }
    {
        self.wanted.get(place) && !self.had.get(place)
    }

    // Whether the object at a place has no mark.
    fn is_blank(&self, place: usize) -> bool
        requires wanted { place < length self.now.wanted }
        requires had { place < length self.now.had }
        ensures { result ≡ is_blank self.now place }
    {
        !self.wanted.get(place) && !self.had.get(place)
    }

    /// Marks the object at a place as wanted.
    pub fn want(&mut self, place: usize)
        requires { place < length self.old.wanted }
        ensures { self.new ≡ record { wanted = set self.old.wanted place true; had = self.old.had } }
    {
        self.open_count += usize::from(self.is_blank(place));
        self.wanted.set(place);
    }

    /// Marks the object at a place as had.
    pub fn have(&mut self, place: usize)
        requires { place < length self.old.wanted }
        ensures { self.new ≡ record { wanted = self.old.wanted; had = set self.old.had place true } }
    {
        self.open_count -= usize::from(self.is_open(place));
        self.had.set(place);
    }
}

/// Marks the object of this name, if there is one.
pub fn mark_object<N: Naming>(objects: &Objects<'_, N>, id: &Name, with: Mark, marks: &mut Marks)
    requires size { AreMarksOf objects.now marks.old }
    ensures size { AreMarksOf objects.now marks.new }
    ensures marked { marks.new ≡ with_marks with objects.now marks.old (id.now ∷ []) }
{
    match objects.place(id) {
        Some(place) => match with {
            Mark::Wanted => marks.want(place),
            Mark::Had => marks.have(place),
        },
        None => {}
    }
}

/// Marks the objects of these names.
pub fn mark_objects<N: Naming>(
    objects: &Objects<'_, N>,
    ids: &[Name],
    with: Mark,
    marks: &mut Marks,
)
    requires size { AreMarksOf objects.now marks.old }
    ensures size { AreMarksOf objects.now marks.new }
    ensures marked { marks.new ≡ with_marks with objects.now marks.old ids.now }
{
    for id in ids {
        mark_object(objects, id, with, marks);
    }
}
