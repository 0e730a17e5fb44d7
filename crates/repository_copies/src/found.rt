//! The objects that a copy has so far, by their places in the repository.

ghost use Rattle.std.specs.Prelude.{◌≡◌, ◌<◌, [], ◌∷◌, ℕ, List, false, length, get_or, IfOk, OnOk};
ghost use Rattle.git_model.specs.{GoodRepository.{AreObjects}, References.{object_at}};
ghost use Rattle.git_model.specs.Repository.{Object};
ghost use Rattle.repository_copies.specs.Found.{Adds, AreFound};

use git_objects::Memory;
use std::alloc::Global;

/// The places so far, in order, and a flag for each object of the repository: whether its place is
/// one of them.
#[derive(Drop)]
pub struct Found {
    pub there: Vec<bool>,
    pub places: Vec<usize>,
}

impl Found {
    /// No places, among so many objects. Takes memory for the flags; `Memory` (90) if there is
    /// none.
    pub fn none(alloc: Global, objects: usize) -> Result<Found, Memory>
        ensures places { IfOk result (λ found. found.places.items ≡ []) }
        ensures found { (os : List Object) → length os ≡ objects → IfOk result (AreFound os) }
    {
        let there = vec![in alloc; false; objects]?;
        Ok(Found {
            there,
            places: Vec::new(alloc),
        })
    }

    /// Whether a place is there.
    pub fn has(&self, place: usize) -> bool
        ensures { result ≡ get_or self.now.there.items place false }
    {
        match self.there.get(place) {
            Some(is_there) => *is_there,
            None => false,
        }
    }

    /// Adds the place of an object, unless it is there. `Memory` (90) if there is no room for it.
    pub fn add(&mut self, place: usize) -> Result<(), Memory>
        ensures { (digest : List ℕ → List ℕ) (os : List Object) → AreObjects digest os
            → place < length os → AreFound os self.old
            → OnOk result (Adds os ((object_at place os).id ∷ []) self.old self.new) }
    {
        if place < self.there.len() && !self.there[place] {
            self.places.push(place)?;
            self.there[place] = true;
        }
        Ok(())
    }
}
