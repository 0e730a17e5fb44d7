//! Objects in sight by their positions.

ghost use Rattle.std.specs.Prelude.{◌≡◌, ◌<◌, length, slice_get, MatchOption};
ghost use Rattle.std.specs.Option.{option_map};
ghost use Rattle.git_model.specs.{Content.{content_from}, References.{place_of}};

use crate::objects::Objects;
use git_model::Kind;
use git_names::{Name, Naming};

impl<'a, N: Naming> Objects<'a, N> {
    /// The position of the object of this name, counted from 0 for the oldest; `None` if there is
    /// no such object. Takes no memory.
    pub fn place(&self, id: &Name) -> Option<usize>
        ensures { MatchOption result (place_of id.now self.now ≡ length self.now)
            (λ place. (place_of id.now self.now ≡ place) × (place < length self.now)) }
    {
        let place = self.table.place(id)?;
        if place < self.len() {
            Some(place)
        } else {
            None
        }
    }

    /// The name, the kind and the contents of the object at a position; `None` from `len` on.
    /// Takes no memory.
    pub fn at(&self, place: usize) -> Option<(Name, Kind, &'a [u8])>
        ensures { option_map (λ r. record { id = r.0; content = content_from r.1 r.2.now }) result
            ≡ slice_get self.now place }
    {
        if place >= self.len() {
            return None;
        }
        let (id, slot) = self.table.at(place)?;
        let (kind, bytes) = self.pool.get(slot);
        Some((id, kind, bytes))
    }
}
