//! The first entries of a table, which it may share with others.

ghost use Rattle.std.specs.Prelude.{◌≡◌, ◌<◌, [], length, take, position, slice_get, IfOk, IfErr};
ghost use Rattle.std.specs.{Option.{option_map}, Str.{bytes_eq}};
ghost use Rattle.name_index.specs.Index.{most_shared};
ghost use Rattle.tenant_tables.specs.{Abbreviation.{found_among}, View.{names, entry_named}};

use crate::entry::Entry;
use crate::entry_list::EntryList;
use crate::found::Found;
use git_names::{Memory, Name};
use std::alloc::Global;
use std::marker::Model;
use std::rc::Rc;

/// The first `count` entries of a list that no longer changes; none without a list.
#[derive(Drop)]
pub(crate) struct Front {
    list: Option<Rc<EntryList>>,
    count: usize,
}

impl Model for Front {
    ghost use Rattle.std.specs.{Prelude.{◌≤◌, [], length, take}, Option.{option_map_or}};
    ghost use Rattle.tenant_tables.specs.View.{Entries};

    ghost Value = { Entries };

    ghost view = { λ f. take f.count (option_map_or (λ l. l.value.entries) f.list []) };

    ghost invariant = { λ f. f.count ≤ length (option_map_or (λ l. l.value.entries) f.list []) };
}

#[tactic(auto, unfolding(crate::specs::View::entry_named))]
impl Front {
    /// No entries. Takes no memory.
    pub fn none() -> Front
        ensures { result ≡ [] }
    {
        Front {
            list: None,
            count: 0,
        }
    }

    /// All entries of a list, which is given back if an allocation fails.
    pub fn whole(alloc: Global, list: EntryList) -> Result<Front, EntryList>
        ensures ok { IfOk result (λ front. front ≡ list.entries) }
        ensures err { IfErr result (λ back. back ≡ list) }
    {
        let count = list.len();
        match Rc::new(alloc, list) {
            Ok(list) => Ok(Front {
                list: Some(list),
                count,
            }),
            Err(refused) => Err(refused.value),
        }
    }

    /// The first `count` of these entries, or all if there are fewer. Nothing is copied.
    pub fn first(&self, count: usize) -> Result<Front, Memory>
        ensures { IfOk result (λ front. front ≡ take count self.now) }
    {
        let Some(list) = &self.list else {
            return Ok(Front::none());
        };
        let list = list.clone()?;
        Ok(Front {
            list: Some(list),
            count: count.min(self.count),
        })
    }

    /// How many entries there are.
    pub fn len(&self) -> usize
        ensures { result ≡ length self.now }
    {
        self.count
    }

    /// The position of a name, counted from 0, and its entry.
    pub fn look_up(&self, id: &Name) -> Option<(usize, Entry)>
        ensures place { option_map (λ r. r.0) result ≡ position (bytes_eq id.now) (names self.now) }
        ensures entry { option_map (λ r. r.1) result ≡ entry_named id.now self.now }
    {
        let Some(list) = &self.list else {
            return None;
        };
        let found = list.look_up(id)?;
        if found.0 < self.count {
            Some(found)
        } else {
            None
        }
    }

    /// The name at a position, and its entry.
    pub fn at(&self, place: usize) -> Option<(Name, Entry)>
        ensures { result ≡ slice_get self.now place }
    {
        let Some(list) = &self.list else {
            return None;
        };
        if place < self.count {
            list.at(place)
        } else {
            None
        }
    }

    /// Looks up an abbreviated object name among these. Takes no memory.
    pub fn starting_with(&self, digits: &[u8]) -> Found
        ensures { result ≡ found_among digits.now (names self.now) }
    {
        let Some(list) = &self.list else {
            return Found::None;
        };
        list.starting_with(digits, self.count)
    }

    /// The most leading digits that another of these names shares with `id`. Takes no memory.
    pub fn most_shared(&self, id: &Name) -> usize
        ensures { result ≡ most_shared id.now (names self.now) }
    {
        let Some(list) = &self.list else {
            return 0;
        };
        list.most_shared(id, self.count)
    }
}
