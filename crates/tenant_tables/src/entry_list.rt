//! Object names with their entries, in the order in which they were added.

ghost use Rattle.std.specs.Prelude.{◌≡◌, ◌<◌, [], ◌∷◌, ◌++◌, length, take, filter, None, position};
ghost use Rattle.std.specs.Prelude.{slice_get, is_some, if◌then◌else◌, IfOk, IfSome, OnOk, OnErr};
ghost use Rattle.std.specs.{List.{IsDistinct}, Option.{option_map}, Cow.{cow_slice_items}};
ghost use Rattle.std.specs.Str.{bytes_eq};
ghost use Rattle.git_model.specs.{ObjectName.{object_name}, Content.{content_from}};
ghost use Rattle.content_pool.specs.Pool.{HasHoldsLeft, Puts};
ghost use Rattle.name_index.specs.Index.{is_between, most_shared};
ghost use Rattle.tenant_tables.specs.Abbreviation.{found_among, only_of};
ghost use Rattle.tenant_tables.specs.View.{names, entry_named};

use crate::abbreviation::bounds;
use crate::entry::Entry;
use crate::found::Found;
use crate::summary::Summary;
use content_pool::{Pool, Slot};
use git_model::Kind;
use git_names::{Memory, Name, Naming, has_twenty_bytes};
use indexmap::IndexMap;
use name_index::{Between, NameIndex, shared_apart};
use std::alloc::Global;
use std::borrow::CowSlice;
use std::marker::Model;

/// Names with their entries, in order: the committed ones first. No name is there twice.
#[derive(Drop)]
pub(crate) struct EntryList {
    objects: IndexMap<Name, Entry>,
    names: NameIndex,
    committed: usize,
}

impl Model for EntryList {
    ghost use Rattle.tenant_tables.specs.{View.{View}, Index.{IsIndexed}};

    ghost Value = { View };

    ghost view = { λ l. record { entries = l.objects.entries; committed = l.committed } };

    ghost invariant = { λ l. IsIndexed l.objects.entries l.names l.committed };
}

// Holds a content in the pool. Owned bytes are stored without a copy.
fn put<N: Naming>(
    pool: &mut Pool<N>,
    id: Name,
    kind: Kind,
    bytes: CowSlice<'_, u8>,
) -> Result<Slot, Memory>
    requires named { id ≡ object_name N.digest_of kind (cow_slice_items bytes) }
    requires room { HasHoldsLeft pool.old }
    ensures puts { IfOk result (λ slot. Puts pool.old pool.new slot
        (content_from kind (cow_slice_items bytes.entry))) }
    ensures err { OnErr result (pool.new ≡ pool.old) }
{
    match bytes {
        CowSlice::Borrowed(bytes) => pool.put_named(id, kind, bytes),
        CowSlice::Owned(bytes) => pool.put_owned(id, kind, bytes),
    }
}

// Whether a name is neither before the first nor after the last.
fn lies_between(id: Name, first: &Name, last: &Name) -> bool
    ensures { result ≡ is_between first.now last.now id }
{
    id.cmp(first).is_ge() && id.cmp(last).is_le()
}

// Removes the entries from `kept` on.
fn shorten(objects: &mut IndexMap<Name, Entry>, kept: usize)
    ensures { objects.new.entries ≡ take kept objects.old.entries }
{
    while objects.len() > kept {
        objects.pop();
    }
}

#[tactic(auto, unfolding(crate::specs::View::entry_named))]
impl EntryList {
    /// An empty list. Takes no memory; what it holds later comes from `alloc`.
    pub fn new(alloc: Global) -> EntryList
        ensures { result ≡ record { entries = []; committed = 0 } }
    {
        EntryList {
            objects: IndexMap::new(alloc),
            names: NameIndex::new(alloc),
            committed: 0,
        }
    }

    /// An empty list, with room for this many entries. `Memory` if there is no memory for that.
    pub fn with_capacity(alloc: Global, count: usize) -> Result<EntryList, Memory>
        ensures { IfOk result (λ list. list ≡ record { entries = []; committed = 0 }) }
    {
        let mut list = EntryList::new(alloc);
        list.objects.reserve(count)?;
        Ok(list)
    }

    /// How many entries there are. Their names are distinct.
    pub fn len(&self) -> usize
        ensures value { result ≡ length self.now.entries }
        ensures distinct { IsDistinct bytes_eq (names self.now.entries) }
    {
        self.objects.len()
    }

    /// How many of them are committed.
    pub fn committed_len(&self) -> usize
        ensures { result ≡ self.now.committed }
    {
        self.committed
    }

    /// The position of a name, counted from 0, and its entry.
    pub fn look_up(&self, id: &Name) -> Option<(usize, Entry)>
        ensures place { option_map (λ r. r.0) result
            ≡ position (bytes_eq id.now) (names self.now.entries) }
        ensures entry { option_map (λ r. r.1) result ≡ entry_named id.now self.now.entries }
        ensures within { IfSome result (λ r. r.0 < length self.now.entries) }
    {
        let (place, _, entry) = self.objects.get_full(id)?;
        Some((place, *entry))
    }

    /// The name at a position, and its entry.
    pub fn at(&self, place: usize) -> Option<(Name, Entry)>
        ensures entry { result ≡ slice_get self.now.entries place }
        ensures distinct { IsDistinct bytes_eq (names self.now.entries) }
    {
        let (id, entry) = self.objects.get_index(place)?;
        Some((*id, *entry))
    }

    /// Looks up an abbreviated object name among the first `count` names. Takes no memory.
    ///
    /// The index answers for all names and for the committed ones, and where it has at most one
    /// name for these digits. Else the names are compared one by one until there are two.
    pub fn starting_with(&self, digits: &[u8], count: usize) -> Found
        ensures { result ≡ found_among digits.now (names (take count self.now.entries)) }
    {
        let objects = &self.objects;
        let Some((first, last)) = bounds(digits) else {
            return Found::None;
        };
        if count == self.committed {
            return self.in_index(&first, &last, false);
        }
        let found = self.in_index(&first, &last, true);
        if count >= objects.len() {
            return found;
        }
        match found {
            Found::None => Found::None,
            Found::One(id) => self.only_before(id, count),
            Found::Many => self.among_first(&first, &last, count),
        }
    }

    // What the index has between two names: of all, or of the committed ones.
    fn in_index(&self, first: &Name, last: &Name, all: bool) -> Found
        ensures { result ≡ only_of (filter (is_between first.now last.now) (names
            (if all then self.now.entries else take self.now.committed self.now.entries))) }
    {
        match self.names.between(first, last, all) {
            Between::None => Found::None,
            Between::One(id) => Found::One(id),
            Between::Many => Found::Many,
        }
    }

    // This name, if it is among the first `count`.
    fn only_before(&self, id: Name, count: usize) -> Found
        ensures { result
            ≡ (if is_some (entry_named id (take count self.now.entries)) then Found.One id
            else Found.None) }
    {
        match self.objects.get_index_of(&id) {
            Some(place) if place < count => Found::One(id),
            _ => Found::None,
        }
    }

    // What is found among the first `count` names, one by one.
    fn among_first(&self, first: &Name, last: &Name, count: usize) -> Found
        ensures { result ≡ only_of (filter (is_between first.now last.now)
            (names (take count self.now.entries))) }
    {
        let mut found = Found::None;
        for place in 0..count {
            let Some(entry) = self.at(place) else {
                return found;
            };
            if lies_between(entry.0, first, last) {
                match found {
                    Found::None => found = Found::One(entry.0),
                    _ => return Found::Many,
                }
            }
        }
        found
    }

    /// The most leading digits that a name other than `id` shares with it, of the first `count`
    /// names. Takes no memory.
    ///
    /// The index answers for all names and for the committed ones. Else the names are compared one
    /// by one.
    pub fn most_shared(&self, id: &Name, count: usize) -> usize
        ensures { result ≡ most_shared id.now (names (take count self.now.entries)) }
    {
        if count == self.committed {
            return self.names.most_shared(id, false);
        }
        if count >= self.objects.len() {
            return self.names.most_shared(id, true);
        }
        self.most_among_first(id, count)
    }

    // The most digits shared by the first `count` names, one by one.
    fn most_among_first(&self, id: &Name, count: usize) -> usize
        ensures { result ≡ most_shared id.now (names (take count self.now.entries)) }
    {
        let mut most = 0;
        for place in 0..count {
            let Some(entry) = self.at(place) else {
                return most;
            };
            most = most.max(shared_apart(id, &entry.0));
        }
        most
    }

    /// Adds an entry at the end, under a name that is not there. `Memory` if an allocation fails;
    /// the list is then unchanged.
    pub fn push(&mut self, id: Name, entry: Entry) -> Result<(), Memory>
        requires { entry_named id self.old.entries ≡ None }
        ensures ok { OnOk result (self.new
            ≡ record self.old { entries = self.old.entries ++ (id, entry) ∷ [] }) }
        ensures err { OnErr result (self.new ≡ self.old) }
    {
        has_twenty_bytes(&id);
        self.objects.reserve(1)?;
        self.names.reserve()?;
        self.names.insert(id);
        self.objects.insert(id, entry).unwrap();
        Ok(())
    }

    /// `push` of a content, which the pool holds once more, and of its slot. Everything that may
    /// fail comes before the first change that is not undone.
    pub fn push_content<N: Naming>(
        &mut self,
        pool: &mut Pool<N>,
        id: Name,
        kind: Kind,
        bytes: CowSlice<'_, u8>,
        summary: Option<Summary>,
    ) -> Result<Slot, Memory>
        requires named { id ≡ object_name N.digest_of kind (cow_slice_items bytes) }
        requires new { entry_named id self.old.entries ≡ None }
        requires room { HasHoldsLeft pool.old }
        ensures puts { IfOk result (λ slot. Puts pool.old pool.new slot
            (content_from kind (cow_slice_items bytes.entry))) }
        ensures ok { IfOk result (λ slot. self.new ≡ record self.old {
          entries
              = self.old.entries ++ (id, record { slot = slot; summary = summary }) ∷ [];
        }) }
        ensures err { OnErr result ((self.new ≡ self.old) × (pool.new ≡ pool.old)) }
    {
        has_twenty_bytes(&id);
        self.objects.reserve(1)?;
        self.names.reserve()?;
        let slot = put(pool, id, kind, bytes)?;
        self.names.insert(id);
        self.objects.insert(id, Entry { slot, summary }).unwrap();
        Ok(slot)
    }

    /// Makes all entries committed. Takes no memory.
    pub fn commit(&mut self)
        ensures { self.new ≡ record self.old { committed = length self.old.entries } }
    {
        self.committed = self.objects.len();
        self.names.commit();
    }

    /// Removes the entries after the committed ones. Takes no memory.
    pub fn roll_back(&mut self)
        ensures { self.new
            ≡ record self.old { entries = take self.old.committed self.old.entries } }
    {
        shorten(&mut self.objects, self.committed);
        self.names.roll_back();
    }

    /// The first `count` entries, or all if there are fewer, as a list of its own, all committed.
    /// `Memory` if an allocation fails.
    pub fn first(&self, alloc: Global, count: usize) -> Result<EntryList, Memory>
        ensures { IfOk result (λ list. list ≡ record {
          entries = take count self.now.entries;
          committed = length (take count self.now.entries);
        }) }
    {
        let mut list = EntryList::new(alloc);
        while list.len() < count {
            let Some(found) = self.at(list.len()) else {
                break;
            };
            list.push(found.0, found.1)?;
        }
        list.commit();
        Ok(list)
    }
}
