//! A table as a plain list, to compare `Table` with: pairs of an object name and an entry, with a
//! committed prefix.
//!
//! It has the calls of `Table` under the same clauses, except `add_tree` and `summary`, and looks
//! for a name by going through all of them.

ghost use Rattle.std.specs.Prelude.{◌≡◌, ◌≢◌, ◌<◌, ◌≤◌, ◌-◌, [], All, length, take, Option, None};
ghost use Rattle.std.specs.{Prelude.{position, slice_get, nat_le, OnOk, OnErr}, List.{IsDistinct}};
ghost use Rattle.std.specs.{BTreeMap.Range.{range_contains}, Cmp.Lexicographic.{slice_cmp}};
ghost use Rattle.std.specs.{Ordering.{nat_cmp}, declared.ops.Bound.TheVariants.{Included}};
ghost use Rattle.std.specs.{Option.{option_map}, Str.{bytes_eq}};
ghost use Rattle.git_model.specs.{Limits.{objects_limit}, ObjectName.{IsObjectName, object_name}};
ghost use Rattle.git_model.specs.Content.{content_from, name_by, same_content};
ghost use Rattle.git_model.specs.Repository.{object_named};
ghost use Rattle.content_pool.specs.Pool.{HasHoldsLeft};
ghost use Rattle.tenant_tables.specs.View.{names, entry_named, slot_of, in_sight};
ghost use Rattle.tenant_tables.specs.{Objects.{objects}, IsBackedBy.{IsBackedBy, PreservesOthers}};
ghost use Rattle.tenant_tables.specs.Adding.{Answers, store_fault, Adds, Pushes};
ghost use Rattle.tenant_tables.specs.Abbreviation.{found_among};

use content_pool::{Pool, Slot};
use git_objects::{Kind, Memory, Name, Naming, has_twenty_bytes};
use std::alloc::Global;
use std::marker::Model;
use tenant_tables::{CONTENTS_LIMIT, Fault, Found, OBJECTS_LIMIT, Sight, bounds};

// Where the contents of an object lie in the pool. Contracts see the same as of an entry of a
// `Table` that has no summary.
#[derive(Clone, Copy)]
struct Entry {
    slot: Slot,
}

impl Model for Entry {
    ghost use Rattle.std.specs.Prelude.{None};
    ghost use Rattle.tenant_tables.specs.declared.entry.Entry.{Entry};

    ghost Value = { Entry };

    ghost view = { λ entry. record { slot = entry.slot; summary = None } };

    ghost inverse = { λ entry. record { slot = entry.slot } };
}

impl Entry {
    fn new(slot: Slot) -> Entry
        ensures { result ≡ record { slot = slot; summary = None } }
    {
        Entry { slot }
    }

    fn slot(&self) -> Slot
        ensures { result ≡ self.now.slot }
    {
        self.slot
    }
}

/// The objects of one tenant, in the order in which they were added. Contracts see the same as of a
/// `Table`.
#[derive(Drop)]
pub struct PlainTable {
    objects: Vec<(Name, Entry)>,
    committed: usize,
}

impl Model for PlainTable {
    ghost use Rattle.tenant_tables.specs.View.{View};
    ghost use Rattle.pool_tests.specs.PlainTable.{IsList};

    ghost Value = { View };

    ghost view = { λ t. record { entries = t.objects.items; committed = t.committed } };

    ghost invariant = { λ t. IsList t.objects.items t.committed };
}

// Whether this name is between the two, or one of them.
fn lies_between(id: &Name, first: &Name, last: &Name) -> bool
    ensures { result ≡ range_contains (slice_cmp nat_cmp) (Included first.now) (Included last.now)
        id.now }
{
    first.cmp(id).is_le() && !last.cmp(id).is_lt()
}

// The position of the first of these entries with this name.
fn place_among(objects: &[(Name, Entry)], id: &Name) -> Option<usize>
    ensures { result ≡ position (λ e. bytes_eq id.now e.0) objects.now }
{
    objects.iter().position(|row| *id == row.0)
}

// The first of these entries with this name.
fn entry_among(objects: &[(Name, Entry)], id: &Name) -> Option<Entry>
    ensures { result ≡ entry_named id.now objects.now }
{
    let place = place_among(objects, id)?;
    Some(objects[place].1)
}

impl PlainTable {
    /// An empty table. Takes no memory; what it holds later comes from `alloc`.
    pub fn new(alloc: Global) -> PlainTable
        ensures entries { result.entries ≡ [] }
        ensures committed { result.committed ≡ 0 }
    {
        PlainTable {
            objects: Vec::new(alloc),
            committed: 0,
        }
    }

    /// Where the contents of the object of this name lie in the pool; `None` if the table has no
    /// such object.
    pub fn find(&self, id: &Name) -> Option<Slot>
        ensures { result ≡ slot_of id.now self.now.entries }
    {
        entry_among(self.objects.as_slice(), id).map(|entry| entry.slot())
    }

    /// `find` among the committed objects only.
    pub fn find_committed(&self, id: &Name) -> Option<Slot>
        ensures { result ≡ slot_of id.now (take self.now.committed self.now.entries) }
    {
        entry_among(self.seen(Sight::Committed), id).map(|entry| entry.slot())
    }

    /// The position of the object of this name, counted from 0 in the order in which objects were
    /// added; `None` if the table has no such object.
    pub fn place(&self, id: &Name) -> Option<usize>
        ensures { result ≡ position (bytes_eq id.now) (names self.now.entries) }
    {
        place_among(self.objects.as_slice(), id)
    }

    /// The object name at this position, and where its contents lie in the pool; `None` from `len`
    /// on.
    pub fn at(&self, place: usize) -> Option<(Name, Slot)>
        ensures { result ≡ option_map (λ e. (e.0, e.1.slot)) (slice_get self.now.entries place) }
    {
        let (id, entry) = self.objects.get(place)?;
        Some((*id, entry.slot()))
    }

    /// How many objects the table has, at most 4,194,304. Their names are distinct.
    pub fn len(&self) -> usize
        ensures value { result ≡ length self.now.entries }
        ensures limited { length self.now.entries ≤ objects_limit }
        ensures distinct { IsDistinct bytes_eq (names self.now.entries) }
    {
        self.objects.len()
    }

    /// How many of them are committed.
    pub fn committed_len(&self) -> usize
        ensures value { result ≡ self.now.committed }
        ensures within { self.now.committed ≤ length self.now.entries }
    {
        self.committed
    }

    /// Looks up an abbreviated object name: `Found::One` if exactly one name in sight begins with
    /// these hexadecimal digits of either case.
    ///
    /// No name begins with other characters or with more than forty digits. Walks over all names.
    /// Takes no memory.
    pub fn starting_with(&self, digits: &[u8], sight: Sight) -> Found
        ensures { result ≡ found_among digits.now (names (in_sight sight self.now)) }
    {
        let objects = self.seen(sight);
        let Some((first, last)) = bounds(digits) else {
            return Found::None;
        };
        let mut found = Found::None;
        for (id, _) in objects {
            if lies_between(id, &first, &last) {
                match found {
                    Found::None => found = Found::One(*id),
                    _ => return Found::Many,
                }
            }
        }
        found
    }

    // The objects in sight.
    fn seen(&self, sight: Sight) -> &[(Name, Entry)]
        ensures value { result.now ≡ in_sight sight self.now }
        ensures named { All IsObjectName (names result.now) }
    {
        match sight {
            Sight::All => self.objects.as_slice(),
            Sight::Committed => &self.objects[..self.committed],
        }
    }

    /// Adds the object of this kind, which is not a tree, with these contents, and answers its
    /// name, as `Table::add` does, with the same faults. Table and pool are unchanged after a
    /// fault.
    ///
    /// The pool must be the one that holds the contents of the table, and hold no content 2^64 - 1
    /// times.
    pub fn add<N: Naming>(
        &mut self,
        pool: &mut Pool<N>,
        kind: Kind,
        bytes: &[u8],
    ) -> Result<Name, Fault>
        requires stands { IsBackedBy N.digest_of pool.old self.old.entries }
        requires room { HasHoldsLeft pool.old }
        requires no_tree { kind ≢ Kind.Tree }
        ensures stands { IsBackedBy N.digest_of pool.new self.new.entries }
        ensures others { PreservesOthers pool.old self.old.entries pool.new self.new.entries }
        ensures answer { let c = content_from kind bytes.now in let id = name_by N.digest_of c in
            Answers result id (store_fault id c (objects pool.old self.old.entries)) }
        ensures ok { OnOk result (Adds N.digest_of (content_from kind bytes.now) None
            pool.old self.old pool.new self.new) }
        ensures err { OnErr result ((self.new ≡ self.old) × (pool.new ≡ pool.old)) }
    {
        if bytes.len() > CONTENTS_LIMIT {
            return Err(Fault::Limit);
        }
        let id = pool.name_of(kind, bytes)?;
        let there = self.has_content(pool, &id, kind, bytes);
        if there.unwrap_or(false) {
            return Ok(id);
        }
        if self.is_full() {
            return Err(Fault::Limit);
        }
        if there.is_some() {
            return Err(Fault::NameCollision);
        }
        self.push_new(pool, id, kind, bytes)?;
        Ok(id)
    }

    // Whether the object of this name has this content; `None` if there is no such object.
    fn has_content<N: Naming>(
        &self,
        pool: &Pool<N>,
        id: &Name,
        kind: Kind,
        bytes: &[u8],
    ) -> Option<bool>
        requires { IsBackedBy N.digest_of pool.now self.now.entries }
        ensures { result ≡ option_map (same_content (content_from kind bytes.now))
            (object_named id.now (objects pool.now self.now.entries)) }
    {
        let Some(slot) = self.find(id) else {
            return None;
        };
        Some((kind, bytes) == pool.get(slot))
    }

    fn is_full(&self) -> bool
        ensures { result ≡ nat_le objects_limit (length self.now.entries) }
    {
        self.objects.len() >= OBJECTS_LIMIT
    }

    // Appends an object. Everything that may fail comes before the first change.
    fn push_new<N: Naming>(
        &mut self,
        pool: &mut Pool<N>,
        id: Name,
        kind: Kind,
        bytes: &[u8],
    ) -> Result<(), Memory>
        requires named { id ≡ object_name N.digest_of kind bytes.now }
        requires new { entry_named id self.old.entries ≡ None }
        requires spare { length self.old.entries < objects_limit }
        requires room { HasHoldsLeft pool.old }
        ensures ok { OnOk result (Pushes id (content_from kind bytes.now) None
            pool.old self.old pool.new self.new) }
        ensures err { OnErr result ((self.new ≡ self.old) × (pool.new ≡ pool.old)) }
    {
        has_twenty_bytes(&id);
        self.objects.reserve(1)?;
        let slot = pool.put_named(id, kind, bytes)?;
        self.objects.push((id, Entry::new(slot))).unwrap();
        Ok(())
    }

    /// Makes all objects committed. Takes no memory.
    pub fn commit(&mut self)
        ensures { self.new ≡ record self.old { committed = length self.old.entries } }
    {
        self.committed = self.objects.len();
    }

    /// Removes the objects after the committed prefix and releases their slots. Takes no memory.
    ///
    /// What another table holds stays in the pool. The pool must be the one that holds the contents
    /// of the table.
    pub fn roll_back<N: Naming>(&mut self, pool: &mut Pool<N>)
        requires stands { IsBackedBy N.digest_of pool.old self.old.entries }
        ensures stands { IsBackedBy N.digest_of pool.new self.new.entries }
        ensures others { PreservesOthers pool.old self.old.entries pool.new self.new.entries }
        ensures entries { self.new
            ≡ record self.old { entries = take self.old.committed self.old.entries } }
        ensures objects { objects pool.new self.new.entries
            ≡ take self.old.committed (objects pool.old self.old.entries) }
    {
        let committed = self.committed_len();
        while self.len() > committed {
            self.give_up_last(pool);
        }
    }

    // Removes the last object and releases its slot.
    fn give_up_last<N: Naming>(&mut self, pool: &mut Pool<N>)
        requires stands { IsBackedBy N.digest_of pool.old self.old.entries }
        requires open { self.old.committed < length self.old.entries }
        ensures stands { IsBackedBy N.digest_of pool.new self.new.entries }
        ensures others { PreservesOthers pool.old self.old.entries pool.new self.new.entries }
        ensures entries { self.new
            ≡ record self.old { entries = take (length self.old.entries - 1) self.old.entries } }
        ensures objects { objects pool.new self.new.entries
            ≡ take (length self.old.entries - 1) (objects pool.old self.old.entries) }
    {
        let Some(row) = self.objects.pop() else {
            return;
        };
        pool.release(row.1.slot());
    }
}
