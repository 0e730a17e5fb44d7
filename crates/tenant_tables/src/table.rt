//! The object table of a tenant.

ghost use Rattle.std.specs.Prelude.{◌≡◌, ◌≢◌, ◌<◌, ◌≤◌, ◌+◌, [], length, take, Option, None, Some};
ghost use Rattle.std.specs.Prelude.{position, slice_get, is_some, nat_le, IfOk, OnOk, OnErr};
ghost use Rattle.std.specs.{List.{IsDistinct}, Option.{option_map}, Cow.{cow_slice_items}};
ghost use Rattle.std.specs.Str.{bytes_eq};
ghost use Rattle.git_model.specs.{Limits.{contents_limit, objects_limit}, ObjectName.{object_name}};
ghost use Rattle.git_model.specs.Content.{content_from, name_by, same_content};
ghost use Rattle.git_model.specs.Repository.{object_named};
ghost use Rattle.content_pool.specs.Pool.{HasHoldsLeft, IsLive, content};
ghost use Rattle.tenant_tables.specs.View.{names, entry_named, slot_of, summary_of, in_sight};
ghost use Rattle.tenant_tables.specs.{Objects.{objects}, IsBackedBy.{IsBackedBy, PreservesOthers}};
ghost use Rattle.tenant_tables.specs.Adding.{Answers, store_fault, Adds, Pushes, PushesAt};
ghost use Rattle.tenant_tables.specs.{Trees.{FitsTree}, Summed.{SummedAfter}, Abbreviation.{found_among}};
ghost use Rattle.name_index.specs.Index.{most_shared};

use crate::entry::Entry;
use crate::entry_list::EntryList;
use crate::fault::Fault;
use crate::found::{Found, both};
use crate::front::Front;
use crate::sight::Sight;
use crate::summary::Summary;
use content_pool::{Pool, Slot};
use git_model::Kind;
use git_names::{Memory, Name, Naming};
use std::alloc::Global;
use std::borrow::CowSlice;
use std::marker::Model;

/// The most bytes that the contents of one object may have.
pub const CONTENTS_LIMIT: usize = 134_217_728;

/// The most objects that a table may have.
pub const OBJECTS_LIMIT: usize = 4_194_304;

/// The objects of one tenant, in the order in which they were added: the committed ones first, and
/// after them those of the open stream.
#[derive(Drop)]
pub struct Table {
    pub(crate) front: Front,
    pub(crate) own: EntryList,
}

impl Model for Table {
    ghost use Rattle.std.specs.Prelude.{◌+◌, ◌++◌, length};
    ghost use Rattle.tenant_tables.specs.{View.{View}, Index.{IsTable}};

    ghost Value = { View };

    ghost view = { λ t. record {
      entries = t.front ++ t.own.entries;
      committed = length t.front + t.own.committed;
    } };

    ghost invariant = { λ t. IsTable t.front t.own.entries (length t.front + t.own.committed) };
}

#[tactic(auto, unfolding(crate::specs::View::entry_named))]
impl Table {
    /// An empty table. Takes no memory; what it holds later comes from `alloc`.
    pub fn new(alloc: Global) -> Table
        ensures entries { result.entries ≡ [] }
        ensures committed { result.committed ≡ 0 }
    {
        Table {
            front: Front::none(),
            own: EntryList::new(alloc),
        }
    }

    /// An empty table, with room for this many objects. `Memory` (90) if there is no memory for
    /// that.
    pub fn with_capacity(alloc: Global, count: usize) -> Result<Table, Memory>
        ensures entries { IfOk result (λ table. table.entries ≡ []) }
        ensures committed { IfOk result (λ table. table.committed ≡ 0) }
    {
        Ok(Table {
            front: Front::none(),
            own: EntryList::with_capacity(alloc, count)?,
        })
    }

    /// Where the contents of the object of this name lie in the pool; `None` if the table has no
    /// such object.
    pub fn find(&self, id: &Name) -> Option<Slot>
        ensures { result ≡ slot_of id.now self.now.entries }
    {
        self.look_up(id).map(|found| found.1.slot)
    }

    /// `find` among the committed objects only.
    pub fn find_committed(&self, id: &Name) -> Option<Slot>
        ensures { result ≡ slot_of id.now (take self.now.committed self.now.entries) }
    {
        let (place, entry) = self.look_up(id)?;
        if place < self.committed_len() {
            Some(entry.slot)
        } else {
            None
        }
    }

    /// The position of the object of this name, counted from 0 in the order in which objects were
    /// added; `None` if the table has no such object.
    pub fn place(&self, id: &Name) -> Option<usize>
        ensures { result ≡ position (bytes_eq id.now) (names self.now.entries) }
    {
        self.look_up(id).map(|found| found.0)
    }

    /// The position of a name, and its entry.
    pub(crate) fn look_up(&self, id: &Name) -> Option<(usize, Entry)>
        ensures place { option_map (λ r. r.0) result
            ≡ position (bytes_eq id.now) (names self.now.entries) }
        ensures entry { option_map (λ r. r.1) result ≡ entry_named id.now self.now.entries }
    {
        if let Some(found) = self.front.look_up(id) {
            return Some(found);
        }
        let (place, entry) = self.own.look_up(id)?;
        Some((self.front.len() + place, entry))
    }

    /// The object name at this position, and where its contents lie in the pool; `None` from `len`
    /// on.
    pub fn at(&self, place: usize) -> Option<(Name, Slot)>
        ensures { result ≡ option_map (λ e. (e.0, e.1.slot)) (slice_get self.now.entries place) }
    {
        let (id, entry) = self.entry_at(place)?;
        Some((id, entry.slot))
    }

    /// The object name at this position, and what the table keeps under it; `None` from `len` on.
    pub(crate) fn entry_at(&self, place: usize) -> Option<(Name, Entry)>
        ensures entry { result ≡ slice_get self.now.entries place }
        ensures distinct { IsDistinct bytes_eq (names self.now.entries) }
    {
        let shared = self.front.len();
        if place < shared {
            self.front.at(place)
        } else {
            self.own.at(place - shared)
        }
    }

    /// The summary of the tree of this name; `None` for every other name.
    pub fn summary(&self, id: &Name) -> Option<Summary>
        ensures { result ≡ summary_of id.now self.now.entries }
    {
        self.look_up(id).and_then(|found| found.1.summary)
    }

    /// The summary of the tree of this name; `None` for every other name. `place` is a guess of its
    /// position: if the object of this name is there, no lookup is needed. Another guess costs a
    /// lookup and changes nothing.
    pub fn summary_with_hint(&self, id: &Name, place: usize) -> Option<Summary>
        ensures { result ≡ summary_of id.now self.now.entries }
    {
        if let Some(found) = self.entry_at(place) {
            if found.0 == *id {
                return found.1.summary;
            }
        }
        self.summary(id)
    }

    /// How many objects the table has, at most 4,194,304. Their names are distinct.
    pub fn len(&self) -> usize
        ensures value { result ≡ length self.now.entries }
        ensures limited { length self.now.entries ≤ objects_limit }
        ensures distinct { IsDistinct bytes_eq (names self.now.entries) }
    {
        self.front.len() + self.own.len()
    }

    /// How many of them are committed.
    pub fn committed_len(&self) -> usize
        ensures value { result ≡ self.now.committed }
        ensures within { self.now.committed ≤ length self.now.entries }
    {
        self.front.len() + self.own.committed_len()
    }

    /// How many of them are in sight.
    pub(crate) fn len_in_sight(&self, sight: Sight) -> usize
        ensures { result ≡ length (in_sight sight self.now) }
    {
        match sight {
            Sight::All => self.len(),
            Sight::Committed => self.committed_len(),
        }
    }

    /// Looks up an abbreviated object name: `Found::One` if exactly one name in sight begins with
    /// these hexadecimal digits of either case.
    ///
    /// No name begins with other characters or with more than forty digits. Only the names of this
    /// table count. The lookup uses the ordered index of the names. Takes no memory.
    pub fn starting_with(&self, digits: &[u8], sight: Sight) -> Found
        ensures { result ≡ found_among digits.now (names (in_sight sight self.now)) }
    {
        let seen = self.len_in_sight(sight);
        let shared = self.front.starting_with(digits);
        both(
            shared,
            self.own.starting_with(digits, seen - self.front.len()),
        )
    }

    /// The most leading hexadecimal digits that a name in sight, other than `id`, shares with it; 0
    /// if there is no other. The lookup uses the ordered index of the names. Takes no memory.
    pub fn most_shared(&self, id: &Name, sight: Sight) -> usize
        ensures { result ≡ most_shared id.now (names (in_sight sight self.now)) }
    {
        let seen = self.len_in_sight(sight);
        let shared = self.front.most_shared(id);
        shared.max(self.own.most_shared(id, seen - self.front.len()))
    }

    /// Adds the object of this kind, which is not a tree, with these contents, and answers its
    /// name. An object that the table already has is found and not added again.
    ///
    /// `Fault::Limit` (25) if the contents are longer than 134,217,728 bytes. Else an object that
    /// the table has is found. Else `Fault::Limit` if the table has 4,194,304 objects, and else
    /// `Fault::NameCollision` (24) if the table has another content under this name. Other tables
    /// do not matter. `Fault::Memory` (90) if an allocation fails. Table and pool are unchanged
    /// after a fault.
    ///
    /// The pool must be the one that holds the contents of the table, and hold no content 2^64 - 1
    /// times.
    pub fn add<N: Naming>(
        &mut self,
        pool: &mut Pool<N>,
        kind: Kind,
        bytes: &[u8],
    ) -> Result<Name, Fault>
        requires stands { IsBackedBy N.digest_of pool.old self.old.entries }
        requires room { HasHoldsLeft pool.old }
        requires no_tree { kind ≢ Kind.Tree }
        ensures stands { IsBackedBy N.digest_of pool.new self.new.entries }
        ensures others { PreservesOthers pool.old self.old.entries pool.new self.new.entries }
        ensures answer { let c = content_from kind bytes.now in let id = name_by N.digest_of c in
            Answers result id (store_fault id c (objects pool.old self.old.entries)) }
        ensures ok { OnOk result (Adds N.digest_of
            (content_from kind bytes.now) None pool.old self.old pool.new self.new) }
        ensures err { OnErr result ((self.new ≡ self.old) × (pool.new ≡ pool.old)) }
    {
        self.store(pool, kind, CowSlice::Borrowed(bytes), None)
    }

    /// Adds the tree with these contents and this summary, as `add` adds other objects, with the
    /// same faults.
    ///
    /// The bytes must be the contents of a tree whose directories are in the table, and the summary
    /// must be that of its file map.
    pub fn add_tree<N: Naming>(
        &mut self,
        pool: &mut Pool<N>,
        bytes: &[u8],
        summary: Summary,
    ) -> Result<Name, Fault>
        requires stands { IsBackedBy N.digest_of pool.old self.old.entries }
        requires room { HasHoldsLeft pool.old }
        requires tree { FitsTree self.old.entries bytes.now summary }
        ensures stands { IsBackedBy N.digest_of pool.new self.new.entries }
        ensures others { PreservesOthers pool.old self.old.entries pool.new self.new.entries }
        ensures answer { let c = content_from Kind.Tree bytes.now in
            let id = name_by N.digest_of c in
            Answers result id (store_fault id c (objects pool.old self.old.entries)) }
        ensures ok { OnOk result (Adds N.digest_of (content_from Kind.Tree bytes.now)
            (Some summary) pool.old self.old pool.new self.new) }
        ensures err { OnErr result ((self.new ≡ self.old) × (pool.new ≡ pool.old)) }
    {
        self.store(pool, Kind::Tree, CowSlice::Borrowed(bytes), Some(summary))
    }

    /// `add_tree` of bytes that the caller no longer needs, with the same faults: `Fault::Limit`
    /// (25), `Fault::NameCollision` (24) and `Fault::Memory` (90). Table and pool are unchanged
    /// after a fault.
    ///
    /// Contents that are new to the pool are stored without a copy, and capacity beyond the length
    /// of the vector is given back. Otherwise the vector is freed.
    pub fn add_tree_owned<N: Naming>(
        &mut self,
        pool: &mut Pool<N>,
        bytes: Vec<u8>,
        summary: Summary,
    ) -> Result<Name, Fault>
        requires stands { IsBackedBy N.digest_of pool.old self.old.entries }
        requires room { HasHoldsLeft pool.old }
        requires tree { FitsTree self.old.entries bytes.items summary }
        ensures stands { IsBackedBy N.digest_of pool.new self.new.entries }
        ensures others { PreservesOthers pool.old self.old.entries pool.new self.new.entries }
        ensures answer { let c = content_from Kind.Tree bytes.items in
            let id = name_by N.digest_of c in
            Answers result id (store_fault id c (objects pool.old self.old.entries)) }
        ensures ok { OnOk result (Adds N.digest_of (content_from Kind.Tree bytes.items)
            (Some summary) pool.old self.old pool.new self.new) }
        ensures err { OnErr result ((self.new ≡ self.old) × (pool.new ≡ pool.old)) }
    {
        self.store(pool, Kind::Tree, CowSlice::Owned(bytes), Some(summary))
    }

    // Adds an object with its summary. Only a tree has one.
    fn store<N: Naming>(
        &mut self,
        pool: &mut Pool<N>,
        kind: Kind,
        bytes: CowSlice<'_, u8>,
        summary: Option<Summary>,
    ) -> Result<Name, Fault>
        requires stands { IsBackedBy N.digest_of pool.old self.old.entries }
        requires room { HasHoldsLeft pool.old }
        requires summed { SummedAfter self.old.entries (content_from kind (cow_slice_items bytes))
            summary }
        ensures stands { IsBackedBy N.digest_of pool.new self.new.entries }
        ensures others { PreservesOthers pool.old self.old.entries pool.new self.new.entries }
        ensures answer { let c = content_from kind (cow_slice_items bytes.entry) in
            let id = name_by N.digest_of c in
            Answers result id (store_fault id c (objects pool.old self.old.entries)) }
        ensures ok { OnOk result (Adds N.digest_of (content_from kind (cow_slice_items bytes.entry))
            summary pool.old self.old pool.new self.new) }
        ensures err { OnErr result ((self.new ≡ self.old) × (pool.new ≡ pool.old)) }
    {
        if bytes.len() > CONTENTS_LIMIT {
            return Err(Fault::Limit);
        }
        let id = pool.name_of(kind, bytes.as_slice())?;
        let there = self.has_content(pool, &id, kind, bytes.as_slice());
        if there.unwrap_or(false) {
            return Ok(id);
        }
        if self.is_full() {
            return Err(Fault::Limit);
        }
        if there.is_some() {
            return Err(Fault::NameCollision);
        }
        self.push_new(pool, id, kind, bytes, summary)?;
        Ok(id)
    }

    // Whether the object of this name has this content; `None` if there is no such object.
    fn has_content<N: Naming>(
        &self,
        pool: &Pool<N>,
        id: &Name,
        kind: Kind,
        bytes: &[u8],
    ) -> Option<bool>
        requires { IsBackedBy N.digest_of pool.now self.now.entries }
        ensures { result ≡ option_map (same_content (content_from kind bytes.now))
            (object_named id.now (objects pool.now self.now.entries)) }
    {
        match self.find(id) {
            Some(slot) => Some((kind, bytes) == pool.get(slot)),
            None => None,
        }
    }

    fn is_full(&self) -> bool
        ensures { result ≡ nat_le objects_limit (length self.now.entries) }
    {
        self.len() >= OBJECTS_LIMIT
    }

    // Appends an object.
    fn push_new<N: Naming>(
        &mut self,
        pool: &mut Pool<N>,
        id: Name,
        kind: Kind,
        bytes: CowSlice<'_, u8>,
        summary: Option<Summary>,
    ) -> Result<(), Memory>
        requires named { id ≡ object_name N.digest_of kind (cow_slice_items bytes) }
        requires new { entry_named id self.old.entries ≡ None }
        requires spare { length self.old.entries < objects_limit }
        requires room { HasHoldsLeft pool.old }
        ensures ok { OnOk result (Pushes id (content_from kind (cow_slice_items bytes.entry))
            summary pool.old self.old pool.new self.new) }
        ensures err { OnErr result ((self.new ≡ self.old) × (pool.new ≡ pool.old)) }
    {
        self.own.push_content(pool, id, kind, bytes, summary)?;
        Ok(())
    }

    /// Adds an object whose content is already in a live slot of the pool, under a name that the
    /// table does not have. The slot is held once more; nothing is copied and nothing is hashed.
    ///
    /// The caller makes sure of what `add` and `add_tree` check: the name is that of the content,
    /// the limits hold, and the summary is that of the content. A tree that is not plain has none,
    /// and the trees of its directories are in the table. `Memory` (90) if there is no room for one more
    /// object; table and pool are then unchanged.
    pub fn add_held<N: Naming>(
        &mut self,
        pool: &mut Pool<N>,
        id: Name,
        slot: Slot,
        summary: Option<Summary>,
    ) -> Result<(), Memory>
        requires stands { IsBackedBy N.digest_of pool.old self.old.entries }
        requires room { HasHoldsLeft pool.old }
        requires live { IsLive pool.old slot }
        requires named { id ≡ name_by N.digest_of (content pool.old slot) }
        requires new { entry_named id self.old.entries ≡ None }
        requires spare { length self.old.entries < objects_limit }
        requires summed { SummedAfter self.old.entries (content pool.old slot) summary }
        requires short { length (content pool.old slot).bytes ≤ contents_limit }
        ensures stands { IsBackedBy N.digest_of pool.new self.new.entries }
        ensures others { PreservesOthers pool.old self.old.entries pool.new self.new.entries }
        ensures ok { OnOk result (Adds N.digest_of (content pool.old slot) summary
            pool.old self.old pool.new self.new) }
        ensures err { OnErr result ((self.new ≡ self.old) × (pool.new ≡ pool.old)) }
    {
        self.push_held(pool, id, slot, summary)?;
        Ok(())
    }

    fn push_held<N: Naming>(
        &mut self,
        pool: &mut Pool<N>,
        id: Name,
        slot: Slot,
        summary: Option<Summary>,
    ) -> Result<(), Memory>
        requires room { HasHoldsLeft pool.old }
        requires live { IsLive pool.old slot }
        requires new { entry_named id self.old.entries ≡ None }
        requires spare { length self.old.entries < objects_limit }
        ensures ok { OnOk result (PushesAt id (content pool.old slot) summary
            pool.old self.old pool.new self.new slot) }
        ensures err { OnErr result ((self.new ≡ self.old) × (pool.new ≡ pool.old)) }
    {
        self.own.push(id, Entry { slot, summary })?;
        pool.hold(slot);
        Ok(())
    }

    /// Makes all objects committed. Takes no memory.
    pub fn commit(&mut self)
        ensures { self.new ≡ record self.old { committed = length self.old.entries } }
    {
        self.own.commit();
    }
}
