//! The pool of contents that all tenants share, with a count of holds for each content.
//!
//! A content has one slot, from its first `put` until its last hold is released. The first bytes
//! of the object name lead to a bucket of slots, and in the bucket kind and bytes decide, so nothing
//! is assumed about collisions. The pool does not know who holds a slot, or whether the caller still has it.
//!
//! `put` of a blob `a` answers a slot. `put` of `a` again answers the same slot, which is then held
//! twice. After two releases the slot is free, and the next new content is stored there.

ghost use Rattle.std.specs.Prelude.{◌≡◌, ◌-◌, ◌<◌, ◌^◌, List, length, min, sum_by, MatchOption};
ghost use Rattle.std.specs.Prelude.{IfOk, OnErr, IsTrue, ◌↔◌};
ghost use Rattle.slab.specs.Slab.{values};
ghost use Rattle.git_model.specs.{ObjectName.{object_name}, Content.{content_from}};
ghost use Rattle.content_pool.specs.Pool.{holds, content, IsLive, CanHold, HasHoldsLeft, IsVacant};
ghost use Rattle.content_pool.specs.Pool.{IsAbsent, HoldsEachOnce, Puts, Releases};
ghost use Rattle.content_pool.specs.Index.{AllStored, Stores, StoresNone};
ghost use Rattle.content_pool.specs.LiveContents.{live_contents, stored_sizes, ListsLive};

use crate::bucket::Bucket;
use crate::bytes::Bytes;
use crate::index::{forget, note};
use crate::prefix::Prefix;
use crate::slot::Slot;
use crate::stored::Stored;
use git_model::Kind;
use git_names::{Memory, Name, Naming, name_of};
use slab::Slab;
use std::alloc::Global;
use std::collections::HashMap;
use std::marker::Model;

// The count of a slot before its last release.
const LAST: u64 = 1;

/// The contents that are held, each stored once. Contracts see for each slot its content and how
/// often it is held.
#[derive(Drop)]
pub struct Pool<N: Naming> {
    alloc: Global,
    naming: N,
    cells: Slab<Stored>,
    buckets: HashMap<Prefix, Bucket>,
}

impl<N: Naming> Model for Pool<N> {
    ghost use Rattle.content_pool.specs.{Pool.{Cells}, Index.{IsPool, IsIndexed}};

    ghost Value = { Cells };

    ghost view = { λ pool. pool.cells.slots };

    ghost invariant = { λ pool. IsPool N.digest_of pool.cells.slots
        × IsIndexed pool.cells.slots pool.buckets.entries };
}

// The first of these keys under which this content is stored. Each key has something stored.
fn key_of(cells: &Slab<Stored>, keys: &[usize], kind: Kind, bytes: &[u8]) -> Option<usize>
    requires { AllStored cells.now.slots keys.now }
    ensures { let c = content_from kind bytes.now in
        MatchOption result (StoresNone cells.now.slots keys.now c)
        (λ key. Stores cells.now.slots key c) }
{
    for key in keys {
        if cells[*key].is(kind, bytes) {
            return Some(*key);
        }
    }
    None
}

// The sum of the sizes of all stored contents, 2^64 - 1 if it is more.
fn total_size(cells: &Slab<Stored>) -> u64
    ensures { result ≡ min (sum_by (λ e. length e.bytes) (values cells.now)) (2 ^ 64 - 1) }
{
    let mut total: u64 = 0;
    for (_, stored) in cells.iter() {
        total = total.saturating_add(stored.bytes.as_slice().len() as u64);
    }
    total
}

impl<N: Naming> Pool<N> {
    /// A pool that holds nothing. Takes no memory.
    #[tactic(auto, unfolding(crate::specs::Pool::holds, crate::specs::Pool::content))]
    pub fn new(alloc: Global, naming: N) -> Pool<N>
        ensures { IsVacant result }
    {
        Pool {
            alloc,
            naming,
            cells: Slab::new(alloc),
            buckets: HashMap::new(alloc),
        }
    }

    /// A pool that holds nothing, with room for this many contents. `Memory` (90) if there is no
    /// memory for that.
    #[tactic(auto, unfolding(crate::specs::Pool::holds, crate::specs::Pool::content))]
    pub fn with_capacity(alloc: Global, naming: N, contents: usize) -> Result<Pool<N>, Memory>
        ensures { IfOk result IsVacant }
    {
        let cells = Slab::with_capacity(alloc, contents)?;
        let buckets = HashMap::with_capacity(alloc, contents)?;
        Ok(Self {
            alloc,
            naming,
            cells,
            buckets,
        })
    }

    /// The naming that the pool was made with. Takes no memory.
    pub fn naming(&self) -> &N {
        &self.naming
    }

    /// The object name that the naming of the pool gives to the content of this kind with these
    /// bytes. The content need not be in the pool.
    ///
    /// `Memory` (90) if the naming finds no room for its work.
    pub fn name_of(&self, kind: Kind, bytes: &[u8]) -> Result<Name, Memory>
        ensures { IfOk result (λ id. id ≡ object_name N.digest_of kind bytes.now) }
    {
        name_of(self.alloc, self.naming(), kind, bytes)
    }

    /// Holds the content of this kind with these bytes once more, and answers its slot and its
    /// object name.
    ///
    /// A content that is not stored yet is copied once, into an allocation of exactly its size. The
    /// caller makes sure that no content is held 2^64 - 1 times already. `Memory` (90) if there is
    /// no room; nothing has changed then.
    pub fn put(&mut self, kind: Kind, bytes: &[u8]) -> Result<(Slot, Name), Memory>
        requires { HasHoldsLeft self.old }
        ensures name { IfOk result (λ r. r.1 ≡ object_name N.digest_of kind bytes.now) }
        ensures puts { IfOk result (λ r. Puts self.old self.new r.0 (content_from kind bytes.now)) }
        ensures once { HoldsEachOnce self.new }
        ensures err { OnErr result (self.new ≡ self.old) }
    {
        let id = name_of(self.alloc, &self.naming, kind, bytes)?;
        let slot = self.put_named(id, kind, bytes)?;
        Ok((slot, id))
    }

    /// `put` for a caller that already has the object name of the content, so that the bytes are
    /// hashed only once. `Memory` (90) if there is no room; nothing has changed then.
    pub fn put_named(&mut self, id: Name, kind: Kind, bytes: &[u8]) -> Result<Slot, Memory>
        requires named { id ≡ object_name N.digest_of kind bytes.now }
        requires room { HasHoldsLeft self.old }
        ensures puts { IfOk result
            (λ slot. Puts self.old self.new slot (content_from kind bytes.now)) }
        ensures once { HoldsEachOnce self.new }
        ensures err { OnErr result (self.new ≡ self.old) }
    {
        if let Some(slot) = self.find(id, kind, bytes) {
            self.hold(slot);
            return Ok(slot);
        }
        let bytes = Bytes::from_slice(self.alloc, bytes)?;
        self.store(id, kind, bytes)
    }

    /// `put_named` of bytes that the caller no longer needs: they are stored without a copy.
    ///
    /// Capacity beyond the length of the vector is given back. `Memory` (90) if there is no room;
    /// nothing has changed then, and the vector is freed.
    pub fn put_owned(&mut self, id: Name, kind: Kind, bytes: Vec<u8>) -> Result<Slot, Memory>
        requires named { id ≡ object_name N.digest_of kind bytes.items }
        requires room { HasHoldsLeft self.old }
        ensures puts { IfOk result
            (λ slot. Puts self.old self.new slot (content_from kind bytes.items)) }
        ensures once { HoldsEachOnce self.new }
        ensures err { OnErr result (self.new ≡ self.old) }
    {
        self.put_bytes(id, kind, Bytes::taken(bytes))
    }

    /// `put_named` of bytes that are owned or lent: they are stored without a copy.
    ///
    /// `Memory` (90) if there is no room; nothing has changed then. Owned bytes are freed then, and
    /// also if the content was stored already.
    pub fn put_bytes(&mut self, id: Name, kind: Kind, bytes: Bytes) -> Result<Slot, Memory>
        requires named { id ≡ object_name N.digest_of kind bytes }
        requires room { HasHoldsLeft self.old }
        ensures puts { IfOk result (λ slot. Puts self.old self.new slot (content_from kind bytes)) }
        ensures once { HoldsEachOnce self.new }
        ensures err { OnErr result (self.new ≡ self.old) }
    {
        if let Some(slot) = self.find(id, kind, bytes.as_slice()) {
            self.hold(slot);
            return Ok(slot);
        }
        self.store(id, kind, bytes)
    }

    /// Lends a live slot the bytes that it has, for as long as the process lives, and frees the
    /// slot's own copy.
    ///
    /// Answers whether these are the bytes of the slot. If not, the slot stays as it is. In both
    /// cases the pool holds what it held. Takes no memory.
    #[tactic(auto, unfolding(crate::specs::Pool::holds, crate::specs::Pool::content))]
    pub fn lend_again(&mut self, slot: Slot, bytes: &'static [u8]) -> bool
        requires { IsLive self.old slot }
        ensures same { self.new ≡ self.old }
        ensures told { IsTrue result ↔ ((content self.old slot).bytes ≡ bytes.now) }
    {
        if !self.cells[slot.key].has_bytes(bytes) {
            return false;
        }
        self.cells[slot.key].bytes = Bytes::lent(bytes);
        true
    }

    /// Holds a live slot once more. The caller makes sure that it is held fewer than 2^64 - 1
    /// times. Takes no memory.
    #[tactic(auto, unfolding(crate::specs::Pool::holds, crate::specs::Pool::content))]
    pub fn hold(&mut self, slot: Slot)
        requires live { IsLive self.old slot }
        requires room { CanHold self.old slot }
        ensures { Puts self.old self.new slot (content self.old slot) }
    {
        self.cells[slot.key].holds += 1;
    }

    /// Releases one hold of a live slot. The last release drops the content, and the slot may be
    /// used again. Takes no memory.
    #[tactic(auto, unfolding(crate::specs::Pool::holds, crate::specs::Pool::content))]
    pub fn release(&mut self, slot: Slot)
        requires { IsLive self.old slot }
        ensures { Releases self.old self.new slot }
    {
        if self.cells[slot.key].holds > LAST {
            self.cells[slot.key].holds -= 1;
            return;
        }
        let given_up = self.cells.remove(slot.key);
        forget(&mut self.buckets, given_up.prefix, slot.key);
    }

    /// The kind and the bytes of the content in a live slot. Takes no memory.
    #[tactic(auto, unfolding(crate::specs::Pool::holds, crate::specs::Pool::content))]
    pub fn get(&self, slot: Slot) -> (Kind, &[u8])
        requires { IsLive self.now slot }
        ensures { content_from result.0 result.1.now ≡ content self.now slot }
    {
        let stored = &self.cells[slot.key];
        (stored.kind, stored.bytes.as_slice())
    }

    /// How often a live slot is held. Takes no memory.
    #[tactic(auto, unfolding(crate::specs::Pool::holds, crate::specs::Pool::content))]
    pub fn hold_count(&self, slot: Slot) -> u64
        requires { IsLive self.now slot }
        ensures { result ≡ holds self.now slot }
    {
        self.cells[slot.key].holds
    }

    /// How many distinct contents are held, and the sum of their sizes in bytes, 2^64 - 1 if the
    /// sum is more. Walks over all slots. Takes no memory.
    pub fn stored(&self) -> (u64, u64)
        ensures live { result ≡ stored_sizes (live_contents self.now) }
        ensures any_list { (cs : List _) → ListsLive self.now cs → result ≡ stored_sizes cs }
    {
        (self.cells.len() as u64, total_size(&self.cells))
    }

    /// No two live slots have the same content. This is a fact for proofs: a call does nothing.
    pub fn holds_each_once(&self)
        ensures { HoldsEachOnce self.now }
    {
        let _cells = &self.cells;
    }

    // The slot of this content, if it is held.
    #[tactic(auto, unfolding(crate::specs::Pool::holds, crate::specs::Pool::content))]
    fn find(&self, id: Name, kind: Kind, bytes: &[u8]) -> Option<Slot>
        requires { id ≡ object_name N.digest_of kind bytes.now }
        ensures once { HoldsEachOnce self.now }
        ensures found { let c = content_from kind bytes.now in
            MatchOption result (IsAbsent self.now c)
            (λ slot. IsLive self.now slot × (content self.now slot ≡ c)) }
    {
        let prefix = Prefix::of(&id);
        let Some(bucket) = self.buckets.get(&prefix) else {
            return None;
        };
        let key = key_of(&self.cells, bucket.slots(), kind, bytes)?;
        Some(Slot { key })
    }

    // Stores a content that is not held yet, and holds it once.
    #[tactic(auto, unfolding(crate::specs::Pool::holds, crate::specs::Pool::content))]
    fn store(&mut self, id: Name, kind: Kind, bytes: Bytes) -> Result<Slot, Memory>
        requires named { id ≡ object_name N.digest_of kind bytes }
        requires absent { IsAbsent self.old (content_from kind bytes) }
        ensures puts { IfOk result (λ slot. Puts self.old self.new slot (content_from kind bytes)) }
        ensures once { HoldsEachOnce self.new }
        ensures err { OnErr result (self.new ≡ self.old) }
    {
        self.cells.reserve(1)?;
        let key = self.cells.vacant_key();
        let prefix = Prefix::of(&id);
        note(self.alloc, &mut self.buckets, prefix, key)?;
        self.cells.insert_reserved(Stored {
            prefix,
            kind,
            bytes,
            holds: 1,
        });
        Ok(Slot { key })
    }
}
