//! Buckets: the slots of the contents whose object names begin alike.
//!
//! Almost every bucket has one slot, which is stored inline. There are more only if the first bytes
//! of names are the same.

ghost use Rattle.std.specs.Prelude.{◌≡◌, ◌+◌, ◌<◌, ◌==◌, ◌∷◌, ◌++◌, ◌↔◌, if◌then◌else◌, ℕ, []};
ghost use Rattle.std.specs.Prelude.{IsTrue, OnOk, OnErr, IfOk, position};
ghost use Rattle.content_pool.specs.Index.{times};

use git_names::Memory;
use std::alloc::Global;
use std::marker::Model;
use std::slice::from_ref;

/// The slots of one bucket. Contracts see the list.
#[derive(Drop)]
pub struct Bucket {
    slots: Slots,
}

#[derive(Drop)]
enum Slots {
    None,
    One(usize),
    Many(Box<Vec<usize>>),
}

impl Model for Bucket {
    ghost use Rattle.std.specs.Prelude.{ℕ, List};
    ghost use Rattle.content_pool.specs.Index.{slots_of};

    ghost Value = { List ℕ };

    ghost view = { λ bucket. slots_of bucket.slots };
}

fn index_of(slots: &[usize], slot: usize) -> Option<usize>
    ensures { result ≡ position (λ t. t == slot) slots.now }
{
    slots.iter().position(|other| *other == slot)
}

// Removes a slot of a list.
fn remove_from(slots: &mut Vec<usize>, slot: usize)
    requires { 0 < times slots.old.items slot }
    ensures { (s : ℕ) → times slots.new.items s + (if slot == s then 1 else 0)
        ≡ times slots.old.items s }
{
    if let Some(index) = index_of(slots.as_slice(), slot) {
        slots.swap_remove(index);
    }
}

// Two slots, in an allocation of their own.
fn pair(alloc: Global, first: usize, second: usize) -> Result<Box<Vec<usize>>, Memory>
    ensures { IfOk result (λ list. list.value.items ≡ first ∷ second ∷ []) }
{
    let list = Vec::from_slice(alloc, &[first, second])?;
    Ok(Box::new(alloc, list)?)
}

impl Bucket {
    /// The bucket with this one slot. Takes no memory.
    pub fn with_slot(slot: usize) -> Bucket
        ensures { result ≡ slot ∷ [] }
    {
        Bucket {
            slots: Slots::One(slot),
        }
    }

    /// The slots.
    pub fn slots(&self) -> &[usize]
        ensures { result.now ≡ self.now }
    {
        match &self.slots {
            Slots::None => &[],
            Slots::One(slot) => from_ref(slot),
            Slots::Many(list) => list.as_slice(),
        }
    }

    /// Adds a slot. `Memory` (90) if there is no room for it; the bucket is then unchanged.
    pub fn add(&mut self, alloc: Global, slot: usize) -> Result<(), Memory>
        ensures ok { OnOk result (self.new ≡ self.old ++ slot ∷ []) }
        ensures err { OnErr result (self.new ≡ self.old) }
    {
        match &mut self.slots {
            Slots::None => self.slots = Slots::One(slot),
            Slots::One(first) => self.slots = Slots::Many(pair(alloc, *first, slot)?),
            Slots::Many(list) => list.push(slot)?,
        }
        Ok(())
    }

    /// Removes a slot that is in the bucket.
    pub fn remove(&mut self, slot: usize)
        requires { 0 < times self.old slot }
        ensures { (s : ℕ) → times self.new s + (if slot == s then 1 else 0) ≡ times self.old s }
    {
        match &mut self.slots {
            Slots::Many(list) => remove_from(list, slot),
            _ => self.slots = Slots::None,
        }
    }

    /// Whether no slot is left.
    pub fn is_empty(&self) -> bool
        ensures { IsTrue result ↔ (self.now ≡ []) }
    {
        self.slots().is_empty()
    }
}
