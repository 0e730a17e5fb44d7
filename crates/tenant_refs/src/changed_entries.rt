//! Changes to the entries of refs. Where there are many, each entry is moved once, and not once for
//! each ref that goes in before it.

ghost use Rattle.std.specs.Prelude.{◌≡◌, ◌+◌, ◌++◌, ◌≤◌, ◌<◌, List, ℕ, IfOk, OnOk, OnErr};
ghost use Rattle.std.specs.{Vec.{vec_capacity, vec_len}, VecDeque.{deque_len}};
ghost use Rattle.git_model.specs.RefStore.{RefStore};
ghost use Rattle.tenant_refs.specs.Changes.{store_of, with_target, with_changes};
ghost use Rattle.tenant_refs.specs.Place.{AreAbove, Entries, IsInOrder, starts_up_to};

use crate::changes::RefChange;
use crate::place::place_of;
use git_names::{Memory, Name, RefName};
use std::alloc::Global;
use std::collections::VecDeque;

// So few changes are made one at a time.
const FEW_CHANGES: usize = 16;

/// Makes all changes in turn, or none if there is no room for them.
pub fn change_entries(
    alloc: Global,
    entries: &mut Vec<(RefName, Name)>,
    changes: Vec<RefChange>,
) -> Result<(), Memory>
    requires in_order { IsInOrder entries.old.items }
    ensures in_order { IsInOrder entries.new.items }
    ensures changed { (head : List ℕ) → OnOk result (store_of entries.new.items head
        ≡ with_changes (store_of entries.old.items head) changes.items) }
    ensures longer { vec_len entries.new ≤ vec_len entries.old + vec_len changes }
    ensures refused { OnErr result (entries.new.items ≡ entries.old.items) }
{
    let mut changes = changes;
    let rest = make_room(alloc, entries, &mut changes)?;
    merge_changes(entries, rest, changes);
    Ok(())
}

// Makes room for the changes. If they are many, it sorts them by their refs, takes all entries out,
// and gives them back.
fn make_room(
    alloc: Global,
    entries: &mut Vec<(RefName, Name)>,
    changes: &mut Vec<RefChange>,
) -> Result<VecDeque<(RefName, Name)>, Memory>
    ensures all { IfOk result (λ rest. entries.new.items ++ rest.items ≡ entries.old.items) }
    ensures room { IfOk result (λ rest.
        vec_len entries.new + deque_len rest + vec_len changes.new ≤ vec_capacity entries.new) }
    ensures same { (store : RefStore)
        → with_changes store changes.new.items ≡ with_changes store changes.old.items }
    ensures len { vec_len changes.new ≡ vec_len changes.old }
    ensures refused { OnErr result (entries.new.items ≡ entries.old.items) }
{
    if changes.len() <= FEW_CHANGES {
        entries.reserve(changes.len())?;
        return Ok(VecDeque::new(alloc));
    }
    sort_changes(changes)?;
    let merged = Vec::with_capacity(alloc, entries.len() + changes.len())?;
    Ok(VecDeque::from_vec(std::mem::replace(entries, merged)))
}

// Sorts changes by their refs. Those of one ref stay in turn.
fn sort_changes(changes: &mut Vec<RefChange>) -> Result<(), Memory>
    ensures same { (store : RefStore)
        → with_changes store changes.new.items ≡ with_changes store changes.old.items }
    ensures len { vec_len changes.new ≡ vec_len changes.old }
{
    changes.sort_by(|one, other| one.ref_name.as_bytes().cmp(other.ref_name.as_bytes()))?;
    Ok(())
}

// Makes all changes in turn to `entries` and the `rest` after them. There is room for all.
fn merge_changes(
    entries: &mut Vec<(RefName, Name)>,
    rest: VecDeque<(RefName, Name)>,
    changes: Vec<RefChange>,
)
    requires in_order { IsInOrder (entries.old.items ++ rest.items) }
    requires room { vec_len entries.old + deque_len rest + vec_len changes
        ≤ vec_capacity entries.old }
    ensures in_order { IsInOrder entries.new.items }
    ensures changed { (head : List ℕ) → store_of entries.new.items head
        ≡ with_changes (store_of (entries.old.items ++ rest.items) head) changes.items }
    ensures longer { vec_len entries.new ≤ vec_len entries.old + deque_len rest + vec_len changes }
{
    let mut rest = rest;
    let mut left = changes.into_iter();
    while let Some(change) = left.next() {
        move_up_to(entries, &mut rest, change.ref_name.as_bytes());
        change_entry(entries, change);
    }
    move_all(entries, rest);
}

// Moves the entries up to a ref.
fn move_up_to(
    entries: &mut Vec<(RefName, Name)>,
    rest: &mut VecDeque<(RefName, Name)>,
    ref_name: &[u8],
)
    requires in_order { IsInOrder (entries.old.items ++ rest.old.items) }
    requires room { vec_len entries.old + deque_len rest.old ≤ vec_capacity entries.old }
    ensures all { entries.new.items ++ rest.new.items ≡ entries.old.items ++ rest.old.items }
    ensures above { AreAbove ref_name.now rest.new.items }
    ensures len { vec_len entries.new + deque_len rest.new
        ≡ vec_len entries.old + deque_len rest.old }
    ensures capacity { vec_capacity entries.old ≤ vec_capacity entries.new }
{
    while starts_up_to(rest, ref_name) {
        entries.push(rest.pop_front().unwrap()).unwrap();
    }
}

// Whether there is a first entry, and it is not above a ref.
fn starts_up_to(rest: &VecDeque<(RefName, Name)>, ref_name: &[u8]) -> bool
    ensures { result ≡ starts_up_to ref_name.now rest.now.items }
{
    match rest.front() {
        Some(entry) => !ref_name.cmp(entry.0.as_bytes()).is_lt(),
        None => false,
    }
}

// Moves all entries that are left.
fn move_all(entries: &mut Vec<(RefName, Name)>, rest: VecDeque<(RefName, Name)>)
    requires room { vec_len entries.old + deque_len rest ≤ vec_capacity entries.old }
    ensures all { entries.new.items ≡ entries.old.items ++ rest.items }
    ensures len { vec_len entries.new ≡ vec_len entries.old + deque_len rest }
{
    let mut rest = rest;
    while let Some(entry) = rest.pop_front() {
        entries.push(entry).unwrap();
    }
}

// Makes one change, whatever entries above its ref come after. There is room for one more entry.
fn change_entry(entries: &mut Vec<(RefName, Name)>, change: RefChange)
    requires in_order { IsInOrder entries.old.items }
    requires room { vec_len entries.old < vec_capacity entries.old }
    ensures in_order { (rest : Entries) → IsInOrder (entries.old.items ++ rest)
        → AreAbove change.ref_name rest → IsInOrder (entries.new.items ++ rest) }
    ensures changed { (rest : Entries) (head : List ℕ) → IsInOrder (entries.old.items ++ rest)
        → AreAbove change.ref_name rest → store_of (entries.new.items ++ rest) head
        ≡ with_target (store_of (entries.old.items ++ rest) head) change.ref_name change.target }
    ensures longer { vec_len entries.new ≤ vec_len entries.old + 1 }
    ensures capacity { vec_capacity entries.old ≤ vec_capacity entries.new }
{
    match (place_of(entries, change.ref_name.as_bytes()), change.target) {
        (Ok(position), Some(target)) => {
            let entry = &mut entries[position];
            entry.1 = target;
        }
        (Ok(position), None) => {
            entries.remove(position);
        }
        (Err(position), Some(target)) => {
            entries.insert(position, (change.ref_name, target)).unwrap();
        }
        (Err(_), None) => {}
    }
}
