//! The table of a tenant, from the numbers of its objects in the file.

ghost use Rattle.std.specs.Prelude.{◌≡◌, ◌<◌, ◌≤◌, ℕ, List, [], length, All, IfOk, OnOk, Some};
ghost use Rattle.std.specs.{Prelude.{slice_get}, Bool.{OnTrue}, Option.{option_map}};
ghost use Rattle.content_pool.specs.Pool.{content};
ghost use Rattle.git_model.specs.Content.{name_by};
ghost use Rattle.tenant_tables.specs.{Room.{HasHoldsLeftBeside}, IsBackedBy.{IsBackedBy}};
ghost use Rattle.pool_file_checks.specs.{Own.{own_objects, names_of}, Quick.{AreSums, KnowsSums}};
ghost use Rattle.pool_file_checks.specs.Sums.{Sums};
ghost use Rattle.pool_file.specs.{Building.{objects_at, LoadsAll, MayLoad}, Tables.{sums_on}};
ghost use Rattle.pool_file.specs.Tables.{BeginAlike, CanAdd, CanLoad, Loads, Starts, known_sum};

use crate::summing::summary_after;
use content_pool::{Pool, Slot};
use git_names::{Memory, Name, Naming};
use git_objects::Kind;
use pool_file_checks::KnownSums;
use std::alloc::Global;
use tenant_tables::{Summary, Table};

// Adds the object with this name, whose content lies in this slot. If it is a tree, the table has
// those of its directories.
fn load_object<N: Naming>(
    alloc: Global,
    pool: &mut Pool<N>,
    table: &mut Table,
    id: Name,
    slot: Slot,
) -> Result<(), Memory>
    requires named { id ≡ name_by N.digest_of (content pool.old slot) }
    requires can { (sums : Sums) × CanLoad N.digest_of pool.old table.old.entries sums slot }
    ensures { (can : (sums : Sums) × CanLoad N.digest_of pool.old table.old.entries sums slot)
        → OnOk result (Loads N.digest_of slot pool.old table.old.entries can.0 pool.new
        table.new.entries (sums_on N.digest_of (content pool.old slot) can.0)) }
{
    let (kind, bytes) = pool.get(slot);
    let sum = summary_after(alloc, table, kind, bytes)?;
    table.add_held(pool, id, slot, sum)
}

// Whether the object at this place of a table lies in this slot.
fn is_at(table: &Table, place: usize, slot: Slot) -> bool
    ensures { OnTrue result
        (option_map (λ e. e.1.slot) (slice_get table.now.entries place) ≡ Some slot) }
{
    match table.at(place) {
        Some((_, other)) => other == slot,
        None => false,
    }
}

/// How many of the first objects of a table lie in the slots of the first numbers.
pub fn common_front(table: &Table, slots: &[Slot], numbers: &[u64]) -> usize
    requires { All (λ n. n < length slots.now) numbers.now }
    ensures { BeginAlike table.now.entries slots.now numbers.now result }
{
    for place in 0..numbers.len() {
        let number = numbers[place] as usize;
        if !is_at(table, place, slots[number]) {
            return place;
        }
    }
    numbers.len()
}

// The table to which objects are added: so many of the first of another one, or none, with room for
// `room` objects.
fn start_table<N: Naming>(
    alloc: Global,
    pool: &mut Pool<N>,
    other: &mut Table,
    count: usize,
    room: usize,
) -> Result<Table, Memory>
    requires stands { IsBackedBy N.digest_of pool.old other.old.entries }
    requires room { HasHoldsLeftBeside pool.old [] }
    requires within { count ≤ length other.old.entries }
    ensures same { other.new ≡ other.old }
    ensures ok { (slots numbers : List ℕ) → BeginAlike other.old.entries slots numbers count
        → IfOk result (λ table. Starts N.digest_of slots numbers pool.old pool.new table) }
{
    if count == 0 {
        return Table::with_capacity(alloc, room);
    }
    other.share(alloc, pool, count)
}

// What a table has of an object of this kind: the summary, if it is a tree.
fn known_sum(kind: Kind, sum: Summary) -> Option<Summary>
    ensures { result ≡ known_sum kind sum }
{
    match kind {
        Kind::Tree => Some(sum),
        Kind::Blob => None,
        Kind::Commit => None,
        Kind::Tag => None,
    }
}

// Adds the object with this name, whose content lies in this slot. If it is a tree, this is its
// summary.
fn add_known<N: Naming>(
    pool: &mut Pool<N>,
    table: &mut Table,
    id: Name,
    slot: Slot,
    sum: Summary,
) -> Result<(), Memory>
    requires named { id ≡ name_by N.digest_of (content pool.old slot) }
    requires can { CanAdd N.digest_of pool.old table.old.entries slot sum }
    ensures { (can : CanAdd N.digest_of pool.old table.old.entries slot sum) → OnOk result
        (Loads N.digest_of slot pool.old table.old.entries can.noted pool.new table.new.entries
        (sums_on N.digest_of (content pool.old slot) can.noted)) }
{
    let (kind, _) = pool.get(slot);
    table.add_held(pool, id, slot, known_sum(kind, sum))
}

// A table of the objects with these numbers, whose summaries are known, as `load_table` makes it.
fn known_table<N: Naming>(
    alloc: Global,
    pool: &mut Pool<N>,
    slots: &[Slot],
    names: &[Name],
    numbers: &[u64],
    sums: &[Summary],
) -> Result<Table, Memory>
    requires may { MayLoad N.digest_of pool.old slots.now numbers.now }
    requires named { names.now ≡ names_of N.digest_of (objects_at pool.old slots.now) }
    requires size { length sums.now ≡ length numbers.now }
    requires known { AreSums [] sums.now
        (own_objects N.digest_of (objects_at pool.old slots.now) numbers.now) }
    ensures { IfOk result
        (λ table. LoadsAll N.digest_of slots.now numbers.now pool.old pool.new table) }
{
    let mut made = Table::with_capacity(alloc, numbers.len())?;
    for position in 0..numbers.len() {
        let place = numbers[position] as usize;
        let (slot, sum) = (slots[place], sums[position]);
        add_known(pool, &mut made, names[place], slot, sum)?;
    }
    made.commit();
    Ok(made)
}

// Whether the summaries of all objects with these numbers are known.
fn are_known(known: &KnownSums, numbers: &[u64]) -> bool
    ensures size { OnTrue result (length known.now.sums.items ≡ length numbers.now) }
    ensures numbers { OnTrue result (known.now.numbers.items ≡ numbers.now) }
{
    known.sums.as_slice().len() == numbers.len() && known.numbers.as_slice() == numbers
}

/// A table of the objects with these numbers, in their order and all committed. `slots` are those
/// of the file's contents, and `names` are the names of its objects. The pool then holds the slot
/// of each number once more, and no other slot.
///
/// The numbers are those of a tenant of a file that passed its checks. `Memory` (90) if there is no
/// memory for the table; the pool may then hold some contents once more.
///
/// The first `count` of these objects are also those of `other`, the table of another tenant, and
/// the tables share them in memory. If there are none and `known` has the summaries of all objects,
/// no tree is read.
pub fn load_table<N: Naming>(
    alloc: Global,
    pool: &mut Pool<N>,
    slots: &[Slot],
    names: &[Name],
    known: &KnownSums,
    numbers: &[u64],
    other: &mut Table,
    count: usize,
) -> Result<Table, Memory>
    requires may { MayLoad N.digest_of pool.old slots.now numbers.now }
    requires named { names.now ≡ names_of N.digest_of (objects_at pool.old slots.now) }
    requires known { KnowsSums N.digest_of (objects_at pool.old slots.now) known.now }
    requires other { IsBackedBy N.digest_of pool.old other.old.entries }
    requires alike { BeginAlike other.old.entries slots.now numbers.now count }
    ensures loads { IfOk result
        (λ table. LoadsAll N.digest_of slots.now numbers.now pool.old pool.new table) }
    ensures same { other.new ≡ other.old }
{
    if count == 0 && are_known(known, numbers) {
        return known_table(alloc, pool, slots, names, numbers, &known.sums);
    }
    let mut table = start_table(alloc, pool, other, count, numbers.len())?;
    for position in table.len()..numbers.len() {
        let place = numbers[position] as usize;
        let (id, slot) = (names[place], slots[place]);
        load_object(alloc, pool, &mut table, id, slot)?;
    }
    table.commit();
    Ok(table)
}
