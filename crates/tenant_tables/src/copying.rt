//! A table of the objects at some places of another one.

ghost use Rattle.std.specs.Prelude.{◌≡◌, ℕ, ◌<◌, [], length, slice_index, All, IfOk, OnOk, OnErr};
ghost use Rattle.std.specs.Bool.{OnTrue};
ghost use Rattle.git_model.specs.GoodRepository.{AreObjects};
ghost use Rattle.tenant_tables.specs.{IsBackedBy.{IsBackedBy, PreservesOthers}, Objects.{objects}};
ghost use Rattle.tenant_tables.specs.{Room.{HasHoldsLeftBeside}, Copied.{IsCopied, objects_at}};

use crate::table::Table;
use content_pool::Pool;
use git_names::{Memory, Naming};
use std::alloc::Global;

// Whether these are the places 0, 1, 2 and so on.
fn are_first(places: &[usize]) -> bool
    ensures { OnTrue result ((k : ℕ) → k < length places.now → slice_index places.now k ≡ k) }
{
    for (position, place) in places.iter().enumerate() {
        if *place != position {
            return false;
        }
    }
    true
}

// Adds the objects at these places of another table to one that has none.
fn add_places<N: Naming>(
    pool: &mut Pool<N>,
    table: &Table,
    made: &mut Table,
    places: &[usize],
) -> Result<(), Memory>
    requires stands { IsBackedBy N.digest_of pool.old table.now.entries }
    requires room { HasHoldsLeftBeside pool.old [] }
    requires within { All (λ p. p < length table.now.entries) places.now }
    requires good { AreObjects N.digest_of
        (objects_at (objects pool.old table.now.entries) places.now) }
    requires empty { made.old.entries ≡ [] }
    ensures stands { IsBackedBy N.digest_of pool.new made.new.entries }
    ensures others { PreservesOthers pool.old [] pool.new made.new.entries }
    ensures committed { made.new.committed ≡ made.old.committed }
    ensures objects { OnOk result (objects pool.new made.new.entries
        ≡ objects_at (objects pool.old table.now.entries) places.now) }
{
    let _many = table.len();
    for place in places {
        let found = table.at(*place).unwrap();
        made.add_held(pool, found.0, found.1, table.summary(&found.0))?;
    }
    Ok(())
}

// A table of these objects that shares no memory with the other one.
fn separate_table<N: Naming>(
    alloc: Global,
    pool: &mut Pool<N>,
    table: &Table,
    places: &[usize],
) -> Result<Table, Memory>
    requires stands { IsBackedBy N.digest_of pool.old table.now.entries }
    requires room { HasHoldsLeftBeside pool.old [] }
    requires within { All (λ p. p < length table.now.entries) places.now }
    requires good { AreObjects N.digest_of
        (objects_at (objects pool.old table.now.entries) places.now) }
    ensures ok { IfOk result (λ copy.
        IsCopied N.digest_of places.now table.now.entries pool.old pool.new copy) }
    ensures err { OnErr result (PreservesOthers pool.old [] pool.new []) }
{
    let mut copy = Table::new(alloc);
    match add_places(pool, table, &mut copy, places) {
        Ok(()) => {
            copy.commit();
            Ok(copy)
        }
        Err(memory) => {
            copy.roll_back(pool);
            drop(copy);
            Err(memory)
        }
    }
}

/// A table of the objects at these places of another one, in the order of the places, all
/// committed. The pool holds the content of each once more; nothing is copied and nothing is
/// digested. If these are the first objects in their order, the two tables share them in memory, as
/// `Table::share` says.
///
/// The objects must be good by themselves: those that an object refers to come before it. `Memory`
/// (90) if an allocation fails; the pool then holds what it held. The other table stays as it was.
pub fn copied_table<N: Naming>(
    alloc: Global,
    pool: &mut Pool<N>,
    table: &mut Table,
    places: &[usize],
) -> Result<Table, Memory>
    requires stands { IsBackedBy N.digest_of pool.old table.old.entries }
    requires room { HasHoldsLeftBeside pool.old [] }
    requires within { All (λ p. p < length table.old.entries) places.now }
    requires good { AreObjects N.digest_of
        (objects_at (objects pool.old table.old.entries) places.now) }
    ensures same { table.new ≡ table.old }
    ensures ok { IfOk result (λ copy.
        IsCopied N.digest_of places.now table.old.entries pool.old pool.new copy) }
    ensures err { OnErr result (PreservesOthers pool.old [] pool.new []) }
{
    if are_first(places) {
        table.share(alloc, pool, places.len())
    } else {
        separate_table(alloc, pool, table, places)
    }
}
