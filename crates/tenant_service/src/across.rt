//! A table over one pool of objects that a table over another pool has.
//!
//! A content that the pool does not have is copied, and none is digested: its name is known.

ghost use Rattle.std.specs.Prelude.{◌≡◌, ◌+◌, ◌<◌, ◌≤◌, [], length, IfOk, OnOk, OnErr};
ghost use Rattle.tenant_tables.specs.IsBackedBy.{IsBackedBy, PreservesOthers};
ghost use Rattle.tenant_tables.specs.Room.{HasHoldsLeftBeside};
ghost use Rattle.tenant_service.specs.Across.{HasFirst, IsAcross, MayAdd};

use content_pool::Pool;
use git_objects::{Memory, Naming};
use std::alloc::Global;
use tenant_tables::Table;

// Adds the object at this place of a table over another pool, after those before it. While it is
// added, the pool holds its content once more.
fn add_across<N: Naming>(
    from: &Pool<N>,
    table: &Table,
    place: usize,
    pool: &mut Pool<N>,
    made: &mut Table,
) -> Result<(), Memory>
    requires { MayAdd N.digest_of from.now table.now.entries place pool.old made.old.entries }
    ensures stands { IsBackedBy N.digest_of pool.new made.new.entries }
    ensures others { PreservesOthers pool.old made.old.entries pool.new made.new.entries }
    ensures committed { made.new.committed ≡ made.old.committed }
    ensures ok { OnOk result
        (HasFirst from.now table.now.entries (place + 1) pool.new made.new.entries) }
{
    let _distinct = table.len();
    let (id, source) = table.at(place).unwrap();
    let (kind, bytes) = from.get(source);
    let slot = pool.put_named(id, kind, bytes)?;
    let added = made.add_held(pool, id, slot, table.summary(&id));
    pool.release(slot);
    added
}

// Adds the first objects of a table over another pool to a table that has none.
fn add_first<N: Naming>(
    from: &Pool<N>,
    table: &Table,
    count: usize,
    pool: &mut Pool<N>,
    made: &mut Table,
) -> Result<(), Memory>
    requires from { IsBackedBy N.digest_of from.now table.now.entries }
    requires within { count ≤ length table.now.entries }
    requires room { HasHoldsLeftBeside pool.old [] }
    requires empty { made.old.entries ≡ [] }
    ensures stands { IsBackedBy N.digest_of pool.new made.new.entries }
    ensures others { PreservesOthers pool.old [] pool.new made.new.entries }
    ensures ok { OnOk result
        (HasFirst from.now table.now.entries count pool.new made.new.entries) }
{
    for place in 0..count {
        add_across(from, table, place, pool, made)?;
    }
    Ok(())
}

/// A table of the first `count` objects of a table over another pool, all committed. `pool` holds
/// the content of each once more. A content that it does not have is copied from the pool `from`;
/// nothing is digested.
///
/// `Memory` (90) if an allocation fails; `pool` then holds what it held. The other pool and its
/// table stay as they were.
pub fn table_across<N: Naming>(
    alloc: Global,
    from: &Pool<N>,
    table: &Table,
    count: usize,
    pool: &mut Pool<N>,
) -> Result<Table, Memory>
    requires from { IsBackedBy N.digest_of from.now table.now.entries }
    requires within { count ≤ length table.now.entries }
    requires room { HasHoldsLeftBeside pool.old [] }
    ensures ok { IfOk result (λ copy.
        IsAcross N.digest_of from.now table.now.entries count pool.old pool.new copy) }
    ensures err { OnErr result (PreservesOthers pool.old [] pool.new []) }
{
    let mut copy = Table::with_capacity(alloc, count)?;
    match add_first(from, table, count, pool, &mut copy) {
        Ok(()) => {
            copy.commit();
            Ok(copy)
        }
        Err(memory) => {
            copy.release(pool);
            Err(memory)
        }
    }
}
