//! An object whose content is already in the pool, for tests: what a caller of `add_held` has to
//! keep.

ghost use Rattle.std.specs.Prelude.{◌≡◌, []};
ghost use Rattle.content_pool.specs.Pool.{IsVacant};

use content_pool::Pool;
use git_objects::{Kind, Memory, Naming};
use std::alloc::Global;
use tenant_tables::Table;

/// Whether a table takes `hello`, which is in a pool, under the name of these digits, and still has
/// it when nobody else holds it.
pub fn takes_hello<N: Naming>(alloc: Global, naming: N, digits: &[u8; 40]) -> Result<bool, Memory> {
    let mut pool = Pool::new(alloc, naming);
    let mut table = Table::new(alloc);
    let takes = takes_hello_from(&mut pool, &mut table, digits);
    drop(table);
    drop(pool);
    takes
}

// Apart from the function that owns the two: each way out of an owner makes its proof longer.
fn takes_hello_from<N: Naming>(
    pool: &mut Pool<N>,
    table: &mut Table,
    digits: &[u8; 40],
) -> Result<bool, Memory>
    requires vacant { IsVacant pool.old }
    requires none { table.old.entries ≡ [] }
{
    let (slot, id) = pool.put(Kind::Blob, b"hello\n")?;
    table.add_held(pool, id, slot, None)?;
    pool.release(slot);
    Ok(
        id.to_hex() == *digits
            && table.at(0) == Some((id, slot))
            && table.summary(&id).is_none()
            && pool.stored() == (1, 6),
    )
}

// A tree that Git keeps and that no stream can make: `git hash-object --literally` takes it, and Git
// writes its mode as `100644`.
const ODD_TREE: &[u8; 33] =
    b"100664 hello\0\xce\x01\x36\x25\x03\x0b\xa8\xdb\xa9\x06\xf7\x56\x96\x7f\x9e\x9c\xa3\x94\x46\x4a";

/// Whether a table takes a tree that is not plain under the name of these digits, and keeps no
/// summary of it.
pub fn takes_odd_tree<N: Naming>(
    alloc: Global,
    naming: N,
    digits: &[u8; 40],
) -> Result<bool, Memory> {
    let mut pool = Pool::new(alloc, naming);
    let mut table = Table::new(alloc);
    let takes = takes_odd_tree_from(&mut pool, &mut table, digits);
    drop(table);
    drop(pool);
    takes
}

fn takes_odd_tree_from<N: Naming>(
    pool: &mut Pool<N>,
    table: &mut Table,
    digits: &[u8; 40],
) -> Result<bool, Memory>
    requires vacant { IsVacant pool.old }
    requires none { table.old.entries ≡ [] }
{
    let (slot, id) = pool.put(Kind::Tree, ODD_TREE)?;
    table.add_held(pool, id, slot, None)?;
    pool.release(slot);
    Ok(
        id.to_hex() == *digits
            && table.at(0) == Some((id, slot))
            && table.summary(&id).is_none()
            && pool.stored() == (1, 33),
    )
}
