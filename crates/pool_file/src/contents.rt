//! The contents of a file in the pool, and the holds that keep them while tables are made.

ghost use Rattle.std.specs.Prelude.{◌≡◌, ◌+◌, ◌≤◌, ℕ, IfOk, None};
ghost use Rattle.content_pool.specs.Pool.{HasHoldsLeft, IsVacant, IsLive, Puts, holds, content};
ghost use Rattle.pool_file_format.specs.Shown.{object_of, objects_of};
ghost use Rattle.pool_file_checks.specs.{Checks.{Passes}, Objects.{object_checks}};
ghost use Rattle.pool_file_checks.specs.Own.{content_of, names_of};
ghost use Rattle.git_model.specs.Content.{name_by};
ghost use Rattle.pool_file.specs.Building.{objects_at, times_in};

use content_pool::{Pool, Slot};
use git_names::{Memory, Name, Naming};
use pool_file_checks::kind_of;
use pool_file_format::RawObject;
use std::alloc::Global;

// Moves the content of the object with this name into the pool, which then holds it once more.
fn store_content<N: Naming>(pool: &mut Pool<N>, id: Name, object: RawObject) -> Result<Slot, Memory>
    requires named { id ≡ name_by N.digest_of (content_of (object_of object)) }
    requires room { HasHoldsLeft pool.old }
    ensures { IfOk result (λ slot. Puts pool.old pool.new slot (content_of (object_of object))) }
{
    let RawObject { kind, bytes } = object;
    pool.put_bytes(id, kind_of(kind), bytes)
}

/// Moves the contents of a file's objects into a pool that holds nothing, and answers their slots
/// in the order of the objects. The pool then holds each of them once, and nothing else.
///
/// The objects are those of a file that passed its checks, and have these names. `Memory` (90) if
/// there is no memory for them; the pool may then hold some.
pub fn store_contents<N: Naming>(
    alloc: Global,
    pool: &mut Pool<N>,
    names: &[Name],
    objects: Vec<RawObject>,
) -> Result<Vec<Slot>, Memory>
    requires vacant { IsVacant pool.old }
    requires named { names.now ≡ names_of N.digest_of (objects_of objects.items) }
    requires checked { Passes (object_checks None (objects_of objects.items)) }
    ensures stored { IfOk result (λ slots. objects_at pool.new slots.items
        ≡ objects_of objects.items) }
    ensures counts { IfOk result (λ slots. (s : ℕ) → holds pool.new s ≡ times_in slots.items s) }
{
    let mut slots = Vec::with_capacity(alloc, objects.len())?;
    for object in objects {
        let place = slots.as_slice().len();
        let slot = store_content(pool, names[place], object)?;
        slots.push(slot)?;
    }
    Ok(slots)
}

/// Releases one hold of each of these slots. All other holds stay as they were. Takes no memory.
pub fn release_contents<N: Naming>(pool: &mut Pool<N>, slots: &[Slot])
    requires { (s : ℕ) → times_in slots.now s ≤ holds pool.old s }
    ensures counts { (s : ℕ) → holds pool.new s + times_in slots.now s ≡ holds pool.old s }
    ensures contents { (s : ℕ) → IsLive pool.new s → content pool.new s ≡ content pool.old s }
{
    for slot in slots {
        pool.release(*slot);
    }
}
