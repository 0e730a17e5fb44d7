//! A handle: one pointer, which C keeps and passes by its address.
//!
//! A handle owns the box of a `Kept`, or nothing. The pointer of one that owns nothing is null.

ghost use Rattle.std.specs.{Prelude.{◌≡◌, Option, Some, None, IsSome, OnOk, OnErr}, Coded.{codes}};
ghost use Rattle.tenant_service.specs.HeldObjects.{ref_map_code};
ghost use Rattle.file_maps.specs.FileMap.{file_map_code};
ghost use Rattle.gitpool_c.specs.declared.kept.Kept.{Kept};

use crate::kept::Kept;
use crate::loose::Loose;
use git_names::Memory;
use std::alloc::Global;
use std::marker::Model;
use std::mem;

/// What C keeps of a service, a reply or a list of sizes.
#[repr(C)]
#[derive(Drop)]
pub struct Handle {
    at: *mut u8,
    pub ghost kept: { Option Kept } by { Prim.hlevel (codes, ref_map_code, file_map_code) },
}

impl Model for Handle {
    ghost use Rattle.gitpool_c.specs.{Held.{holds}, contracts.kept.Kept.{the_row}};

    ghost also_owns = { λ l. holds the_row l.at l.kept };
}

fn empty() -> Handle
    ensures { result.kept ≡ None }
{
    let at: *mut u8 = std::ptr::null_mut();
    Handle { at }
}

fn handle_of(it: Loose<Kept, Global>) -> Handle
    ensures { result.kept ≡ Some it.value }
{
    let Loose { at, alloc: _ } = it;
    Handle { at: at as *mut u8 }
}

fn loose_of(alloc: Global, it: Handle) -> Loose<Kept, Global>
    requires { IsSome it.kept }
    ensures { it.kept ≡ Some result.value }
{
    let Handle { at } = it;
    Loose {
        at: at as *mut Kept,
        alloc,
    }
}

/// The box of a handle, which is left empty.
pub fn taken(alloc: Global, it: &mut Handle) -> Box<Kept>
    requires { IsSome it.old.kept }
    ensures value { it.old.kept ≡ Some result.value }
    ensures left { it.new.kept ≡ None }
{
    loose_of(alloc, mem::replace(it, empty())).into_box()
}

/// Puts a box into a handle.
pub fn put(it: &mut Handle, kept: Box<Kept>)
    ensures { it.new.kept ≡ Some kept.value }
{
    *it = handle_of(Loose::of(kept));
}

/// Fills a handle. `Memory` (90) if there is no memory for the box; then the handle is as it was.
pub fn fill(alloc: Global, it: &mut Handle, kept: Kept) -> Result<(), Memory>
    ensures ok { OnOk result (it.new.kept ≡ Some kept) }
    ensures err { OnErr result (it.new.kept ≡ it.old.kept) }
{
    let kept = Box::new(alloc, kept)?;
    put(it, kept);
    Ok(())
}

/// Gives the memory of a handle back, and leaves the handle empty.
pub fn free(alloc: Global, it: &mut Handle)
    requires { IsSome it.old.kept }
    ensures { it.new.kept ≡ None }
{
    drop(taken(alloc, it));
}
