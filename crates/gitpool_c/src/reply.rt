//! A reply: what the last call printed, and the number that it answered.

ghost use Rattle.std.specs.Prelude.{◌≡◌, ◌≢◌, None, IsSome, length, drop};
ghost use Rattle.tenant_service.specs.Copies.{told_ok};
ghost use Rattle.gitpool_c.specs.{Held.{told_in}, Numbers.{items_of, number_of}, Reading.{HasRead}};

use crate::handle::{Handle, fill, free, put, taken};
use crate::kept::Kept;
use crate::numbers::{OUT_OF_MEMORY, items_of, number_of};
use git_names::Sha1Naming;
use std::alloc::Global;
use std::io::Read;
use tenant_service::Service;

/// Copies bytes to the front of a room: as many as there are, if the room is not shorter. Says how
/// many.
pub fn copy_front(bytes: &[u8], room: &mut [u8]) -> usize
    ensures { HasRead bytes.now room.old result room.new }
{
    let mut rest = bytes;
    match rest.read(room) {
        Ok(many) => many,
        Err(_) => unreachable!(),
    }
}

// Copies the bytes from this place on.
fn copy_from(bytes: &[u8], from: usize, room: &mut [u8]) -> usize
    ensures { HasRead (drop from bytes.now) room.old result room.new }
{
    let first = from.min(bytes.len());
    copy_front(&bytes[first..], room)
}

/// Makes an empty reply.
#[unsafe(no_mangle)]
pub extern "C" fn gitpool_reply_new(alloc: Global, reply: &mut Handle) -> u32
    ensures filled { result ≡ 0 → IsSome reply.new.kept }
    ensures empty { result ≡ 0 → told_in reply.new.kept ≡ told_ok }
    ensures refused { result ≢ 0 → result ≡ 90 }
    ensures same { result ≢ 0 → reply.new.kept ≡ reply.old.kept }
{
    let kept = Kept::of(alloc, Service::new(alloc, Sha1Naming));
    match fill(alloc, reply, kept) {
        Ok(()) => 0,
        Err(_) => OUT_OF_MEMORY,
    }
}

/// The number that the last call answered.
#[unsafe(no_mangle)]
pub extern "C" fn gitpool_reply_fault(alloc: Global, reply: &mut Handle) -> u32
    requires { IsSome reply.old.kept }
    ensures same { reply.new.kept ≡ reply.old.kept }
    ensures number { result ≡ number_of (told_in reply.old.kept).answer }
{
    let kept = taken(alloc, reply);
    let number = number_of(kept.reply.answer);
    put(reply, kept);
    number
}

/// How many whole items of the last Feed took effect before memory ran out.
#[unsafe(no_mangle)]
pub extern "C" fn gitpool_reply_items(alloc: Global, reply: &mut Handle) -> u64
    requires { IsSome reply.old.kept }
    ensures same { reply.new.kept ≡ reply.old.kept }
    ensures items { result ≡ items_of (told_in reply.old.kept).answer }
{
    let kept = taken(alloc, reply);
    let items = items_of(kept.reply.answer);
    put(reply, kept);
    items
}

/// The number of bytes of the reply.
#[unsafe(no_mangle)]
pub extern "C" fn gitpool_reply_length(alloc: Global, reply: &mut Handle) -> usize
    requires { IsSome reply.old.kept }
    ensures same { reply.new.kept ≡ reply.old.kept }
    ensures length { result ≡ length (told_in reply.old.kept).reply }
{
    let kept = taken(alloc, reply);
    let many = kept.reply.bytes.len();
    put(reply, kept);
    many
}

/// Copies bytes of the reply from this place on.
#[unsafe(no_mangle)]
pub extern "C" fn gitpool_reply_read(
    alloc: Global,
    reply: &mut Handle,
    from: usize,
    room: &mut [u8],
) -> usize
    requires { IsSome reply.old.kept }
    ensures same { reply.new.kept ≡ reply.old.kept }
    ensures read { HasRead (drop from (told_in reply.old.kept).reply) room.old result room.new }
{
    let kept = taken(alloc, reply);
    let many = copy_from(&kept.reply.bytes, from, room);
    put(reply, kept);
    many
}

/// Gives the memory of a reply back.
#[unsafe(no_mangle)]
pub extern "C" fn gitpool_reply_free(alloc: Global, reply: &mut Handle)
    requires { IsSome reply.old.kept }
    ensures { reply.new.kept ≡ None }
{
    free(alloc, reply);
}
