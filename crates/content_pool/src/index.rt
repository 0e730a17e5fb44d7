//! The index from object names to slots: one bucket of slots for each prefix of the name of a
//! stored content.

ghost use Rattle.std.specs.Prelude.{◌≡◌, ◌<◌, [], IsTrue, OnOk, OnErr};
ghost use Rattle.content_pool.specs.Index.{bucket, times, Notes, Forgets, SameBuckets};

use crate::bucket::Bucket;
use crate::prefix::Prefix;
use git_names::Memory;
use std::alloc::Global;
use std::collections::HashMap;

/// Adds a slot to the bucket of this prefix. `Memory` (90) if there is no room for it; all
/// buckets then have the slots that they had.
pub fn note(
    alloc: Global,
    buckets: &mut HashMap<Prefix, Bucket>,
    prefix: Prefix,
    slot: usize,
) -> Result<(), Memory>
    ensures ok { OnOk result (Notes buckets.old.entries buckets.new.entries prefix slot) }
    ensures err { OnErr result (SameBuckets buckets.old.entries buckets.new.entries) }
{
    if let Some(bucket) = buckets.get_mut(&prefix) {
        bucket.add(alloc, slot)?;
        return Ok(());
    }
    buckets.insert(prefix, Bucket::with_slot(slot))?;
    Ok(())
}

/// Removes a slot from the bucket of this prefix. The slot is in the bucket, and a bucket
/// without slots is removed too. Takes no memory.
pub fn forget(buckets: &mut HashMap<Prefix, Bucket>, prefix: Prefix, slot: usize)
    requires { 0 < times (bucket buckets.old.entries prefix) slot }
    ensures { Forgets buckets.old.entries buckets.new.entries prefix slot }
{
    if take_out(buckets, prefix, slot) {
        buckets.remove(&prefix);
    }
}

// Removes a slot from its bucket, and answers whether the bucket is then empty.
fn take_out(buckets: &mut HashMap<Prefix, Bucket>, prefix: Prefix, slot: usize) -> bool
    requires { 0 < times (bucket buckets.old.entries prefix) slot }
    ensures taken { Forgets buckets.old.entries buckets.new.entries prefix slot }
    ensures empty { IsTrue result → bucket buckets.new.entries prefix ≡ [] }
{
    match buckets.get_mut(&prefix) {
        Some(bucket) => {
            bucket.remove(slot);
            bucket.is_empty()
        }
        None => false,
    }
}
