//! Missing objects as bytes, 29 for each.

ghost use Rattle.std.specs.Prelude.{◌≡◌, ◌++◌, OnErr, OnOk};
ghost use Rattle.pack_text.specs.Sinks.{HasBegun};
ghost use Rattle.pack_objects.specs.Listing.{listing_text, record_text};

use crate::missing_object::MissingObject;
use git_objects::Memory;
use pack_text::number_of;

fn append_record(object: &MissingObject, out: &mut Vec<u8>) -> Result<(), Memory>
    ensures appended { OnOk result (out.new.items ≡ out.old.items ++ record_text object.now) }
    ensures begun { OnErr result (HasBegun out.old.items out.new.items) }
{
    out.extend_from_slice(object.id.as_bytes())?;
    out.push(number_of(object.kind))?;
    out.extend_from_slice(&object.size.to_be_bytes())?;
    Ok(())
}

// Appends these bytes for each object. If there is no room for all, some of them may be there.
fn append_records(objects: &[MissingObject], out: &mut Vec<u8>) -> Result<(), Memory>
    ensures appended { OnOk result (out.new.items ≡ out.old.items ++ listing_text objects.now) }
    ensures begun { OnErr result (HasBegun out.old.items out.new.items) }
{
    for object in objects {
        append_record(object, out)?;
    }
    Ok(())
}

/// Appends 29 bytes for each object: its name (20), its kind as in a pack (1), and the size of its
/// contents (8, big-endian).
///
/// `Memory` (90) if there is no room for them. Then `out` has the bytes that it had.
pub fn append_listing(objects: &[MissingObject], out: &mut Vec<u8>) -> Result<(), Memory>
    ensures appended { OnOk result (out.new.items ≡ out.old.items ++ listing_text objects.now) }
    ensures kept { OnErr result (out.new.items ≡ out.old.items) }
{
    let length = out.len();
    match append_records(objects, out) {
        Ok(()) => Ok(()),
        Err(memory) => {
            out.truncate(length);
            Err(memory)
        }
    }
}
