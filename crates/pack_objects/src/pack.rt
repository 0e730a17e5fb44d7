//! The pack of the missing objects, over a writer.

ghost use Rattle.std.specs.Prelude.{◌≡◌, true, false, Err};
ghost use Rattle.byte_devices.specs.Device.{device_of, seen};
ghost use Rattle.git_model.specs.HeldObjects.{AreHeld};
ghost use Rattle.pool_file_format.specs.Sinks.{Writes};
ghost use Rattle.pack_text.specs.PackText.{pack_text};
ghost use Rattle.missing_objects.specs.Missing.{has_all};
ghost use Rattle.pack_objects.specs.Packs.{WritesPack, WritesSomePack, contents_at, pack_asked};
ghost use Rattle.pack_objects.specs.declared.fault.PackFault.TheVariants as fault;

use crate::fault::PackFault;
use byte_devices::{Counted, DeviceFault};
use git_objects::{Kind, Name, Naming};
use missing_objects::missing_places;
use pack_text::{PackContents, write_pack};
use pool_file_format::StreamingDigest;
use std::alloc::Global;
use std::io::Write;
use tenant_tables::Objects;

// The objects at these places.
#[derive(Drop)]
struct ObjectsAt<'a, N: Naming> {
    objects: &'a Objects<'a, N>,
    places: &'a [usize],
}

impl<'a, N: Naming> PackContents for ObjectsAt<'a, N> {
    ghost contents = { λ pack. contents_at pack.objects.now pack.places.now };

    fn len(&self) -> usize {
        self.places.len()
    }

    fn at(&self, position: usize) -> Option<(Kind, &[u8])> {
        let place = *self.places.get(position)?;
        match self.objects.at(place) {
            Some((_, kind, contents)) => Some((kind, contents)),
            None => Some((Kind::Blob, &[])),
        }
    }
}

// Writes the pack of the objects at these places.
fn write_places<N: StreamingDigest, W: Write>(
    alloc: Global,
    objects: &Objects<'_, N>,
    naming: &N,
    places: &[usize],
    writer: &mut Counted<W>,
) -> Result<(), DeviceFault>
    ensures { Writes (seen (W.contents (device_of writer.old)) writer.old) result
        (seen (W.contents (device_of writer.new)) writer.new)
        (pack_text N.digest_of (contents_at objects.now places.now)) }
{
    let pack = ObjectsAt { objects, places };
    write_pack(alloc, naming, &pack, writer)
}

/// Writes the pack of the objects that the wanted names reach and the had names do not, in the order
/// of the repository, and its digest under this naming. A had name that is that of no object counts
/// for nothing. The pack is never held in memory.
///
/// The answer is right where the objects are held (`AreHeld` of git_model). `UnknownObject` (16) if
/// a wanted name is that of no object; else `Memory` (90) if an allocation fails. Nothing is written
/// then. `Device` (68) if a call of the writer failed; a prefix of the pack is written then.
pub fn write_missing<N: StreamingDigest, W: Write>(
    alloc: Global,
    objects: &Objects<'_, N>,
    naming: &N,
    wants: &[Name],
    haves: &[Name],
    writer: &mut Counted<W>,
) -> Result<(), PackFault>
    ensures unknown { has_all objects.now wants.now ≡ false
        → WritesPack N.digest_of (Err fault.UnknownObject)
        (seen (W.contents (device_of writer.old)) writer.old) result
        (seen (W.contents (device_of writer.new)) writer.new) }
    ensures known { has_all objects.now wants.now ≡ true → WritesSomePack N.digest_of objects.now
        (seen (W.contents (device_of writer.old)) writer.old) result
        (seen (W.contents (device_of writer.new)) writer.new) }
    ensures written { AreHeld N.digest_of objects.now
        → WritesPack N.digest_of (pack_asked objects.now wants.now haves.now)
        (seen (W.contents (device_of writer.old)) writer.old) result
        (seen (W.contents (device_of writer.new)) writer.new) }
{
    let places = missing_places(alloc, objects, wants, haves)?;
    match write_places(alloc, objects, naming, &places, writer) {
        Ok(()) => Ok(()),
        Err(DeviceFault) => Err(PackFault::Device),
    }
}
