//! The pack of one tenant to a writer, by the lines that a reader has.

ghost use Rattle.std.specs.Prelude.{◌≡◌, ◌++◌, OnOk, map};
ghost use Rattle.git_model.specs.RefStore.{listed_refs};
ghost use Rattle.git_objects.specs.Device.{device_of, seen};
ghost use Rattle.gitpool.specs.Packs.{AnswersText, Packs, pack_told, wanted_refs};

use crate::pack_lines::{Revisions, read_text};
use git_objects::{Counted, Memory, Name, Naming};
use pool_file_format::StreamingDigest;
use std::alloc::Global;
use std::io::{Read, Write};
use tenant_refs::Refs;
use tenant_service::{PackFault, Service};

// Appends the object name that each ref holds.
fn append_targets(refs: &Refs, out: &mut Vec<Name>) -> Result<(), Memory>
    ensures { OnOk result (out.new.items
        ≡ out.old.items ++ map (λ entry. entry.1) (listed_refs refs.now)) }
{
    for position in 0..refs.len() {
        let Some(entry) = refs.at(position) else {
            return Ok(());
        };
        out.push(entry.1)?;
    }
    Ok(())
}

// Appends the object name that each ref of a tenant holds at its last checkpoint, if all of them are
// wanted.
fn append_wanted_refs<N: Naming>(
    service: &Service<N>,
    tenant: &[u8],
    all: bool,
    out: &mut Vec<Name>,
) -> Result<(), Memory>
    ensures { OnOk result (out.new.items
        ≡ out.old.items ++ wanted_refs all tenant.now service.now) }
{
    if !all {
        return Ok(());
    }
    match service.view(tenant) {
        Some((_, _, refs)) => append_targets(refs, out),
        None => Ok(()),
    }
}

// Writes the pack that a text of lines asks for.
fn write_asked<N: StreamingDigest, W: Write>(
    alloc: Global,
    service: &Service<N>,
    tenant: &[u8],
    all: bool,
    text: &[u8],
    writer: &mut Counted<W>,
) -> Result<(), PackFault>
    ensures { AnswersText N.digest_of (pack_told tenant.now all service.now text.now)
        (seen (W.contents (device_of writer.old)) writer.old) result
        (seen (W.contents (device_of writer.new)) writer.new) }
{
    let mut revisions = Revisions::new(alloc);
    revisions.take(alloc, text)?;
    append_wanted_refs(service, tenant, all, &mut revisions.wants)?;
    service.write_pack(tenant, &revisions.wants, &revisions.haves, writer)
}

/// Writes a pack of one tenant to `writer`, as `git pack-objects --revs --stdout` does, without
/// deltas and without compression. `reader` has lines `NAME` and `^NAME`, each with the 40
/// hexadecimal digits of an object name: the pack has the objects, at the last checkpoint, that the
/// wanted names reach and the others do not. With `all` every ref is wanted too. A name after `^`
/// that is that of no object counts for nothing. No tenant changes.
///
/// The reader is read to its end first. `UnknownObject` (16) if a line is another one; else
/// `BadTenantName` (32) if the name of the tenant is bad; else `UnknownObject` (16) if a wanted name
/// is that of no object. `Limit` (25) if the lines have more than 67,108,864 bytes. `Memory` (90) if
/// an allocation fails. Nothing is written then. `Device` (68): a call of the reader failed, and
/// nothing is written; or a call of the writer failed, and a prefix of the pack is written.
pub fn pack<N: StreamingDigest, R: Read, W: Write>(
    alloc: Global,
    service: &Service<N>,
    tenant: &[u8],
    all: bool,
    reader: &mut Counted<R>,
    writer: &mut Counted<W>,
) -> Result<(), PackFault>
    ensures { Packs N.digest_of tenant.now all service.now
        (seen (R.remaining (device_of reader.old)) reader.old)
        (seen (R.remaining (device_of reader.new)) reader.new)
        (seen (W.contents (device_of writer.old)) writer.old)
        (seen (W.contents (device_of writer.new)) writer.new) result }
{
    let mut text = Vec::new(alloc);
    read_text(reader, &mut text)?;
    write_asked(alloc, service, tenant, all, &text, writer)
}
