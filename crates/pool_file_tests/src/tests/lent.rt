//! Files whose contents are lent: written in blocks, byte for byte, or up to a prefix if a writer
//! fails.

use super::files::VERSION_2;
use super::parts::printed;
use byte_devices::{Counted, DeviceFault, FailingWriter};
use content_pool::Bytes;
use git_names::TailNaming;
use pool_file_format::{Fault, LentObject, RawFile, RawObject, read_sealed, write_lent};
use std::alloc::{AllocError, Global};
use std::io::Write;

fn lent_of<'a>(alloc: Global, objects: &'a [RawObject]) -> Result<Vec<LentObject<'a>>, AllocError> {
    let mut lent = Vec::new(alloc);
    for object in objects {
        lent.push(LentObject {
            kind: object.kind,
            bytes: object.bytes.as_slice(),
        })?;
    }
    Ok(lent)
}

fn write_to<W: Write>(
    alloc: Global,
    file: &RawFile,
    writer: &mut Counted<W>,
) -> Result<Result<(), DeviceFault>, AllocError> {
    let lent = lent_of(alloc, &file.objects)?;
    Ok(write_lent(alloc, &TailNaming, &lent, &file.tenants, writer))
}

fn file_2(alloc: Global) -> Result<RawFile, Fault> {
    let mut reader = Counted::new(VERSION_2);
    read_sealed(alloc, &TailNaming, &mut reader)
}

fn is_written(alloc: Global, file: &RawFile, wanted: &[u8], calls: u64) -> Result<bool, Fault> {
    let mut writer = Counted::new(Vec::new(alloc));
    write_to(alloc, file, &mut writer)??;
    let made = writer.calls();
    let written = writer.into_inner();
    Ok(made == calls && written.as_slice() == wanted)
}

fn is_written_as_read(alloc: Global) -> Result<bool, Fault> {
    is_written(alloc, &file_2(alloc)?, VERSION_2, 2)
}

fn is_front_written(alloc: Global, file: &RawFile, nth: usize) -> Result<bool, Fault> {
    let mut writer = Counted::new(FailingWriter::new(Vec::new(alloc), nth as u64));
    let answer = write_to(alloc, file, &mut writer)?;
    let written = writer.into_inner().into_inner();
    Ok(answer == Err(DeviceFault) && written.as_slice() == VERSION_2.split_at(nth.min(103)).0)
}

fn are_fronts_written(alloc: Global) -> Result<bool, Fault> {
    let file = file_2(alloc)?;
    for nth in 0..103 {
        if !is_front_written(alloc, &file, nth)? {
            return Ok(false);
        }
    }
    Ok(true)
}

fn push_large(alloc: Global, objects: &mut Vec<RawObject>, size: usize) -> Result<(), Fault> {
    let bytes = Bytes::taken(Vec::from_elem(alloc, 7, size)?);
    objects.push(RawObject { kind: 3, bytes })?;
    Ok(())
}

// A file of objects of these sizes, and no tenant.
fn file_of(alloc: Global, sizes: &[usize]) -> Result<RawFile, Fault> {
    let mut objects = Vec::new(alloc);
    for size in sizes {
        push_large(alloc, &mut objects, *size)?;
    }
    Ok(RawFile {
        version: 2,
        objects,
        tenants: Vec::new(alloc),
    })
}

// Whether such a file is written by so many calls, with the same bytes as an owned one.
fn takes_calls(alloc: Global, sizes: &[usize], calls: u64) -> Result<bool, Fault> {
    let file = file_of(alloc, sizes)?;
    let wanted = printed(alloc, &TailNaming, &file)?;
    is_written(alloc, &file, &wanted, calls)
}

#[test]
fn writes_lent_contents_as_they_were_read(rt: HostRuntime) {
    assert!(rt; is_written_as_read(rt.alloc()) == Ok(true));
}

#[test]
fn leaves_a_front_of_lent_contents_where_a_writer_fails(rt: HostRuntime) {
    assert!(rt; are_fronts_written(rt.alloc()) == Ok(true));
}

#[test]
fn writes_small_pieces_in_blocks_and_large_ones_by_themselves(rt: HostRuntime) {
    let sizes = [70_000, 40_000, 40_000, 0, 65_535, 65_536, 1];
    assert!(rt; takes_calls(rt.alloc(), &sizes, 9) == Ok(true));
}
