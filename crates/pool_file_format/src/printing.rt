//! Writing the bytes of a file to a sink, piece by piece.

ghost use Rattle.std.specs.{Prelude.{◌++◌, map}, Int.{w16, w32, w64, to_be_bytes}, List.{flat_map}};
ghost use Rattle.pool_file_format.specs.Format.{sized, counted, number_text, object_text, ref_text};
ghost use Rattle.pool_file_format.specs.{Format.{head_text, tenant_text, body_text}, Sinks.{Gives}};
ghost use Rattle.pool_file_format.specs.Shown.{ref_of, refs_of, tenant_of, tenants_of, listed_file};

use crate::listed::{Listed, Printed};
use crate::number_block::{NUMBERS, NumberBlock};
use crate::raw::{RawRef, RawTenant};
use crate::reading::MAGIC;
use crate::sink::Sink;
use byte_devices::DeviceFault;

fn put_u16<S: Sink>(sink: &mut S, number: u16) -> Result<(), DeviceFault>
    ensures { Gives S.Took S.Failed sink.old result sink.new (to_be_bytes w16 number) }
{
    sink.take(&number.to_be_bytes())
}

fn put_u32<S: Sink>(sink: &mut S, number: u32) -> Result<(), DeviceFault>
    ensures { Gives S.Took S.Failed sink.old result sink.new (to_be_bytes w32 number) }
{
    sink.take(&number.to_be_bytes())
}

fn put_u64<S: Sink>(sink: &mut S, number: u64) -> Result<(), DeviceFault>
    ensures { Gives S.Took S.Failed sink.old result sink.new (number_text number) }
{
    sink.take(&number.to_be_bytes())
}

// Bytes after their length in two bytes. A longer length is written modulo 65,536.
fn put_short<S: Sink>(sink: &mut S, bytes: &[u8]) -> Result<(), DeviceFault>
    ensures { Gives S.Took S.Failed sink.old result sink.new (sized w16 bytes.now) }
{
    put_u16(sink, (bytes.len() % 65_536) as u16)?;
    sink.take(bytes)
}

// Bytes after their length in eight bytes.
fn put_long<S: Sink>(sink: &mut S, bytes: &[u8]) -> Result<(), DeviceFault>
    ensures { Gives S.Took S.Failed sink.old result sink.new (sized w64 bytes.now) }
{
    put_u64(sink, bytes.len() as u64)?;
    sink.take(bytes)
}

// The texts of numbers, a block at a time.
fn put_many_numbers<S: Sink>(sink: &mut S, numbers: &[u64]) -> Result<(), DeviceFault>
    ensures { Gives S.Took S.Failed sink.old result sink.new (flat_map number_text numbers.now) }
{
    let mut left = numbers;
    while !left.is_empty() {
        let (few, more) = left.split_at(left.len().min(NUMBERS));
        sink.take(NumberBlock::of(few).as_slice())?;
        left = more;
    }
    Ok(())
}

// All numbers, after their count.
fn put_numbers<S: Sink>(sink: &mut S, numbers: &[u64]) -> Result<(), DeviceFault>
    ensures { Gives S.Took S.Failed sink.old result sink.new
        (counted number_text numbers.now) }
{
    put_u64(sink, numbers.len() as u64)?;
    put_many_numbers(sink, numbers)
}

fn put_object<S: Sink, O: Printed>(sink: &mut S, object: &O) -> Result<(), DeviceFault>
    ensures { Gives S.Took S.Failed sink.old result sink.new (object_text (O.object object.now)) }
{
    sink.take(&[object.kind()])?;
    put_long(sink, object.contents())
}

fn put_many_objects<S: Sink, O: Printed>(sink: &mut S, objects: &[O]) -> Result<(), DeviceFault>
    ensures { Gives S.Took S.Failed sink.old result sink.new
        (flat_map object_text (map O.object objects.now)) }
{
    for object in objects {
        put_object(sink, object)?;
    }
    Ok(())
}

// All objects, after their count.
fn put_objects<S: Sink, O: Printed>(sink: &mut S, objects: &[O]) -> Result<(), DeviceFault>
    ensures { Gives S.Took S.Failed sink.old result sink.new
        (counted object_text (map O.object objects.now)) }
{
    put_u64(sink, objects.len() as u64)?;
    put_many_objects(sink, objects)
}

fn put_ref<S: Sink>(sink: &mut S, one: &RawRef) -> Result<(), DeviceFault>
    ensures { Gives S.Took S.Failed sink.old result sink.new (ref_text (ref_of one.now)) }
{
    put_short(sink, &one.name)?;
    put_u64(sink, one.place)
}

fn put_many_refs<S: Sink>(sink: &mut S, refs: &[RawRef]) -> Result<(), DeviceFault>
    ensures { Gives S.Took S.Failed sink.old result sink.new
        (flat_map ref_text (refs_of refs.now)) }
{
    for one in refs {
        put_ref(sink, one)?;
    }
    Ok(())
}

// All refs, after their count.
fn put_refs<S: Sink>(sink: &mut S, refs: &[RawRef]) -> Result<(), DeviceFault>
    ensures { Gives S.Took S.Failed sink.old result sink.new
        (counted ref_text (refs_of refs.now)) }
{
    put_u64(sink, refs.len() as u64)?;
    put_many_refs(sink, refs)
}

// Version 1 has no HEAD.
fn put_head<S: Sink>(sink: &mut S, version: u32, head: &[u8]) -> Result<(), DeviceFault>
    ensures { Gives S.Took S.Failed sink.old result sink.new (head_text version head.now) }
{
    if version == 1 {
        return Ok(());
    }
    put_short(sink, head)
}

// The refs of a tenant, and HEAD.
fn put_ends<S: Sink>(sink: &mut S, version: u32, tenant: &RawTenant) -> Result<(), DeviceFault>
    ensures { Gives S.Took S.Failed sink.old result sink.new
        (counted ref_text (refs_of tenant.now.refs.items)
        ++ head_text version tenant.now.head.items) }
{
    put_refs(sink, &tenant.refs)?;
    put_head(sink, version, &tenant.head)
}

fn put_tenant<S: Sink>(sink: &mut S, version: u32, tenant: &RawTenant) -> Result<(), DeviceFault>
    ensures { Gives S.Took S.Failed sink.old result sink.new
        (tenant_text version (tenant_of tenant.now)) }
{
    put_short(sink, &tenant.name)?;
    put_numbers(sink, &tenant.numbers)?;
    put_ends(sink, version, tenant)
}

fn put_many_tenants<S: Sink>(
    sink: &mut S,
    version: u32,
    tenants: &[RawTenant],
) -> Result<(), DeviceFault>
    ensures { Gives S.Took S.Failed sink.old result sink.new
        (flat_map (tenant_text version) (tenants_of tenants.now)) }
{
    for tenant in tenants {
        put_tenant(sink, version, tenant)?;
    }
    Ok(())
}

// All tenants, after their count.
fn put_tenants<S: Sink>(
    sink: &mut S,
    version: u32,
    tenants: &[RawTenant],
) -> Result<(), DeviceFault>
    ensures { Gives S.Took S.Failed sink.old result sink.new
        (counted (tenant_text version) (tenants_of tenants.now)) }
{
    put_u64(sink, tenants.len() as u64)?;
    put_many_tenants(sink, version, tenants)
}

// All objects, and all tenants.
fn put_lists<S: Sink, O: Printed>(sink: &mut S, file: &Listed<'_, O>) -> Result<(), DeviceFault>
    ensures { Gives S.Took S.Failed sink.old result sink.new
        (counted object_text (map O.object file.now.objects.now)
        ++ counted (tenant_text file.now.version) (tenants_of file.now.tenants.now)) }
{
    put_objects(sink, file.objects)?;
    put_tenants(sink, file.version, file.tenants)
}

/// All bytes of a file before its digest.
pub fn put_body<S: Sink, O: Printed>(sink: &mut S, file: &Listed<'_, O>) -> Result<(), DeviceFault>
    ensures { Gives S.Took S.Failed sink.old result sink.new
        (body_text (listed_file O.object file.now)) }
{
    sink.take(MAGIC)?;
    put_u32(sink, file.version)?;
    put_lists(sink, file)
}
