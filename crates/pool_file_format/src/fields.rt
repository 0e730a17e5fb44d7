//! Reading the parts of a file from a counted reader.

ghost use Rattle.std.specs.{Prelude.{◌≡◌}, Int.{w16, w64}};
ghost use Rattle.byte_devices.specs.{Device.{device_of, seen}, Reading.{AreBytes}};
ghost use Rattle.pool_file_format.specs.Lengths.{byte_at, bytes_at, number_at, sized_at, many_at};
ghost use Rattle.pool_file_format.specs.Lengths.{counted_at, object_at, ref_at, head_at, tenant_at};
ghost use Rattle.pool_file_format.specs.Shown.{object_of, objects_of, ref_of, refs_of, tenant_of};
ghost use Rattle.pool_file_format.specs.{Shown.{tenants_of}, Taking.{shown, ReadsValue}};

use crate::fault::Fault;
use crate::filling::{fill, read_bytes, read_u16, read_u64};
use crate::raw::{RawObject, RawRef, RawTenant};
use byte_devices::{Counted, Lending};
use content_pool::Bytes;
use std::alloc::Global;
use std::io::Read;
use tenant_refs::FIRST_HEAD;

/// One byte.
pub fn read_byte<R: Read>(reader: &mut Counted<R>, bound: u64) -> Result<u8, Fault>
    ensures { ReadsValue bound byte_at
        (seen (R.remaining (device_of reader.old)) reader.old) (shown (λ n. n) result)
        (seen (R.remaining (device_of reader.new)) reader.new) }
{
    let mut bytes = [0];
    fill(reader, bound, &mut bytes)?;
    Ok(bytes[0])
}

// A length in two bytes, and as many bytes.
fn read_short<R: Read>(alloc: Global, reader: &mut Counted<R>, bound: u64) -> Result<Vec<u8>, Fault>
    ensures { ReadsValue bound (sized_at w16)
        (seen (R.remaining (device_of reader.old)) reader.old) (shown (λ bytes. bytes.items) result)
        (seen (R.remaining (device_of reader.new)) reader.new) }
{
    let count = read_u16(reader, bound)?;
    read_bytes(alloc, reader, bound, count as u64)
}

// `count` bytes that the reader did not lend.
fn read_owned<R: Read>(
    alloc: Global,
    reader: &mut Counted<R>,
    bound: u64,
    count: u64,
) -> Result<Bytes, Fault>
    ensures { ReadsValue bound (bytes_at count)
        (seen (R.remaining (device_of reader.old)) reader.old) (shown (λ bytes. bytes) result)
        (seen (R.remaining (device_of reader.new)) reader.new) }
{
    let items = read_bytes(alloc, reader, bound, count)?;
    Ok(Bytes::taken(items))
}

// Contents that are lent.
fn lent_contents(bytes: &'static [u8]) -> Bytes
    ensures same { result ≡ bytes.now }
    ensures small { AreBytes bytes.now }
{
    Bytes::lent(bytes)
}

// `count` bytes, lent by the reader or else read.
fn read_contents<R: Read, L: Lending<R>>(
    alloc: Global,
    reader: &mut Counted<R>,
    bound: u64,
    count: u64,
) -> Result<Bytes, Fault>
    ensures { ReadsValue bound (bytes_at count)
        (seen (R.remaining (device_of reader.old)) reader.old) (shown (λ bytes. bytes) result)
        (seen (R.remaining (device_of reader.new)) reader.new) }
{
    match L::lend(reader, count) {
        Some(bytes) => Ok(lent_contents(bytes)),
        None => read_owned(alloc, reader, bound, count),
    }
}

// The contents of an object, after their length in eight bytes.
fn read_long<R: Read, L: Lending<R>>(
    alloc: Global,
    reader: &mut Counted<R>,
    bound: u64,
) -> Result<Bytes, Fault>
    ensures { ReadsValue bound (sized_at w64)
        (seen (R.remaining (device_of reader.old)) reader.old) (shown (λ bytes. bytes) result)
        (seen (R.remaining (device_of reader.new)) reader.new) }
{
    let count = read_u64(reader, bound)?;
    read_contents::<R, L>(alloc, reader, bound, count)
}

// An object.
fn read_object<R: Read, L: Lending<R>>(
    alloc: Global,
    reader: &mut Counted<R>,
    bound: u64,
) -> Result<RawObject, Fault>
    ensures { ReadsValue bound object_at
        (seen (R.remaining (device_of reader.old)) reader.old) (shown object_of result)
        (seen (R.remaining (device_of reader.new)) reader.new) }
{
    let kind = read_byte(reader, bound)?;
    let bytes = read_long::<R, L>(alloc, reader, bound)?;
    Ok(RawObject { kind, bytes })
}

// `count` objects.
fn read_many_objects<R: Read, L: Lending<R>>(
    alloc: Global,
    reader: &mut Counted<R>,
    bound: u64,
    count: u64,
) -> Result<Vec<RawObject>, Fault>
    ensures { ReadsValue bound (many_at object_at count)
        (seen (R.remaining (device_of reader.old)) reader.old)
        (shown (λ os. objects_of os.items) result)
        (seen (R.remaining (device_of reader.new)) reader.new) }
{
    let mut objects = Vec::new(alloc);
    for _ in 0..count {
        let object = read_object::<R, L>(alloc, reader, bound)?;
        objects.push(object)?;
    }
    Ok(objects)
}

/// All objects, after their count. Their contents are lent if the reader lends them.
pub fn read_objects<R: Read, L: Lending<R>>(
    alloc: Global,
    reader: &mut Counted<R>,
    bound: u64,
) -> Result<Vec<RawObject>, Fault>
    ensures { ReadsValue bound (counted_at object_at)
        (seen (R.remaining (device_of reader.old)) reader.old)
        (shown (λ os. objects_of os.items) result)
        (seen (R.remaining (device_of reader.new)) reader.new) }
{
    let count = read_u64(reader, bound)?;
    read_many_objects::<R, L>(alloc, reader, bound, count)
}

// `count` numbers.
fn read_many_numbers<R: Read>(
    alloc: Global,
    reader: &mut Counted<R>,
    bound: u64,
    count: u64,
) -> Result<Vec<u64>, Fault>
    ensures { ReadsValue bound (many_at (number_at w64) count)
        (seen (R.remaining (device_of reader.old)) reader.old) (shown (λ ns. ns.items) result)
        (seen (R.remaining (device_of reader.new)) reader.new) }
{
    let mut numbers = Vec::new(alloc);
    for _ in 0..count {
        let number = read_u64(reader, bound)?;
        numbers.push(number)?;
    }
    Ok(numbers)
}

// All numbers, after their count.
fn read_numbers<R: Read>(
    alloc: Global,
    reader: &mut Counted<R>,
    bound: u64,
) -> Result<Vec<u64>, Fault>
    ensures { ReadsValue bound (counted_at (number_at w64))
        (seen (R.remaining (device_of reader.old)) reader.old) (shown (λ ns. ns.items) result)
        (seen (R.remaining (device_of reader.new)) reader.new) }
{
    let count = read_u64(reader, bound)?;
    read_many_numbers(alloc, reader, bound, count)
}

// A ref.
fn read_ref<R: Read>(alloc: Global, reader: &mut Counted<R>, bound: u64) -> Result<RawRef, Fault>
    ensures { ReadsValue bound ref_at
        (seen (R.remaining (device_of reader.old)) reader.old) (shown ref_of result)
        (seen (R.remaining (device_of reader.new)) reader.new) }
{
    let name = read_short(alloc, reader, bound)?;
    let place = read_u64(reader, bound)?;
    Ok(RawRef { name, place })
}

// `count` refs.
fn read_many_refs<R: Read>(
    alloc: Global,
    reader: &mut Counted<R>,
    bound: u64,
    count: u64,
) -> Result<Vec<RawRef>, Fault>
    ensures { ReadsValue bound (many_at ref_at count)
        (seen (R.remaining (device_of reader.old)) reader.old)
        (shown (λ rs. refs_of rs.items) result)
        (seen (R.remaining (device_of reader.new)) reader.new) }
{
    let mut refs = Vec::new(alloc);
    for _ in 0..count {
        let one = read_ref(alloc, reader, bound)?;
        refs.push(one)?;
    }
    Ok(refs)
}

// All refs, after their count.
fn read_refs<R: Read>(
    alloc: Global,
    reader: &mut Counted<R>,
    bound: u64,
) -> Result<Vec<RawRef>, Fault>
    ensures { ReadsValue bound (counted_at ref_at)
        (seen (R.remaining (device_of reader.old)) reader.old)
        (shown (λ rs. refs_of rs.items) result)
        (seen (R.remaining (device_of reader.new)) reader.new) }
{
    let count = read_u64(reader, bound)?;
    read_many_refs(alloc, reader, bound, count)
}

// The ref that HEAD names. Version 1 does not store it: it is `refs/heads/main`.
fn read_head<R: Read>(
    alloc: Global,
    reader: &mut Counted<R>,
    bound: u64,
    version: u32,
) -> Result<Vec<u8>, Fault>
    ensures { ReadsValue bound (head_at version)
        (seen (R.remaining (device_of reader.old)) reader.old) (shown (λ bytes. bytes.items) result)
        (seen (R.remaining (device_of reader.new)) reader.new) }
{
    if version == 1 {
        return Ok(Vec::from_slice(alloc, FIRST_HEAD)?);
    }
    read_short(alloc, reader, bound)
}

// A tenant.
fn read_tenant<R: Read>(
    alloc: Global,
    reader: &mut Counted<R>,
    bound: u64,
    version: u32,
) -> Result<RawTenant, Fault>
    ensures { ReadsValue bound (tenant_at version)
        (seen (R.remaining (device_of reader.old)) reader.old) (shown tenant_of result)
        (seen (R.remaining (device_of reader.new)) reader.new) }
{
    let name = read_short(alloc, reader, bound)?;
    let numbers = read_numbers(alloc, reader, bound)?;
    let refs = read_refs(alloc, reader, bound)?;
    let head = read_head(alloc, reader, bound, version)?;
    Ok(RawTenant {
        name,
        numbers,
        refs,
        head,
    })
}

// `count` tenants.
fn read_many_tenants<R: Read>(
    alloc: Global,
    reader: &mut Counted<R>,
    bound: u64,
    version: u32,
    count: u64,
) -> Result<Vec<RawTenant>, Fault>
    ensures { ReadsValue bound (many_at (tenant_at version) count)
        (seen (R.remaining (device_of reader.old)) reader.old)
        (shown (λ ts. tenants_of ts.items) result)
        (seen (R.remaining (device_of reader.new)) reader.new) }
{
    let mut tenants = Vec::new(alloc);
    for _ in 0..count {
        let tenant = read_tenant(alloc, reader, bound, version)?;
        tenants.push(tenant)?;
    }
    Ok(tenants)
}

/// All tenants, after their count.
pub fn read_tenants<R: Read>(
    alloc: Global,
    reader: &mut Counted<R>,
    bound: u64,
    version: u32,
) -> Result<Vec<RawTenant>, Fault>
    ensures { ReadsValue bound (counted_at (tenant_at version))
        (seen (R.remaining (device_of reader.old)) reader.old)
        (shown (λ ts. tenants_of ts.items) result)
        (seen (R.remaining (device_of reader.new)) reader.new) }
{
    let count = read_u64(reader, bound)?;
    read_many_tenants(alloc, reader, bound, version, count)
}
