//! Reading a whole file from a counted reader, by its lengths.

ghost use Rattle.std.specs.Prelude.{◌≡◌, ◌==◌, ◌||◌};
ghost use Rattle.byte_devices.specs.Device.{device_of, calls_of, counted_on, seen};
ghost use Rattle.git_model.specs.Limits.{reads_limit};
ghost use Rattle.pool_file_format.specs.Lengths.{bytes_at, expected_at, front_at, version_at};
ghost use Rattle.pool_file_format.specs.{Lengths.{body_at, end_at, by_lengths}, Shown.{file_of}};
ghost use Rattle.pool_file_format.specs.Taking.{shown, ReadsBy, ReadsValue, ReadsAll};

use crate::fault::Fault;
use crate::fields::{read_byte, read_objects, read_tenants};
use crate::filling::{fill, read_u32};
use crate::raw::RawFile;
use crate::refusal::Refusal;
use byte_devices::{Copied, Counted, Lending};
use std::alloc::Global;
use std::io::Read;

/// How many calls of `read` one file may take.
pub const READS_LIMIT: u64 = 1 << 32;

/// The first eight bytes of a file.
pub const MAGIC: &[u8] = b"gitpool\n";

// Reads a byte that must be this one.
fn read_expected<R: Read>(reader: &mut Counted<R>, bound: u64, expected: u8) -> Result<(), Fault>
    ensures { ReadsValue bound (expected_at expected)
        (seen (R.remaining (device_of reader.old)) reader.old) result
        (seen (R.remaining (device_of reader.new)) reader.new) }
{
    let byte = read_byte(reader, bound)?;
    if byte != expected {
        return Err(Fault::Refused(Refusal::NoPoolFile));
    }
    Ok(())
}

// Reads bytes that must be these, one by one, so that the first other byte is refused.
fn read_front<R: Read>(reader: &mut Counted<R>, bound: u64, expected: &[u8]) -> Result<(), Fault>
    ensures { ReadsValue bound (front_at expected.now)
        (seen (R.remaining (device_of reader.old)) reader.old) result
        (seen (R.remaining (device_of reader.new)) reader.new) }
{
    for byte in expected {
        read_expected(reader, bound, *byte)?;
    }
    Ok(())
}

// Whether files of this version can be read.
fn is_version(number: u32) -> bool
    ensures { result ≡ (number == 1 || number == 2) }
{
    number == 1 || number == 2
}

fn read_version<R: Read>(reader: &mut Counted<R>, bound: u64) -> Result<u32, Fault>
    ensures { ReadsValue bound version_at
        (seen (R.remaining (device_of reader.old)) reader.old) (shown (λ n. n) result)
        (seen (R.remaining (device_of reader.new)) reader.new) }
{
    let version = read_u32(reader, bound)?;
    if !is_version(version) {
        return Err(Fault::Refused(Refusal::UnknownVersion));
    }
    Ok(version)
}

// Everything before the digest.
fn read_body<R: Read, L: Lending<R>>(
    alloc: Global,
    reader: &mut Counted<R>,
    bound: u64,
) -> Result<RawFile, Fault>
    ensures { ReadsValue bound body_at
        (seen (R.remaining (device_of reader.old)) reader.old) (shown file_of result)
        (seen (R.remaining (device_of reader.new)) reader.new) }
{
    read_front(reader, bound, MAGIC)?;
    let version = read_version(reader, bound)?;
    let objects = read_objects::<R, L>(alloc, reader, bound)?;
    let tenants = read_tenants(alloc, reader, bound, version)?;
    Ok(RawFile {
        version,
        objects,
        tenants,
    })
}

fn read_digest<R: Read>(reader: &mut Counted<R>, bound: u64) -> Result<[u8; 20], Fault>
    ensures { ReadsValue bound (bytes_at 20)
        (seen (R.remaining (device_of reader.old)) reader.old) (shown (λ bytes. bytes) result)
        (seen (R.remaining (device_of reader.new)) reader.new) }
{
    let mut bytes = [0; 20];
    fill(reader, bound, &mut bytes)?;
    Ok(bytes)
}

// The end of the input.
fn read_end<R: Read>(reader: &mut Counted<R>, bound: u64) -> Result<(), Fault>
    ensures { ReadsBy 1 bound end_at
        (seen (R.remaining (device_of reader.old)) reader.old) result
        (seen (R.remaining (device_of reader.new)) reader.new) }
{
    if reader.calls() >= bound {
        return Err(Fault::Device);
    }
    let mut byte = [0];
    match reader.read(&mut byte) {
        Ok(0) => Ok(()),
        Ok(_) => Err(Fault::Refused(Refusal::TrailingBytes)),
        Err(_) => Err(Fault::Device),
    }
}

// A file, and the digest after it.
fn read_whole<R: Read, L: Lending<R>>(
    alloc: Global,
    reader: &mut Counted<R>,
    bound: u64,
) -> Result<(RawFile, [u8; 20]), Fault>
    ensures { ReadsBy 1 bound by_lengths
        (seen (R.remaining (device_of reader.old)) reader.old)
        (shown (λ whole. (file_of whole.0, whole.1)) result)
        (seen (R.remaining (device_of reader.new)) reader.new) }
{
    let file = read_body::<R, L>(alloc, reader, bound)?;
    let digest = read_digest(reader, bound)?;
    read_end(reader, bound)?;
    Ok((file, digest))
}

/// Reads a file by its lengths, and the digest after it, up to the end of the input. Judges neither
/// the digest nor what the file says.
///
/// - `Refused` with the first fault from left to right: `NoPoolFile` (60) at the first byte that
///   differs from `gitpool LF`, `UnknownVersion` (61) if the version is not 1 or 2, `CutOff` (62)
///   if the input ends early, `TrailingBytes` (69) if it goes on after the digest.
/// - `Device` (68) if a call of `read` answered an error, or if 2^32 calls were made.
/// - `Memory` (90) if there is no memory for what is read.
///
/// What was read is gone from the reader; after a file, nothing is left in it.
pub fn read_file<R: Read>(
    alloc: Global,
    reader: &mut Counted<R>,
) -> Result<(RawFile, [u8; 20]), Fault>
    ensures { ReadsAll (counted_on (calls_of reader.old) reads_limit) by_lengths
        (seen (R.remaining (device_of reader.old)) reader.old)
        (shown (λ whole. (file_of whole.0, whole.1)) result)
        (seen (R.remaining (device_of reader.new)) reader.new) }
{
    read_file_by::<R, Copied>(alloc, reader)
}

/// `read_file` with contents that are lent, if `L` lends them; they are not copied then.
pub fn read_file_by<R: Read, L: Lending<R>>(
    alloc: Global,
    reader: &mut Counted<R>,
) -> Result<(RawFile, [u8; 20]), Fault>
    ensures { ReadsAll (counted_on (calls_of reader.old) reads_limit) by_lengths
        (seen (R.remaining (device_of reader.old)) reader.old)
        (shown (λ whole. (file_of whole.0, whole.1)) result)
        (seen (R.remaining (device_of reader.new)) reader.new) }
{
    let _passed = reader.passed();
    let bound = reader.calls().saturating_add(READS_LIMIT);
    read_whole::<R, L>(alloc, reader, bound)
}
