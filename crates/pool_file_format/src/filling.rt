//! Reading a given number of bytes, and numbers.

ghost use Rattle.std.specs.{Prelude.{◌≡◌, ◌≤◌, ◌++◌, length, replicate, OnOk}, Int.{w16, w32, w64}};
ghost use Rattle.byte_devices.specs.Device.{device_of, seen};
ghost use Rattle.pool_file_format.specs.Lengths.{bytes_at, number_at};
ghost use Rattle.pool_file_format.specs.Taking.{shown, ReadsValue, Adds};

use crate::fault::Fault;
use crate::refusal::Refusal;
use byte_devices::Counted;
use std::alloc::{AllocError, Global};
use std::io::Read;

// How many bytes of a text are read at once.
const BLOCK: u64 = 65_536;

// How many bytes of a text are allocated before the first of them is read, at most.
const ROOM: u64 = 1_048_576;

// How many bytes are cleared at once. For longer pieces the C library takes an instruction that is
// slow on memory that was never touched.
const CLEARED: usize = 2_048;

/// Fills `room` with the next bytes of the reader, in as many calls of `read` as that takes.
///
/// `CutOff` (62) if the input ends first. `Device` (68) if a call failed, or if `room` is not yet
/// full and the reader's count of calls has reached `bound`.
pub fn fill<R: Read>(reader: &mut Counted<R>, bound: u64, room: &mut [u8]) -> Result<(), Fault>
    ensures reads { ReadsValue bound (bytes_at (length room.new))
        (seen (R.remaining (device_of reader.old)) reader.old) (shown (λ _. room.new) result)
        (seen (R.remaining (device_of reader.new)) reader.new) }
    ensures length { length room.new ≡ length room.old }
{
    let _passed = reader.passed();
    let mut filled = 0;
    while filled < room.len() {
        if reader.calls() >= bound {
            return Err(Fault::Device);
        }
        match reader.read(room.split_at_mut(filled).1) {
            Ok(0) => return Err(Fault::Refused(Refusal::CutOff)),
            Ok(n) => filled += n,
            Err(_) => return Err(Fault::Device),
        }
    }
    Ok(())
}

/// A number of two bytes.
pub fn read_u16<R: Read>(reader: &mut Counted<R>, bound: u64) -> Result<u16, Fault>
    ensures { ReadsValue bound (number_at w16)
        (seen (R.remaining (device_of reader.old)) reader.old) (shown (λ n. n) result)
        (seen (R.remaining (device_of reader.new)) reader.new) }
{
    let mut bytes = [0; 2];
    fill(reader, bound, &mut bytes)?;
    Ok(u16::from_be_bytes(bytes))
}

/// A number of four bytes.
pub fn read_u32<R: Read>(reader: &mut Counted<R>, bound: u64) -> Result<u32, Fault>
    ensures { ReadsValue bound (number_at w32)
        (seen (R.remaining (device_of reader.old)) reader.old) (shown (λ n. n) result)
        (seen (R.remaining (device_of reader.new)) reader.new) }
{
    let mut bytes = [0; 4];
    fill(reader, bound, &mut bytes)?;
    Ok(u32::from_be_bytes(bytes))
}

/// A number of eight bytes.
pub fn read_u64<R: Read>(reader: &mut Counted<R>, bound: u64) -> Result<u64, Fault>
    ensures { ReadsValue bound (number_at w64)
        (seen (R.remaining (device_of reader.old)) reader.old) (shown (λ n. n) result)
        (seen (R.remaining (device_of reader.new)) reader.new) }
{
    let mut bytes = [0; 8];
    fill(reader, bound, &mut bytes)?;
    Ok(u64::from_be_bytes(bytes))
}

// Appends `count` zeros to a vector.
fn add_zeros(bytes: &mut Vec<u8>, count: usize) -> Result<(), AllocError>
    ensures { OnOk result (bytes.new.items ≡ bytes.old.items ++ replicate count 0) }
{
    let mut left = count;
    while left > 0 {
        let piece = left.min(CLEARED);
        let length = bytes.as_slice().len() + piece;
        bytes.resize(length, 0)?;
        left -= piece;
    }
    Ok(())
}

// Appends the next `block` bytes of the reader to a vector.
fn fill_more<R: Read>(
    reader: &mut Counted<R>,
    bound: u64,
    bytes: &mut Vec<u8>,
    block: usize,
) -> Result<(), Fault>
    requires { block ≤ 65536 }
    ensures { Adds bound block bytes.old.items
        (seen (R.remaining (device_of reader.old)) reader.old) result bytes.new.items
        (seen (R.remaining (device_of reader.new)) reader.new) }
{
    let start = bytes.as_slice().len();
    add_zeros(bytes, block)?;
    fill(reader, bound, bytes.split_at_mut(start).1)
}

/// `count` bytes, read in blocks. The count may be false, so at most a MiB is allocated before the
/// bytes come.
pub fn read_bytes<R: Read>(
    alloc: Global,
    reader: &mut Counted<R>,
    bound: u64,
    count: u64,
) -> Result<Vec<u8>, Fault>
    ensures { ReadsValue bound (bytes_at count)
        (seen (R.remaining (device_of reader.old)) reader.old) (shown (λ bytes. bytes.items) result)
        (seen (R.remaining (device_of reader.new)) reader.new) }
{
    let mut bytes = Vec::with_capacity(alloc, count.min(ROOM) as usize)?;
    let mut left = count;
    while left > 0 {
        let block = left.min(BLOCK);
        fill_more(reader, bound, &mut bytes, block as usize)?;
        left -= block;
    }
    Ok(bytes)
}
