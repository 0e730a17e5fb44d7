//! Bytes that follow their length.

ghost use Rattle.std.specs.Int.{w16, w32};
ghost use Rattle.byte_devices.specs.Device.{device_of, seen};
ghost use Rattle.service_steps.specs.Reading.{ReadsNumber, ReadsRoom, ReadsSized};

use crate::frame_fault::FrameFault;
use byte_devices::{Counted, fill};
use std::io::Read;

// A number of two bytes.
fn read_u16<R: Read>(reader: &mut Counted<R>) -> Result<u16, FrameFault>
    ensures { ReadsNumber w16 (seen (R.remaining (device_of reader.old)) reader.old) result
        (seen (R.remaining (device_of reader.new)) reader.new) }
{
    let mut bytes = [0; 2];
    fill(reader, &mut bytes)?;
    Ok(u16::from_be_bytes(bytes))
}

// A number of four bytes.
fn read_u32<R: Read>(reader: &mut Counted<R>) -> Result<u32, FrameFault>
    ensures { ReadsNumber w32 (seen (R.remaining (device_of reader.old)) reader.old) result
        (seen (R.remaining (device_of reader.new)) reader.new) }
{
    let mut bytes = [0; 4];
    fill(reader, &mut bytes)?;
    Ok(u32::from_be_bytes(bytes))
}

// The next `n` bytes, if `n` is within the limit.
fn read_room<R: Read>(
    reader: &mut Counted<R>,
    n: usize,
    limit: usize,
    room: &mut Vec<u8>,
) -> Result<(), FrameFault>
    ensures { ReadsRoom n limit (seen (R.remaining (device_of reader.old)) reader.old) result
        (seen (R.remaining (device_of reader.new)) reader.new) room.new.items }
{
    let _passed = reader.passed();
    if n > limit {
        return Err(FrameFault::BadFrame);
    }
    room.resize_with(n, || 0)?;
    fill(reader, room)?;
    Ok(())
}

/// Reads a length in two bytes, and as many bytes, at most `limit`, into `room`.
pub fn read_after_u16<R: Read>(
    reader: &mut Counted<R>,
    limit: usize,
    room: &mut Vec<u8>,
) -> Result<(), FrameFault>
    ensures { ReadsSized w16 limit (seen (R.remaining (device_of reader.old)) reader.old) result
        (seen (R.remaining (device_of reader.new)) reader.new) room.new.items }
{
    let n = read_u16(reader)?;
    read_room(reader, n as usize, limit, room)
}

/// Reads a length in four bytes, and as many bytes, at most `limit`, into `room`.
pub fn read_after_u32<R: Read>(
    reader: &mut Counted<R>,
    limit: usize,
    room: &mut Vec<u8>,
) -> Result<(), FrameFault>
    ensures { ReadsSized w32 limit (seen (R.remaining (device_of reader.old)) reader.old) result
        (seen (R.remaining (device_of reader.new)) reader.new) room.new.items }
{
    let n = read_u32(reader)?;
    read_room(reader, n as usize, limit, room)
}
