//! Fills a buffer from a counted reader.

ghost use Rattle.std.specs.Prelude.{◌≡◌, length};
ghost use Rattle.byte_devices.specs.{Device.{device_of, seen}, Reading.{AreBytes, Fills}};

use crate::counted::Counted;
use crate::fill_fault::FillFault;
use std::io::Read;

/// Fills the buffer `room` with the next bytes of the reader, in as many calls of `read` as the
/// reader needs. Takes no memory.
///
/// `FillFault::Ended` (51) if the input ended before the buffer was full, `FillFault::Failed` (68)
/// if a call of `read` answered an error. The bytes in the buffer are then unspecified; the
/// reader's `passed` shows how many were read.
pub fn fill<R: Read>(reader: &mut Counted<R>, room: &mut [u8]) -> Result<(), FillFault>
    ensures fills { Fills (seen (R.remaining (device_of reader.old)) reader.old) result
        (seen (R.remaining (device_of reader.new)) reader.new) room.new }
    ensures bytes { AreBytes room.new }
    ensures length { length room.new ≡ length room.old }
{
    let _passed = reader.passed();
    let mut filled = 0;
    while filled < room.len() {
        match reader.read(room.split_at_mut(filled).1) {
            Ok(0) => return Err(FillFault::Ended),
            Ok(n) => filled += n,
            Err(_) => return Err(FillFault::Failed),
        }
    }
    Ok(())
}
