//! Writes whole texts to a counted writer.

ghost use Rattle.std.specs.{Prelude.{◌≡◌, OnOk, OnErr}, Io.KnownBytes.{Appends}};
ghost use Rattle.byte_devices.specs.Device.{device_of, faults_of, HasFault, AppendsFront};

use crate::counted::Counted;
use crate::device_fault::DeviceFault;
use std::io::Write;

/// Writes all bytes, in as many calls of `write` as the writer needs. Takes no memory.
///
/// `DeviceFault` (68) if a call answered an error or took nothing. A prefix of the bytes is then
/// written, and exactly one call failed: the writer's `faults` went up by one, unless they were at
/// their greatest value.
pub fn write_all<W: Write>(writer: &mut Counted<W>, bytes: &[u8]) -> Result<(), DeviceFault>
    ensures written { OnOk result (Appends (W.contents (device_of writer.old))
        (W.contents (device_of writer.new)) bytes.now) }
    ensures well { OnOk result (faults_of writer.new ≡ faults_of writer.old) }
    ensures front { OnErr result (AppendsFront (W.contents (device_of writer.old))
        (W.contents (device_of writer.new)) bytes.now) }
    ensures cause { OnErr result (HasFault (faults_of writer.old) (faults_of writer.new)) }
{
    let mut left = bytes;
    while !left.is_empty() {
        match writer.write(left) {
            Ok(0) => return Err(DeviceFault),
            Err(_) => return Err(DeviceFault),
            Ok(taken) => left = left.split_at(taken).1,
        }
    }
    Ok(())
}
