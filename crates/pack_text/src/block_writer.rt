//! A sink that gathers bytes in blocks, which it feeds to a digest and writes to a device.

ghost use Rattle.std.specs.{Prelude.{◌≡◌, [], ◌++◌, OnOk}, Bool.{OnTrue, OnFalse}};
ghost use Rattle.byte_devices.specs.Device.{device_of, seen};
ghost use Rattle.pool_file_format.specs.Sinks.{Gives, Goes, Writes};
ghost use Rattle.pack_text.specs.BlockWriting.{TookBlocks, FailedBlocks};
ghost use Rattle.pack_text.specs.AddingUp.{blocks_add_up};

use crate::sink::Sink;
use byte_devices::{Counted, DeviceFault, write_all};
use pool_file_format::DigestState;
use std::io::Write;

// More bytes than this never wait. The largest stored block fits, after small pieces of others.
const BLOCK: usize = 131_072;

// Adds a piece to a block if there is room and memory, and tells whether it did.
fn keep(block: &mut Vec<u8>, bytes: &[u8]) -> bool
    ensures kept { OnTrue result (block.new.items ≡ block.old.items ++ bytes.now) }
    ensures left { OnFalse result (block.new.items ≡ block.old.items) }
{
    let room = BLOCK.saturating_sub(block.len());
    bytes.len() < room && block.extend_from_slice(bytes).is_ok()
}

/// Writes all bytes, or a prefix of them.
pub fn write_bytes<W: Write>(writer: &mut Counted<W>, bytes: &[u8]) -> Result<(), DeviceFault>
    ensures { Writes (seen (W.contents (device_of writer.old)) writer.old) result
        (seen (W.contents (device_of writer.new)) writer.new) bytes.now }
{
    write_all(writer, bytes)
}

// Feeds bytes to a digest and writes them.
fn send<D: DigestState, W: Write>(
    running: &mut D,
    writer: &mut Counted<W>,
    bytes: &[u8],
) -> Result<(), DeviceFault>
    ensures digested { Goes D.Holds running.old running.new bytes.now }
    ensures written { Writes (seen (W.contents (device_of writer.old)) writer.old) result
        (seen (W.contents (device_of writer.new)) writer.new) bytes.now }
{
    running.update(bytes);
    write_bytes(writer, bytes)
}

/// A digest and a writer that get their bytes in blocks. Small pieces wait for the next ones. If
/// there is no memory for a block, each piece is passed on at once.
#[derive(Drop)]
pub struct BlockWriter<'a, D: DigestState, W> {
    pub running: D,
    pub block: Vec<u8>,
    pub writer: &'a mut Counted<W>,
}

impl<'a, D: DigestState, W: Write> BlockWriter<'a, D, W> {
    /// Passes on the block, and empties it.
    pub fn pass_on(&mut self) -> Result<(), DeviceFault>
        ensures gives { Gives (TookBlocks D.Holds W.contents) (FailedBlocks D.Holds W.contents)
            self.old result self.new [] }
        ensures none { OnOk result (self.new.block.items ≡ []) }
    {
        send(&mut self.running, self.writer, &self.block)?;
        self.block.clear();
        Ok(())
    }
}

impl<'a, D: DigestState, W: Write> Sink for BlockWriter<'a, D, W> {
    ghost Took = { TookBlocks D.Holds W.contents };

    ghost Failed = { FailedBlocks D.Holds W.contents };

    ghost adds_up = { blocks_add_up D.Holds W.contents };

    fn take(&mut self, bytes: &[u8]) -> Result<(), DeviceFault> {
        if keep(&mut self.block, bytes) {
            return Ok(());
        }
        self.pass_on()?;
        if keep(&mut self.block, bytes) {
            return Ok(());
        }
        send(&mut self.running, self.writer, bytes)
    }
}
