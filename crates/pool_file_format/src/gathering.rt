//! Sinks in front of another sink: one also feeds its pieces to a digest, one gathers them in
//! blocks.

ghost use Rattle.std.specs.{Prelude.{◌≡◌, [], ◌++◌, OnOk}, Bool.{OnTrue, OnFalse}};
ghost use Rattle.pool_file_format.specs.Sinks.{Gives, TookBoth, FailedBoth, TookBlocks};
ghost use Rattle.pool_file_format.specs.Sinks.{FailedBlocks};
ghost use Rattle.pool_file_format.specs.AddingUp.{digested_adds_up, gathered_adds_up};

use crate::digesting::DigestState;
use crate::sink::Sink;
use byte_devices::DeviceFault;

/// A sink whose pieces are also fed to a digest.
#[derive(Drop)]
pub struct HashingWriter<'a, D, S> {
    pub running: &'a mut D,
    pub sink: &'a mut S,
}

impl<'a, D: DigestState, S: Sink> Sink for HashingWriter<'a, D, S> {
    ghost Took = { TookBoth D.Holds S.Took };

    ghost Failed = { FailedBoth S.Failed };

    ghost adds_up = { digested_adds_up D.Holds S.Took S.Failed S.adds_up };

    fn take(&mut self, bytes: &[u8]) -> Result<(), DeviceFault> {
        self.running.update(bytes);
        self.sink.take(bytes)
    }
}

// How many bytes wait before they are passed on.
const BLOCK: usize = 65_536;

/// Passes pieces on to a sink in blocks: small pieces wait for the next ones, and large ones are
/// passed on as they are. If there is no memory for a block, each piece is passed on at once.
#[derive(Drop)]
pub struct Buffered<'a, S> {
    pub block: Vec<u8>,
    pub sink: &'a mut S,
}

impl<'a, S: Sink> Buffered<'a, S> {
    // Adds the piece to the block if there is room, and tells whether it did.
    fn keep(&mut self, bytes: &[u8]) -> bool
        ensures kept { OnTrue result (self.new.block.items ≡ self.old.block.items ++ bytes.now) }
        ensures left { OnFalse result (self.new.block.items ≡ self.old.block.items) }
        ensures sink { self.new.sink ≡ self.old.sink }
    {
        let room = BLOCK.saturating_sub(self.block.len());
        bytes.len() < room && self.block.extend_from_slice(bytes).is_ok()
    }

    /// Passes on the block, and empties it.
    pub fn pass_on(&mut self) -> Result<(), DeviceFault>
        ensures gives { Gives S.Took S.Failed self.old.sink.now result self.new.sink.now
            self.old.block.items }
        ensures same { self.new.sink.ghost_name ≡ self.old.sink.ghost_name }
        ensures none { OnOk result (self.new.block.items ≡ []) }
    {
        self.sink.take(&self.block)?;
        self.block.clear();
        Ok(())
    }
}

impl<'a, S: Sink> Sink for Buffered<'a, S> {
    ghost Took = { TookBlocks S.Took };

    ghost Failed = { FailedBlocks S.Failed };

    ghost adds_up = { gathered_adds_up S.Took S.Failed S.adds_up };

    fn take(&mut self, bytes: &[u8]) -> Result<(), DeviceFault> {
        if self.keep(bytes) {
            return Ok(());
        }
        self.pass_on()?;
        if self.keep(bytes) {
            return Ok(());
        }
        self.sink.take(bytes)
    }
}
