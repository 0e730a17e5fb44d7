//! Where the bytes of a file go.

ghost use Rattle.std.specs.Prelude.{ℕ, List};
ghost use Rattle.byte_devices.specs.Device.{device_of, seen};
ghost use Rattle.pool_file_format.specs.Sinks.{Gives, AddsUp, HasWritten, HasBroken};
ghost use Rattle.pool_file_format.specs.AddingUp.{writers_add_up};

use byte_devices::{Counted, DeviceFault, write_all};
use std::io::Write;

/// Takes bytes, one piece after another.
pub trait Sink {
    // The sink took these bytes between two states.
    ghost Took: { Self → Self → List ℕ → Type 0 };

    // The sink failed at some of these bytes between two states.
    ghost Failed: { Self → Self → List ℕ → Type 0 };

    /// Takes a whole piece, or fails. Needs no memory: a sink that gathers goes on without.
    fn take(&mut self, bytes: &[u8]) -> Result<(), DeviceFault>
        ensures { Gives Took Failed self.old result self.new bytes.now };

    ghost adds_up: { AddsUp Took Failed };
}

impl<W: Write> Sink for Counted<W> {
    ghost Took = { λ old new bytes. HasWritten (seen (W.contents (device_of old)) old)
        (seen (W.contents (device_of new)) new) bytes };

    ghost Failed = { λ old new bytes. HasBroken (seen (W.contents (device_of old)) old)
        (seen (W.contents (device_of new)) new) bytes };

    ghost adds_up = { writers_add_up W.contents };

    fn take(&mut self, bytes: &[u8]) -> Result<(), DeviceFault> {
        write_all(self, bytes)
    }
}
