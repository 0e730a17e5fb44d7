//! Where the bytes of an entry go.

ghost use Rattle.std.specs.Prelude.{ℕ, List};
ghost use Rattle.pool_file_format.specs.Sinks.{Gives, AddsUp};
ghost use Rattle.pack_text.specs.{Sinks.{HasAppended, HasBegun}, AddingUp.{vectors_add_up}};

use byte_devices::DeviceFault;

/// Takes bytes, one piece after another.
pub trait Sink {
    // The sink took these bytes between two states.
    ghost Took: { Self → Self → List ℕ → Type 0 };

    // The sink failed at some of these bytes between two states.
    ghost Failed: { Self → Self → List ℕ → Type 0 };

    /// Takes a whole piece, or fails.
    fn take(&mut self, bytes: &[u8]) -> Result<(), DeviceFault>
        ensures { Gives Took Failed self.old result self.new bytes.now };

    ghost adds_up: { AddsUp Took Failed };
}

// A vector fails if memory runs out.
impl Sink for Vec<u8> {
    ghost Took = { λ old new bytes. HasAppended old.items new.items bytes };

    ghost Failed = { λ old new bytes. HasBegun old.items new.items };

    ghost adds_up = { vectors_add_up };

    fn take(&mut self, bytes: &[u8]) -> Result<(), DeviceFault> {
        match self.extend_from_slice(bytes) {
            Ok(()) => Ok(()),
            Err(_) => Err(DeviceFault),
        }
    }
}
