//! Digests that take their message piece by piece.

ghost use Rattle.std.specs.Prelude.{◌≡◌, ◌+◌, ◌%◌, ℕ, List, [], sum};
ghost use Rattle.pool_file_format.specs.{Sinks.{Goes}, AddingUp.{fed_adds_up}};

use crate::sink::Sink;
use byte_devices::DeviceFault;
use git_names::{Naming, Sha1Naming, TailNaming};
use sha1::Sha1;

/// A digest between two pieces of its message.
pub trait DigestState: Drop {
    // The bytes fed so far.
    ghost Holds: { Self → List ℕ → Type 0 };

    /// Feeds more bytes. Takes no memory.
    fn update(&mut self, bytes: &[u8])
        ensures { Goes Holds self.old self.new bytes.now };
}

/// A naming whose digest takes its message piece by piece, so that the digest of a pool file needs
/// no copy of the file in memory.
///
/// To save or load under a naming of your own, give it `start`, which begins a digest, and `end`,
/// which finishes it; its `Run` takes the pieces.
pub trait StreamingDigest: Naming {
    /// The digest between two pieces.
    type Run: DigestState;

    /// Begins a digest to which nothing has been fed yet.
    fn start(&self) -> Self::Run
        ensures { Self.Run.Holds result [] };

    /// The digest of all that was fed.
    fn end(run: Self::Run) -> [u8; 20]
        ensures { (message : List ℕ) → Self.Run.Holds run message
            → result ≡ Self.digest_of message };
}

impl DigestState for Sha1 {
    ghost use Rattle.sha1.specs.Sha1 as of;

    ghost Holds = { of.Holds };

    fn update(&mut self, bytes: &[u8]) {
        Sha1::update(self, bytes)
    }
}

impl StreamingDigest for Sha1Naming {
    type Run = Sha1;

    fn start(&self) -> Sha1 {
        Sha1::new()
    }

    fn end(run: Sha1) -> [u8; 20] {
        run.finalize()
    }
}

/// The sum of all bytes so far, modulo 256.
#[derive(Clone, Copy, Debug, Drop)]
pub struct TailSum {
    sum: u8,
}

// The sum after more bytes, modulo 256.
fn sum_after(start: u8, bytes: &[u8]) -> u8
    ensures { result ≡ (start + sum bytes.now) % 256 }
{
    let mut sum = start;
    for byte in bytes {
        sum = sum.wrapping_add(*byte);
    }
    sum
}

impl DigestState for TailSum {
    ghost use Rattle.pool_file_format.specs.Sinks.{SumsTo};

    ghost Holds = { SumsTo };

    fn update(&mut self, bytes: &[u8]) {
        self.sum = sum_after(self.sum, bytes);
    }
}

impl StreamingDigest for TailNaming {
    type Run = TailSum;

    fn start(&self) -> TailSum {
        TailSum { sum: 0 }
    }

    fn end(run: TailSum) -> [u8; 20] {
        let mut digest = [0xab; 20];
        digest[19] = run.sum;
        digest
    }
}

/// A digest as a sink, which never fails.
#[derive(Drop)]
pub struct Fed<D: DigestState> {
    pub running: D,
}

impl<D: DigestState> Sink for Fed<D> {
    ghost Took = { λ old new bytes. Goes D.Holds old.running new.running bytes };

    ghost Failed = { λ old new bytes. ⊥ };

    ghost adds_up = { fed_adds_up D.Holds };

    fn take(&mut self, bytes: &[u8]) -> Result<(), DeviceFault> {
        self.running.update(bytes);
        Ok(())
    }
}
