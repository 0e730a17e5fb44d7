//! Readers that may lend what comes next, and ways to ask a reader for that.

ghost use Rattle.std.specs.Prelude.{◌≡◌, length, IfSome, None};
ghost use Rattle.std.specs.Io.KnownBytes.{Consumes};
ghost use Rattle.byte_devices.specs.{Device.{device_of, seen}, Reading.{HasLent}};

use crate::counted::Counted;
use std::io::Read;

/// A reader that may lend its next bytes for as long as the process lives.
pub trait Lends: Read {
    /// The next `count` bytes, which are then gone from the reader. `None` if the reader does not
    /// lend them; it has not changed then, and `read` still gives them.
    fn lend(&mut self, count: u64) -> Option<&'static [u8]>
        ensures length { IfSome result (λ bytes. length bytes.now ≡ count) }
        ensures next { IfSome result
            (λ bytes. Consumes (Self.remaining self.old) (Self.remaining self.new) bytes.now) }
        ensures none { result ≡ None → self.new ≡ self.old };
}

/// A way to ask a counted reader for a loan. A type parameter chooses it, so that a call that takes
/// every reader has one body for readers that lend and for readers that do not.
pub trait Lending<R: Read> {
    /// The next `count` bytes, lent for as long as the process lives and counted as passed. `None`
    /// if they are not lent; the reader has not changed then. No call and no fault is counted.
    fn lend(reader: &mut Counted<R>, count: u64) -> Option<&'static [u8]>
        ensures lent { IfSome result
            (λ bytes. HasLent (seen (R.remaining (device_of reader.old)) reader.old) count
            (seen (R.remaining (device_of reader.new)) reader.new) bytes.now) }
        ensures none { result ≡ None → reader.new ≡ reader.old };
}

/// Never asks: a caller reads all bytes and has a copy of them.
pub struct Copied;

impl<R: Read> Lending<R> for Copied {
    fn lend(_reader: &mut Counted<R>, _count: u64) -> Option<&'static [u8]> {
        None
    }
}

/// Asks the reader each time.
pub struct Lent;

impl<R: Lends> Lending<R> for Lent {
    fn lend(reader: &mut Counted<R>, count: u64) -> Option<&'static [u8]> {
        reader.lend(count)
    }
}
