//! A reader for tests: it reads from another reader until a chosen call, which fails, as do all
//! later calls.

ghost use Rattle.std.specs.{Prelude.{◌≡◌, ◌-◌, IsErr}, Io.{ReadsAtMost}};
ghost use Rattle.std.specs.Io.KnownBytes.{ReadConsumes};
ghost use Rattle.byte_devices.specs.Failing.{reader_of, reads_left};

use std::io;
use std::io::{ErrorKind, Read};

/// A reader that fails at its call `nth`, counted from 0, and at every later call.
#[derive(Drop)]
pub struct FailingReader<R> {
    reader: R,
    reads_left: u64,
}

impl<R> FailingReader<R> {
    /// A reader that passes `nth` calls on to `reader` before it fails.
    pub fn new(reader: R, nth: u64) -> FailingReader<R>
        ensures reader { reader_of result ≡ reader }
        ensures left { reads_left result ≡ nth }
    {
        FailingReader {
            reader,
            reads_left: nth,
        }
    }
}

impl<R: Read> Read for FailingReader<R> {
    ghost remaining = { λ r. R.remaining (reader_of r) };

    fn read(&mut self, buf: &mut [u8]) -> io::Result<usize>
        ensures bound { ReadsAtMost result buf.new }
        ensures bytes { ReadConsumes (R.remaining (reader_of self.old))
            (R.remaining (reader_of self.new)) result buf.new }
        ensures fails { reads_left self.old ≡ 0 → IsErr result }
        ensures left { reads_left self.new ≡ reads_left self.old - 1 }
    {
        if self.reads_left == 0 {
            return Err(io::Error::from(ErrorKind::Other));
        }
        self.reads_left -= 1;
        self.reader.read(buf)
    }
}
