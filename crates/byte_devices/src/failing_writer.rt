//! A writer for tests: it takes one byte a call until a chosen call, which fails, as do all later
//! calls.

ghost use Rattle.std.specs.{Prelude.{◌≡◌, ◌-◌, ◌≤◌, IsErr, IfOk, take}, Io.{WritesAtMost}};
ghost use Rattle.std.specs.Io.KnownBytes.{WriteAppends};
ghost use Rattle.byte_devices.specs.Failing.{writer_of, writes_left};

use std::io;
use std::io::{ErrorKind, Write};

/// A writer that takes at most one byte a call. It fails at its call `nth`, counted from 0, and at
/// every later call.
#[derive(Drop)]
pub struct FailingWriter<W> {
    writer: W,
    writes_left: u64,
}

impl<W> FailingWriter<W> {
    /// A writer that passes the first byte of each of `nth` calls on to `writer` before it fails.
    pub fn new(writer: W, nth: u64) -> FailingWriter<W>
        ensures writer { writer_of result ≡ writer }
        ensures left { writes_left result ≡ nth }
    {
        FailingWriter {
            writer,
            writes_left: nth,
        }
    }

    /// Gives back the writer inside, with the bytes that it took.
    pub fn into_inner(self) -> W
        ensures { result ≡ writer_of self }
    {
        let FailingWriter { writer, .. } = self;
        writer
    }
}

impl<W: Write> Write for FailingWriter<W> {
    ghost contents = { λ w. W.contents (writer_of w) };

    fn write(&mut self, buf: &[u8]) -> io::Result<usize>
        ensures bound { WritesAtMost result buf.now }
        ensures bytes { WriteAppends (W.contents (writer_of self.old))
            (W.contents (writer_of self.new)) result buf.now }
        ensures one { IfOk result (λ n. n ≤ 1) }
        ensures fails { writes_left self.old ≡ 0 → IsErr result }
        ensures left { writes_left self.new ≡ writes_left self.old - 1 }
    {
        if self.writes_left == 0 {
            return Err(io::Error::from(ErrorKind::Other));
        }
        self.writes_left -= 1;
        self.writer.write(first_byte(buf))
    }

    fn flush(&mut self) -> io::Result<()> {
        self.writer.flush()
    }
}

// The first byte, or nothing if there is none.
fn first_byte(buf: &[u8]) -> &[u8]
    ensures { result.now ≡ take 1 buf.now }
{
    match buf {
        [_, ..] => buf.split_at(1).0,
        [] => buf,
    }
}
