//! A reader and a writer for tests that share a count. They check that replies are written before
//! more is read.

ghost use Rattle.std.specs.Prelude.{None};

use super::devices::{STREAM, replied};
use super::frames::{FRAMES, answered, serve_empty};
use super::one_byte::OneByte;
use gitpool::{Counted, Sha1Naming, import_one};
use std::alloc::Global;
use std::cell::Cell;
use std::io;
use std::io::{Read, Write};

// What has to be written.
#[derive(Clone, Copy)]
enum Due {
    Replies,
    Answers,
}

impl Due {
    // The number of bytes that are due after the first `given` bytes were read.
    fn size(self, given: usize) -> usize {
        match self {
            Due::Replies => replied(given),
            Due::Answers => answered(given),
        }
    }
}

// Gives one byte a call, and counts the calls before which more or fewer bytes were written than
// are due for the bytes given so far.
#[derive(Drop)]
struct WatchingReader<'a> {
    reader: OneByte<'a>,
    due: Due,
    given: usize,
    written: &'a Cell<u64>,
    late: &'a Cell<u64>,
}

impl<'a> Read for WatchingReader<'a> {
    ghost remaining = { λ r. None };

    fn read(&mut self, buf: &mut [u8]) -> io::Result<usize> {
        if self.written.get() != self.due.size(self.given) as u64 {
            self.late.set(self.late.get().saturating_add(1));
        }
        self.given = self.given.saturating_add(1);
        self.reader.read(buf)
    }
}

// Accepts all bytes, and counts them.
#[derive(Drop)]
struct WatchedWriter<'a> {
    written: &'a Cell<u64>,
}

impl<'a> Write for WatchedWriter<'a> {
    ghost contents = { λ w. None };

    fn write(&mut self, buf: &[u8]) -> io::Result<usize> {
        self.written
            .set(self.written.get().saturating_add(buf.len() as u64));
        Ok(buf.len())
    }

    fn flush(&mut self) -> io::Result<()> {
        Ok(())
    }
}

// Whether the bytes are imported, or served as frames over an empty service, without a fault.
fn runs<R: Read, W: Write>(
    alloc: Global,
    due: Due,
    reader: &mut Counted<R>,
    writer: &mut Counted<W>,
) -> bool {
    match due {
        Due::Replies => import_one(alloc, Sha1Naming, reader, writer).is_ok(),
        Due::Answers => serve_empty(alloc, Sha1Naming, reader, writer).is_ok(),
    }
}

// Whether this ends without a fault, how many bytes were read and written, and how many calls of the
// reader found that more or fewer bytes were written than are due.
fn runs_watched(alloc: Global, due: Due, bytes: &[u8]) -> (bool, (u64, u64, u64)) {
    let written = Cell::new(0);
    let late = Cell::new(0);
    let mut reader = Counted::new(WatchingReader {
        reader: OneByte::new(bytes),
        due,
        given: 0,
        written: &written,
        late: &late,
    });
    let mut writer = Counted::new(WatchedWriter { written: &written });
    let is_well = runs(alloc, due, &mut reader, &mut writer);
    (is_well, (reader.passed(), written.get(), late.get()))
}

#[test]
fn writes_each_reply_before_it_reads_on(rt: HostRuntime) {
    let watched = runs_watched(rt.alloc(), Due::Replies, STREAM);
    assert_eq!(rt; watched, (true, (49, 52, 0)));
}

#[test]
fn writes_each_answer_before_it_reads_on(rt: HostRuntime) {
    let watched = runs_watched(rt.alloc(), Due::Answers, FRAMES);
    assert_eq!(rt; watched, (true, (47, 79, 0)));
}
