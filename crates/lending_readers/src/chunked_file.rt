//! A file that lends its bytes: it is read in chunks, which stay in memory for as long as the
//! process lives.
//!
//! What nobody borrows goes through a buffer, as in a `BufReader`. A chunk is read where somebody
//! asks for a loan, and begins with it. Bytes of a chunk that nobody borrows are lost memory: they
//! are at most an eighth of the file.

ghost use Rattle.std.specs.{Prelude.{◌≡◌, ◌≤◌, length, IfSome}, Io.{ReadsAtMost}};

use crate::placed_file::{PlacedFile, read_at_most};
use byte_devices::Lends;
use std::alloc::Global;
use std::io;
use std::io::{BufRead, BufReader, Read};
use std::os::unix::fs::FileExt;

// How many bytes are read ahead where no chunk is. More would copy large contents twice.
const READ_AHEAD: usize = 32_768;

// How many bytes a chunk has, at least and at most, if the loan is no longer and the file does not
// end. The C library maps an allocation of more than 32 MiB by itself.
const LEAST: u64 = 1_048_576;

const CHUNK: u64 = 67_108_864;

// The longest loan, which bounds what a false length takes before its bytes are there.
const LONGEST: u64 = 134_217_728;

// One byte of so many may be lost.
const PART: u64 = 8;

// A chunk begins with a page of the file. In memory it begins with a page too if its allocation
// begins 16 bytes behind one, as those do that the C library maps by themselves. A `pread` may then
// map the pages of the file in place of a copy.
const PAGE: u64 = 4_096;

const PAD: usize = 4_080;

/// A file that is read from its first byte on, and lends its bytes.
#[derive(Drop)]
pub struct ChunkedFile<F> {
    alloc: Global,
    // How many bytes the file has, as far as is known.
    length: u64,
    // The place of the next byte in the file.
    at: u64,
    // The next bytes, if they are in memory that stays.
    chunk: &'static [u8],
    // What comes after the chunk.
    rest: BufReader<PlacedFile<F>>,
    // How many bytes may still be lost.
    spare: u64,
}

impl<F: FileExt + Drop> ChunkedFile<F> {
    /// A reader of a file, which has `length` bytes as far as is known: no chunk goes further. All
    /// bytes are read if the file has more, and those that are there if it has fewer. Takes 32 KiB
    /// of memory.
    ///
    /// An error of the kind `OutOfMemory` if there is no memory; the file is then closed.
    pub fn new(alloc: Global, file: F, length: u64) -> io::Result<ChunkedFile<F>> {
        let placed = PlacedFile { file, next: 0 };
        Ok(ChunkedFile {
            alloc,
            length,
            at: 0,
            chunk: &[],
            rest: BufReader::with_capacity(alloc, READ_AHEAD, placed)?,
            spare: length / PART,
        })
    }
}

impl<F: FileExt> ChunkedFile<F> {
    // Whether the next `count` bytes were read ahead. They are not read again for a loan.
    fn is_ahead(&self, count: u64) -> bool {
        self.chunk.is_empty() && count <= self.rest.buffer().len() as u64
    }

    // How many bytes a chunk has that begins here with a loan of `count`. `None` if the file has not
    // so many, if they are too many for a loan, or if the chunk would be too small.
    fn chunk_size(&self, count: u64) -> Option<u64>
        ensures { IfSome result (λ size. size ≤ 134217728) }
    {
        let left = self.length.saturating_sub(self.at);
        let size = self.spare_after_chunk().min(CHUNK).max(count);
        if count > left.min(LONGEST) || size < LEAST {
            return None;
        }
        Some(size.min(left))
    }

    // How many bytes may be lost after what is left of the chunk.
    fn spare_after_chunk(&self) -> u64 {
        self.spare.saturating_sub(self.chunk.len() as u64)
    }

    // A chunk from the next byte on, with `count` bytes or more. `None` if there is no memory for
    // it, if the file could not be read or has fewer bytes; then no memory is lost.
    fn read_chunk(&self, count: u64) -> Option<&'static [u8]>
        ensures { IfSome result (λ bytes. count ≤ length bytes.now) }
    {
        let size = self.chunk_size(count)?;
        let before = self.at % PAGE;
        let front = PAD + before as usize;
        let mut room = Vec::from_elem(self.alloc, 0, front + size as usize).ok()?;
        let file = &self.rest.get_ref().file;
        let read = read_at_most(file, room.split_at_mut(PAD).1, self.at - before).ok()?;
        room.truncate(PAD + read);
        chunk_of(room, front, count)
    }

    // Goes on with a chunk that begins with the next byte. What is left of the chunk before is lost.
    fn begin_chunk(&mut self, chunk: &'static [u8])
        ensures { self.new.chunk.now ≡ chunk.now }
    {
        self.spare = self.spare_after_chunk();
        let ahead = self.rest.buffer().len();
        self.rest.consume(ahead);
        self.rest.get_mut().next = self.at.saturating_add(chunk.len() as u64);
        self.chunk = chunk;
    }

    // Bytes of a chunk that are only read are lost too.
    fn read_of_chunk(&mut self, buf: &mut [u8]) -> io::Result<usize>
        ensures { ReadsAtMost result buf.new }
    {
        let count = self.chunk.read(buf)?;
        self.spare = self.spare.saturating_sub(count as u64);
        Ok(count)
    }
}

// What a vector has from `front` on, if that is `count` bytes or more. The vector is then never
// given back.
fn chunk_of(room: Vec<u8>, front: usize, count: u64) -> Option<&'static [u8]>
    ensures { IfSome result (λ bytes. count ≤ length bytes.now) }
{
    let have = room.len().checked_sub(front)?;
    if count > have as u64 {
        return None;
    }
    let all: &'static [u8] = room.leak();
    Some(all.split_at(front).1)
}

impl<F: FileExt> Read for ChunkedFile<F> {
    fn read(&mut self, buf: &mut [u8]) -> io::Result<usize> {
        let count = if self.chunk.is_empty() {
            self.rest.read(buf)?
        } else {
            self.read_of_chunk(buf)?
        };
        self.at = self.at.saturating_add(count as u64);
        Ok(count)
    }
}

impl<F: FileExt> Lends for ChunkedFile<F> {
    fn lend(&mut self, count: u64) -> Option<&'static [u8]> {
        if count > self.chunk.len() as u64 {
            if self.is_ahead(count) {
                return None;
            }
            let chunk = self.read_chunk(count)?;
            self.begin_chunk(chunk);
        }
        let (bytes, left) = self.chunk.split_at(count as usize);
        self.chunk = left;
        self.at = self.at.saturating_add(count);
        Some(bytes)
    }
}
