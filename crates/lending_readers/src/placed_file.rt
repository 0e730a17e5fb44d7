//! Files that are read by places, so that the position that the system keeps of a file neither
//! counts nor moves.

ghost use Rattle.std.specs.{Prelude.{◌≡◌, length}, Io.{ReadsAtMost}};

use std::io;
use std::io::Read;
use std::os::unix::fs::FileExt;

/// A file, and the place of the byte that is read next, counted from 0.
#[derive(Drop)]
pub struct PlacedFile<F> {
    pub file: F,
    pub next: u64,
}

impl<F: FileExt> Read for PlacedFile<F> {
    fn read(&mut self, buf: &mut [u8]) -> io::Result<usize> {
        let count = self.file.read_at(buf, self.next)?;
        self.next = self.next.saturating_add(count as u64);
        Ok(count)
    }
}

/// Reads the bytes from `place` on until `buf` is full or the file ends, and answers how many came.
/// An error of a read if one fails.
pub fn read_at_most<F: FileExt>(file: &F, buf: &mut [u8], place: u64) -> io::Result<usize>
    ensures bound { ReadsAtMost result buf.new }
    ensures length { length buf.new ≡ length buf.old }
{
    let mut filled = 0;
    while filled < buf.len() {
        let at = place.saturating_add(filled as u64);
        let count = file.read_at(buf.split_at_mut(filled).1, at)?;
        if count == 0 {
            return Ok(filled);
        }
        filled += count;
    }
    Ok(filled)
}
