//! Bytes in memory that are read, or lent.

ghost use Rattle.std.specs.Prelude.{◌≡◌, Some};

use byte_devices::Lends;
use std::io;
use std::io::Read;
use std::marker::Model;

/// Bytes that are lent for as long as the process lives, from the first to the last. Contracts see
/// the list of those that are left.
#[derive(Drop)]
pub struct LentBytes {
    left: &'static [u8],
}

impl Model for LentBytes {
    ghost use Rattle.std.specs.Prelude.{ℕ, List};

    ghost Value = { List ℕ };

    ghost view = { λ reader. reader.left.now };
}

impl LentBytes {
    /// A reader of these bytes. It lends as many of those that are left as it is asked for. Takes
    /// no memory.
    pub fn new(bytes: &'static [u8]) -> LentBytes
        ensures { result ≡ bytes.now }
    {
        LentBytes { left: bytes }
    }
}

impl Read for LentBytes {
    ghost remaining = { λ left. Some left };

    fn read(&mut self, buf: &mut [u8]) -> io::Result<usize> {
        self.left.read(buf)
    }
}

impl Lends for LentBytes {
    fn lend(&mut self, count: u64) -> Option<&'static [u8]> {
        if count > self.left.len() as u64 {
            return None;
        }
        let (bytes, left) = self.left.split_at(count as usize);
        self.left = left;
        Some(bytes)
    }
}
