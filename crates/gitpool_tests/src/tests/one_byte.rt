//! A reader for tests that gives one byte a call.

ghost use Rattle.std.specs.Prelude.{None};

use std::io;
use std::io::Read;

/// Gives its bytes one by one, one in each call.
#[derive(Debug, Drop)]
pub struct OneByte<'a> {
    left: &'a [u8],
}

impl<'a> OneByte<'a> {
    /// A reader of these bytes.
    pub fn new(bytes: &'a [u8]) -> OneByte<'a> {
        OneByte { left: bytes }
    }
}

impl<'a> Read for OneByte<'a> {
    ghost remaining = { λ r. None };

    fn read(&mut self, buf: &mut [u8]) -> io::Result<usize> {
        match (self.left, buf) {
            ([first, rest @ ..], [place, ..]) => {
                *place = *first;
                self.left = rest;
                Ok(1)
            }
            _ => Ok(0),
        }
    }
}
