//! The texts of some numbers, on the stack.

ghost use Rattle.std.specs.{Prelude.{◌≡◌, ◌≤◌, ◌+◌, ◌++◌, [], length}, List.{flat_map}};
ghost use Rattle.pool_file_format.specs.Format.{number_text};

use std::marker::Model;

/// How many numbers a block has room for.
pub const NUMBERS: usize = 64;

/// The texts of up to 64 numbers, one after another.
#[derive(Drop)]
pub struct NumberBlock {
    bytes: [u8; 512],
    len: usize,
}

impl Model for NumberBlock {
    ghost use Rattle.std.specs.Prelude.{◌≤◌, ℕ, List, take};

    ghost Value = { List ℕ };

    ghost view = { λ block. take block.len block.bytes };

    ghost invariant = { λ block. block.len ≤ 512 };
}

impl NumberBlock {
    fn new() -> NumberBlock
        ensures { result ≡ [] }
    {
        NumberBlock {
            bytes: [0; 512],
            len: 0,
        }
    }

    fn push(&mut self, text: &[u8])
        requires { length self.old + length text.now ≤ 512 }
        ensures { self.new ≡ self.old ++ text.now }
    {
        let end = self.len + text.len();
        self.bytes[self.len..end].copy_from_slice(text);
        self.len = end;
    }

    /// The texts of these numbers.
    pub fn of(numbers: &[u64]) -> NumberBlock
        requires { length numbers.now ≤ 64 }
        ensures { result ≡ flat_map number_text numbers.now }
    {
        let mut block = NumberBlock::new();
        for number in numbers {
            block.push(&number.to_be_bytes());
        }
        block
    }

    /// All bytes of the block.
    pub fn as_slice(&self) -> &[u8]
        ensures { result.now ≡ self.now }
    {
        &self.bytes[..self.len]
    }
}
