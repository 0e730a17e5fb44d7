//! The encoding of a message, as its line names it: git-fast-import(1), "encoding".

ghost use Rattle.std.specs.{Prelude.{◌≡◌, IfOk}, Option.{option_map}};

use git_objects::Memory;
use std::alloc::Global;
use std::marker::Model;

/// The name of an encoding, which outlives its line.
#[derive(Drop)]
pub struct Encoding {
    text: Vec<u8>,
}

impl Model for Encoding {
    ghost use Rattle.std.specs.Prelude.{List, ℕ};

    ghost Value = { List ℕ };

    ghost view = { λ encoding. encoding.text.items };
}

impl Encoding {
    /// A copy of the name that a line gives. `Memory` (90) if it cannot be allocated.
    pub fn copy_of(alloc: Global, text: &[u8]) -> Result<Encoding, Memory>
        ensures { IfOk result (λ encoding. encoding ≡ text.now) }
    {
        let text = Vec::from_slice(alloc, text)?;
        Ok(Encoding { text })
    }

    /// Its bytes.
    pub fn into_bytes(self) -> Vec<u8>
        ensures { result.items ≡ self }
    {
        self.text
    }
}

/// The bytes of an encoding, if there is one.
pub fn bytes_of(encoding: Option<Encoding>) -> Option<Vec<u8>>
    ensures { option_map (λ text. text.items) result ≡ encoding }
{
    match encoding {
        Some(encoding) => Some(encoding.into_bytes()),
        None => None,
    }
}
