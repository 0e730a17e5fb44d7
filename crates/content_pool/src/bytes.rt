//! The bytes of a stored content.

ghost use Rattle.std.specs.Prelude.{◌≡◌, IfOk};

use git_names::Memory;
use std::alloc::Global;
use std::marker::Model;

/// The bytes of a content, owned or lent for as long as the process lives. Contracts see the list.
#[derive(Drop)]
pub struct Bytes {
    held: Held,
}

// Who has the bytes: an allocation of their own, or somebody who never changes or frees them.
#[derive(Drop)]
enum Held {
    Owned(Vec<u8>),
    Lent(&'static [u8]),
}

impl Model for Bytes {
    ghost use Rattle.std.specs.Prelude.{ℕ, List};
    ghost use Rattle.content_pool.specs.Held.{bytes_of};

    ghost Value = { List ℕ };

    ghost view = { λ bytes. bytes_of bytes.held };
}

impl Bytes {
    /// A copy of these bytes, in an allocation of exactly their size. `Memory` (90) if there is no
    /// room for it.
    pub fn from_slice(alloc: Global, bytes: &[u8]) -> Result<Bytes, Memory>
        ensures { IfOk result (λ copy. copy ≡ bytes.now) }
    {
        let items = Vec::from_slice(alloc, bytes)?;
        Ok(Bytes {
            held: Held::Owned(items),
        })
    }

    /// These bytes, which somebody lends for as long as the process lives. Takes no memory.
    pub fn lent(bytes: &'static [u8]) -> Bytes
        ensures { result ≡ bytes.now }
    {
        Bytes {
            held: Held::Lent(bytes),
        }
    }

    /// These bytes, without a copy. Capacity beyond the length of the vector is given back. Takes
    /// no memory.
    pub fn taken(bytes: Vec<u8>) -> Bytes
        ensures { result ≡ bytes.items }
    {
        let mut items = bytes;
        items.shrink_to_fit();
        Bytes {
            held: Held::Owned(items),
        }
    }

    /// The bytes.
    pub fn as_slice(&self) -> &[u8]
        ensures { result.now ≡ self.now }
    {
        match &self.held {
            Held::Owned(items) => items.as_slice(),
            Held::Lent(items) => items,
        }
    }
}
