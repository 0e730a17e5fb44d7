//! Slots of a pool.

ghost use Rattle.std.specs.Prelude.{◌≡◌};

use std::marker::Model;

/// Where a pool keeps a content. A slot is valid only for the pool that answered it, and only while
/// it is held. After its last release the pool may answer it for another content.
#[derive(Clone, Copy, PartialEq, Eq)]
pub struct Slot {
    pub(crate) key: usize,
}

impl Slot {
    /// The number of this slot. The slots of a pool are numbered from 0, and the number of a slot
    /// that is used again stays small, so a caller can keep what it knows of each slot in a list.
    /// Takes no memory.
    pub fn number(&self) -> usize
        ensures { result ≡ self.now }
    {
        self.key
    }
}

impl Model for Slot {
    ghost use Rattle.std.specs.Prelude.{ℕ};

    ghost Value = { ℕ };

    ghost view = { λ slot. slot.key };

    ghost inverse = { λ key. record { key = key } };
}
