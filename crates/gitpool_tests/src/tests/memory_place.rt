//! A pool file in memory, for tests of hosts.

use gitpool::{PoolPlace, WriteFault};
use std::alloc::Global;

/// A pool file in memory. It refuses the first replacements, as many as `refuses` says.
#[derive(Drop)]
pub struct MemoryPlace {
    /// Where its bytes come from.
    pub alloc: Global,
    /// The bytes of the pool file.
    pub file: Vec<u8>,
    /// How many of the next replacements it refuses.
    pub refuses: u64,
}

impl MemoryPlace {
    /// An empty file.
    pub fn new(alloc: Global, refuses: u64) -> MemoryPlace {
        MemoryPlace {
            alloc,
            file: Vec::new(alloc),
            refuses,
        }
    }
}

impl PoolPlace for MemoryPlace {
    type NewFile = Vec<u8>;

    ghost use Rattle.std.specs.Prelude.{Some};

    ghost file = { λ place. Some place.file.items };

    fn begin(&mut self) -> Result<Vec<u8>, WriteFault> {
        Ok(Vec::new(self.alloc))
    }

    fn put_in_place(&mut self, new: Vec<u8>) -> Result<(), WriteFault> {
        if self.refuses > 0 {
            self.refuses -= 1;
            return Err(WriteFault::Device);
        }
        self.file = new;
        Ok(())
    }

    fn give_up(&mut self, new: Vec<u8>) {
        drop(new);
    }
}
