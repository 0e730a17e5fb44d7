//! The summaries that a quick look knows of one tenant's objects.

ghost use Rattle.std.specs.Prelude.{ℕ, List, [], OnOk};
ghost use Rattle.pool_file_checks.specs.{Own.{own_objects}, Quick.{AreSums, KnowsSums}};
ghost use Rattle.pool_file_format.specs.Format.{RawObject};

use git_names::Memory;
use std::alloc::Global;
use tenant_tables::Summary;

/// The numbers of a tenant's objects, and the summaries of these objects in the same order, as far
/// as they are known. The summary of an object that is no tree means nothing.
#[derive(Drop)]
pub struct KnownSums {
    pub numbers: Vec<u64>,
    pub sums: Vec<Summary>,
}

impl KnownSums {
    /// Nothing is known. Takes no memory.
    pub fn none(alloc: Global) -> KnownSums
        ensures { (digest : List ℕ → List ℕ) (os : List RawObject) → KnowsSums digest os result }
    {
        KnownSums {
            numbers: Vec::new(alloc),
            sums: Vec::new(alloc),
        }
    }

    // Notes the summaries of the objects with these numbers, unless others are known.
    pub(crate) fn note(
        &mut self,
        alloc: Global,
        numbers: &[u64],
        sums: &[Summary],
    ) -> Result<(), Memory>
        ensures { (digest : List ℕ → List ℕ) (os : List RawObject) → KnowsSums digest os self.old
            → AreSums [] sums.now (own_objects digest os numbers.now)
            → OnOk result (KnowsSums digest os self.new) }
    {
        if !self.sums.is_empty() {
            return Ok(());
        }
        self.numbers = Vec::from_slice(alloc, numbers)?;
        self.sums = Vec::from_slice(alloc, sums)?;
        Ok(())
    }
}
