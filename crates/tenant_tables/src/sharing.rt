//! Tables that begin with the same objects share them in memory.

ghost use Rattle.std.specs.Prelude.{◌≡◌, ◌≤◌, [], length, take, IfOk, OnErr};
ghost use Rattle.tenant_tables.specs.{IsBackedBy.{IsBackedBy}, Room.{HasHoldsLeftBeside}};
ghost use Rattle.tenant_tables.specs.Sharing.{HoldsMore, Shares};

use crate::entry_list::EntryList;
use crate::front::Front;
use crate::table::Table;
use content_pool::Pool;
use git_names::{Memory, Naming};
use std::alloc::Global;
use std::mem::replace;

impl Table {
    /// Another table, of the first `count` objects of this one, all committed. The pool holds the
    /// content of each once more. The two tables share these objects in memory, unless this one
    /// has uncommitted objects or shares a shorter list already; then the others are copied.
    ///
    /// `Memory` (90) if an allocation fails. This table stays as it was, and the pool after a
    /// refusal.
    pub fn share<N: Naming>(
        &mut self,
        alloc: Global,
        pool: &mut Pool<N>,
        count: usize,
    ) -> Result<Table, Memory>
        requires stands { IsBackedBy N.digest_of pool.old self.old.entries }
        requires room { HasHoldsLeftBeside pool.old [] }
        requires within { count ≤ length self.old.entries }
        ensures same { self.new ≡ self.old }
        ensures ok { IfOk result
            (λ table. Shares N.digest_of count self.old.entries pool.old pool.new table) }
        ensures err { OnErr result (pool.new ≡ pool.old) }
    {
        self.freeze(alloc)?;
        let table = self.first(alloc, count)?;
        table.hold_all(pool);
        Ok(table)
    }

    // Makes the objects ones that tables can share, if all are committed and none is shared yet.
    fn freeze(&mut self, alloc: Global) -> Result<(), Memory>
        ensures { self.new ≡ self.old }
    {
        if self.front.len() > 0 || self.own.committed_len() < self.own.len() {
            return Ok(());
        }
        let own = replace(&mut self.own, EntryList::new(alloc));
        match Front::whole(alloc, own) {
            Ok(front) => {
                self.front = front;
                Ok(())
            }
            Err(own) => {
                self.own = own;
                Err(Memory)
            }
        }
    }

    // A table of the first objects, all committed, for which the pool holds nothing yet.
    fn first(&self, alloc: Global, count: usize) -> Result<Table, Memory>
        requires { count ≤ length self.now.entries }
        ensures { IfOk result (λ table. table
            ≡ record { entries = take count self.now.entries; committed = count }) }
    {
        let front = self.front.first(count)?;
        let own = self.own.first(alloc, count - front.len())?;
        Ok(Table { front, own })
    }

    // Holds the content of each object once more.
    fn hold_all<N: Naming>(&self, pool: &mut Pool<N>)
        requires stands { IsBackedBy N.digest_of pool.old self.now.entries }
        requires room { HasHoldsLeftBeside pool.old [] }
        ensures { HoldsMore pool.old self.now.entries pool.new }
    {
        for place in 0..self.len() {
            if let Some((_, entry)) = self.entry_at(place) {
                pool.hold(entry.slot);
            }
        }
    }
}
