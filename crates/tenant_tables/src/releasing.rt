//! What leaves a table: the objects after the committed prefix, or all of them.

ghost use Rattle.std.specs.Prelude.{◌≡◌, ◌<◌, ◌≤◌, ◌+◌, [], length, take};
ghost use Rattle.tenant_tables.specs.{Objects.{objects}, IsBackedBy.{IsBackedBy, PreservesOthers}};

use crate::table::Table;
use content_pool::Pool;
use git_names::Naming;

impl Table {
    /// Removes the objects after the committed prefix and releases their slots. Takes no memory.
    ///
    /// What another table holds stays in the pool. The pool must be the one that holds the contents
    /// of the table.
    pub fn roll_back<N: Naming>(&mut self, pool: &mut Pool<N>)
        requires stands { IsBackedBy N.digest_of pool.old self.old.entries }
        ensures stands { IsBackedBy N.digest_of pool.new self.new.entries }
        ensures others { PreservesOthers pool.old self.old.entries pool.new self.new.entries }
        ensures entries { self.new
            ≡ record self.old { entries = take self.old.committed self.old.entries } }
        ensures objects { objects pool.new self.new.entries
            ≡ take self.old.committed (objects pool.old self.old.entries) }
    {
        self.release_from(pool, self.committed_len());
        self.own.roll_back();
    }

    /// Releases the slots of all objects, and drops the table. Takes no memory.
    ///
    /// What another table holds stays in the pool. The pool must be the one that holds the contents
    /// of the table.
    pub fn release<N: Naming>(self, pool: &mut Pool<N>)
        requires stands { IsBackedBy N.digest_of pool.old self.entries }
        ensures others { PreservesOthers pool.old self.entries pool.new [] }
    {
        self.release_from(pool, 0);
    }

    // Releases the slots of the objects from a position on, the last one first.
    fn release_from<N: Naming>(&self, pool: &mut Pool<N>, kept: usize)
        requires within { kept ≤ length self.now.entries }
        requires stands { IsBackedBy N.digest_of pool.old self.now.entries }
        ensures stands { IsBackedBy N.digest_of pool.new (take kept self.now.entries) }
        ensures others { PreservesOthers pool.old self.now.entries pool.new
            (take kept self.now.entries) }
        ensures objects { objects pool.new (take kept self.now.entries)
            ≡ take kept (objects pool.old self.now.entries) }
    {
        let mut count = self.len();
        while count > kept {
            count -= 1;
            self.release_at(pool, count);
        }
    }

    // Releases the slot of the object at a position, when those after it are released.
    fn release_at<N: Naming>(&self, pool: &mut Pool<N>, place: usize)
        requires within { place < length self.now.entries }
        requires stands { IsBackedBy N.digest_of pool.old (take (place + 1) self.now.entries) }
        ensures stands { IsBackedBy N.digest_of pool.new (take place self.now.entries) }
        ensures others { PreservesOthers pool.old (take (place + 1) self.now.entries) pool.new
            (take place self.now.entries) }
        ensures objects { objects pool.new (take place self.now.entries)
            ≡ take place (objects pool.old (take (place + 1) self.now.entries)) }
    {
        let Some((_, entry)) = self.entry_at(place) else {
            return;
        };
        pool.release(entry.slot);
    }
}
