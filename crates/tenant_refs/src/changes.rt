//! Several changes to refs: all are made, or none.

ghost use Rattle.std.specs.{Prelude.{◌≡◌, ◌+◌, ◌≤◌, ◌<◌, length, OnOk, OnErr, Err}, Vec.{vec_len}};
ghost use Rattle.git_model.specs.RefStore.{listed_refs};
ghost use Rattle.tenant_refs.specs.Changes.{with_changes};

use crate::changed_entries::change_entries;
use crate::refs::Refs;
use git_names::{Memory, Name, RefName};
use std::alloc::AllocError;
use thiserror::Error;

/// A change to one ref: git-update-ref(1).
#[derive(Drop)]
pub struct RefChange {
    /// The ref.
    pub ref_name: RefName,
    /// The object name that the ref holds after the change; `None` deletes the ref.
    pub target: Option<Name>,
}

/// Why `Refs::change_all` made no change.
#[derive(Clone, Copy, Debug, PartialEq, Eq, Error)]
pub enum ChangesFault {
    /// There would be too many refs after the changes (25).
    #[error("too many refs")]
    Limit = 25,
    /// An allocation failed (90).
    #[error("out of memory")]
    Memory = 90,
}

impl ChangesFault {
    ghost use Rattle.tenant_refs.specs.Faults.{changes_code};

    /// The number of the fault: 25 limit, 90 out of memory.
    pub fn code(self) -> u16
        ensures { result ≡ changes_code self }
    {
        self as u16
    }
}

impl From<Memory> for ChangesFault {
    ghost use Rattle.tenant_refs.specs.declared.changes.ChangesFault.TheVariants as fault;

    ghost from_gives = { λ _ f. f ≡ fault.Memory };

    fn from(_e: Memory) -> ChangesFault {
        ChangesFault::Memory
    }
}

impl From<AllocError> for ChangesFault {
    ghost use Rattle.tenant_refs.specs.declared.changes.ChangesFault.TheVariants as fault;

    ghost from_gives = { λ _ f. f ≡ fault.Memory };

    fn from(_e: AllocError) -> ChangesFault {
        ChangesFault::Memory
    }
}

impl Refs {
    /// Makes all changes in turn, or none. After them there are at most `limit` refs.
    ///
    /// `ChangesFault::Limit` (25) if there would be more, and `ChangesFault::Memory` (90) if there
    /// is no room for them. Nothing has changed after either.
    pub fn change_all(&mut self, changes: Vec<RefChange>, limit: usize) -> Result<(), ChangesFault>
        ensures changed { OnOk result (self.new ≡ with_changes self.old changes.items) }
        ensures few { OnOk result (length (listed_refs self.new) ≤ limit) }
        ensures refused { OnErr result (self.new ≡ self.old) }
        ensures too_many { result ≡ Err ChangesFault.Limit
            → limit < length (listed_refs (with_changes self.old changes.items)) }
    {
        // If there would be few enough refs even if every change added one, no count is needed.
        if self.len() <= limit && changes.len() <= limit - self.len() {
            return Ok(self.make(changes)?);
        }
        let mut changed = self.copy()?;
        changed.make(changes)?;
        if changed.len() > limit {
            return Err(ChangesFault::Limit);
        }
        *self = changed;
        Ok(())
    }

    // Makes all changes in turn, or none if there is no room for them.
    fn make(&mut self, changes: Vec<RefChange>) -> Result<(), Memory>
        ensures changed { OnOk result (self.new ≡ with_changes self.old changes.items) }
        ensures longer { length (listed_refs self.new)
            ≤ length (listed_refs self.old) + vec_len changes }
        ensures refused { OnErr result (self.new ≡ self.old) }
    {
        change_entries(self.alloc, &mut self.entries, changes)
    }
}
