//! What a tenant had when its stream was opened.
//!
//! The objects are the first ones of its table: a stream only adds more after them. The refs are a
//! copy, since each checkpoint changes those of the tenant.

ghost use Rattle.std.specs.Prelude.{◌≡◌, IfOk};

use git_objects::Memory;
use tenant_refs::Refs;
use tenant_tables::Table;

/// How many objects a tenant had when its stream was opened, and its refs.
#[derive(Drop)]
pub struct Opened {
    pub objects: usize,
    pub refs: Refs,
}

/// What a tenant has at its last checkpoint. `Memory` (90) if there is no room for a copy of the
/// refs.
pub fn opened_on(table: &Table, refs: &Refs) -> Result<Opened, Memory>
    ensures { IfOk result
        (λ opened. (opened.objects ≡ table.now.committed) × (opened.refs ≡ refs.now)) }
{
    Ok(Opened {
        objects: table.committed_len(),
        refs: refs.copy()?,
    })
}
