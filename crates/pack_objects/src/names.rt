//! Object names as bytes, 20 for each.

ghost use Rattle.std.specs.Prelude.{◌≡◌, IfOk};
ghost use Rattle.pack_objects.specs.Names.{names_in};

use git_objects::{Memory, Name};
use std::alloc::Global;

const NAME_BYTES: usize = 20;

/// The names that stand in these bytes, one after another. Fewer than 20 bytes at the end are none.
///
/// `Memory` (90) if there is no room for the list.
pub fn names_in(alloc: Global, bytes: &[u8]) -> Result<Vec<Name>, Memory>
    ensures { IfOk result (λ names. names.items ≡ names_in bytes.now) }
{
    let count = bytes.len() / NAME_BYTES;
    let mut names = Vec::with_capacity(alloc, count)?;
    let mut rest = bytes;
    for _ in 0..count {
        if let Some((name, after)) = rest.split_first_chunk::<20>() {
            names.push(Name::from_bytes(*name))?;
            rest = after;
        }
    }
    Ok(names)
}
