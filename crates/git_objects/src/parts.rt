//! Appends a text part by part.

ghost use Rattle.std.specs.{Prelude.{◌≡◌, ◌++◌, length, take, OnOk}, List.{flat_map}};

use git_names::Memory;

/// Appends the parts in turn. After `Memory` (90) some of their bytes may have been appended; what
/// was there before is unchanged.
pub fn append_parts(parts: &[&[u8]], out: &mut Vec<u8>) -> Result<(), Memory>
    ensures written { OnOk result (out.new.items
        ≡ out.old.items ++ flat_map (λ part. part.now) parts.now) }
    ensures kept { take (length out.old.items) out.new.items ≡ out.old.items }
{
    for part in parts {
        out.extend_from_slice(part)?;
    }
    Ok(())
}
