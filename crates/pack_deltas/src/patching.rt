//! What a delta makes of its base.

ghost use Rattle.std.specs.Prelude.{◌≡◌, ◌≢◌, ◌<◌, ◌≤◌, [], List, ℕ, length, Some, IfOk, IfErr, IfSome, IsSomeAnd};
ghost use Rattle.std.specs.Prelude.{if◌then◌else◌};
ghost use Rattle.std.specs.Option.{option_map};
ghost use Rattle.pack_deltas.specs.Delta.{made_by, patched, size_told};
ghost use Rattle.pack_deltas.specs.Patching.{IsMadeOrNot};
ghost use Rattle.pack_deltas.specs.declared.fault.Fault.TheVariants as fault;

use crate::fault::Fault;
use crate::instruction::take_part;
use crate::number::take_size;
use git_names::Memory;
use std::alloc::Global;

// Appends what instructions make to nothing, and answers whether that is a text of this size.
fn append_parts(
    base: &[u8],
    instructions: &[u8],
    size: usize,
    made: &mut Vec<u8>,
) -> Result<bool, Memory>
    requires { made.old.items ≡ [] }
    ensures { IfOk result (λ is_made. IsMadeOrNot base.now instructions.now size
        made.new.items is_made) }
{
    let mut rest = instructions;
    while let Some((code, after)) = rest.split_first() {
        let Some((part, next)) = take_part(base, *code, after) else {
            return Ok(false);
        };
        if part.len() > size - made.len() {
            return Ok(false);
        }
        made.extend_from_slice(part)?;
        rest = next;
    }
    Ok(made.len() == size)
}

/// The text that a delta makes of its base: gitformat-pack(5), "Deltified representation".
///
/// `None` if it makes none: it is cut, it was made for a base of another size, it copies what the
/// base does not have, or it makes a text of another size than it tells. `Fault::Limit` (25) if it
/// tells more than `most` bytes; nothing is made then. `Fault::Memory` (90) if there is no memory
/// for the text.
pub fn patched(
    alloc: Global,
    base: &[u8],
    delta: &[u8],
    most: usize,
) -> Result<Option<Vec<u8>>, Fault>
    ensures made { IfOk result (λ r. option_map (λ text. text.items) r
        ≡ patched base.now delta.now) }
    ensures within { IfOk result (λ r. IfSome r (λ text. length text.items ≤ most)) }
    ensures limit { IfErr result (λ e. e ≡ fault.Limit
        → IsSomeAnd (size_told delta.now) (λ size. most < size)) }
{
    let Some((base_size, rest)) = take_size(delta) else {
        return Ok(None);
    };
    let Some((size, instructions)) = take_size(rest) else {
        return Ok(None);
    };
    if base_size != base.len() {
        return Ok(None);
    }
    if size > most {
        return Err(Fault::Limit);
    }
    let mut made = Vec::new(alloc);
    made.reserve(size).or(Err(Fault::Memory))?;
    if append_parts(base, instructions, size, &mut made)? {
        Ok(Some(made))
    } else {
        Ok(None)
    }
}
