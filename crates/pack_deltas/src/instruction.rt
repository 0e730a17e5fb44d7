//! The instructions of a delta.

ghost use Rattle.std.specs.Prelude.{◌≡◌, ◌<◌};
ghost use Rattle.std.specs.Option.{option_map};
ghost use Rattle.pack_deltas.specs.Delta.{copied, inserted, part_in, part_of};

use crate::number::{take_copy_size, take_offset};

// So many bytes of a base from an offset on.
fn part_of(base: &[u8], offset: usize, size: usize) -> Option<&[u8]>
    requires offset { offset < 4294967296 }
    requires size { size < 4294967296 }
    ensures { option_map (λ x. x.now) result ≡ part_of base.now offset size }
{
    if offset + size <= base.len() {
        Some(&base[offset..offset + size])
    } else {
        None
    }
}

fn take_copy<'a>(base: &'a [u8], code: u8, text: &'a [u8]) -> Option<(&'a [u8], &'a [u8])>
    ensures { option_map (λ x. (x.0.now, x.1.now)) result ≡ copied base.now code text.now }
{
    let Some((offset, rest)) = take_offset(code, text) else {
        return None;
    };
    let Some((size, rest)) = take_copy_size(code, rest) else {
        return None;
    };
    let size = if size == 0 { 65_536 } else { size };
    match part_of(base, offset, size) {
        Some(part) => Some((part, rest)),
        None => None,
    }
}

fn take_insert(count: usize, text: &[u8]) -> Option<(&[u8], &[u8])>
    ensures { option_map (λ x. (x.0.now, x.1.now)) result ≡ inserted count text.now }
{
    if count == 0 || text.len() < count {
        return None;
    }
    Some(text.split_at(count))
}

/// The part that the instruction makes which begins with this byte, and what follows it. `None` if
/// the instruction is cut, is the reserved one, or copies what the base does not have.
pub fn take_part<'a>(base: &'a [u8], code: u8, rest: &'a [u8]) -> Option<(&'a [u8], &'a [u8])>
    ensures { option_map (λ x. (x.0.now, x.1.now)) result ≡ part_in base.now code rest.now }
{
    if code < 128 {
        take_insert(code as usize, rest)
    } else {
        take_copy(base, code, rest)
    }
}
