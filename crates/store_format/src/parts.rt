//! The next bytes and numbers of a text, each with the bytes after it.

ghost use Rattle.std.specs.{Prelude.{◌≡◌, length, IfOk}, Int.{w16, w32, w64}, Str.{bytes_eq}};
ghost use Rattle.pool_file_format.specs.Lengths.{bytes_at, byte_at, number_at, sized_at, end_at};
ghost use Rattle.store_format.specs.{Lengths.{optional_at}, Shown.{Gives}};

use pool_file_format::{Fault, Refusal};
use std::alloc::Global;

/// The next `count` bytes. `CutOff` (62) if there are fewer.
#[tactic(auto, unfolding(pool_file_format::specs::Lengths::bytes_at))]
pub fn next_bytes(bytes: &[u8], count: usize) -> Result<(&[u8], &[u8]), Fault>
    ensures gives { Gives (λ x. (x.0.now, x.1.now)) result (bytes_at count bytes.now) }
    ensures size { IfOk result (λ x. length x.0.now ≡ count) }
{
    if bytes.len() < count {
        return Err(Fault::Refused(Refusal::CutOff));
    }
    Ok(bytes.split_at(count))
}

/// The next twenty bytes.
pub fn next_digest(bytes: &[u8]) -> Result<([u8; 20], &[u8]), Fault>
    ensures { Gives (λ x. (x.0, x.1.now)) result (bytes_at 20 bytes.now) }
{
    let (front, rest) = next_bytes(bytes, 20)?;
    let mut digest = [0; 20];
    digest.copy_from_slice(front);
    Ok((digest, rest))
}

/// The next byte.
#[tactic(auto, unfolding(pool_file_format::specs::Lengths::byte_at))]
pub fn next_byte(bytes: &[u8]) -> Result<(u8, &[u8]), Fault>
    ensures { Gives (λ x. (x.0, x.1.now)) result (byte_at bytes.now) }
{
    match bytes {
        [] => Err(Fault::Refused(Refusal::CutOff)),
        [byte, rest @ ..] => Ok((*byte, rest)),
    }
}

/// The next number of two bytes.
#[tactic(auto, unfolding(pool_file_format::specs::Lengths::number_at))]
pub fn next_u16(bytes: &[u8]) -> Result<(u16, &[u8]), Fault>
    ensures { Gives (λ x. (x.0, x.1.now)) result (number_at w16 bytes.now) }
{
    let (front, rest) = next_bytes(bytes, 2)?;
    Ok((u16::from_be_bytes([front[0], front[1]]), rest))
}

/// The next number of four bytes.
#[tactic(auto, unfolding(pool_file_format::specs::Lengths::number_at))]
pub fn next_u32(bytes: &[u8]) -> Result<(u32, &[u8]), Fault>
    ensures { Gives (λ x. (x.0, x.1.now)) result (number_at w32 bytes.now) }
{
    let (front, rest) = next_bytes(bytes, 4)?;
    let number = u32::from_be_bytes([front[0], front[1], front[2], front[3]]);
    Ok((number, rest))
}

/// The next number of eight bytes.
#[tactic(auto, unfolding(pool_file_format::specs::Lengths::number_at))]
pub fn next_u64(bytes: &[u8]) -> Result<(u64, &[u8]), Fault>
    ensures { Gives (λ x. (x.0, x.1.now)) result (number_at w64 bytes.now) }
{
    let (front, rest) = next_bytes(bytes, 8)?;
    let number = u64::from_be_bytes([
        front[0], front[1], front[2], front[3], front[4], front[5], front[6], front[7],
    ]);
    Ok((number, rest))
}

/// The next number of four bytes, which is 1 more than what it says; 0 says nothing.
#[tactic(auto, unfolding(crate::specs::Lengths::optional_at))]
pub fn next_optional(bytes: &[u8]) -> Result<(Option<u32>, &[u8]), Fault>
    ensures { Gives (λ x. (x.0, x.1.now)) result (optional_at bytes.now) }
{
    let (number, rest) = next_u32(bytes)?;
    match number {
        0 => Ok((None, rest)),
        more => Ok((Some(more - 1), rest)),
    }
}

/// The next bytes after their length in two bytes.
#[tactic(auto, unfolding(pool_file_format::specs::Lengths::sized_at))]
pub fn next_sized(bytes: &[u8]) -> Result<(&[u8], &[u8]), Fault>
    ensures { Gives (λ x. (x.0.now, x.1.now)) result (sized_at w16 bytes.now) }
{
    let (size, rest) = next_u16(bytes)?;
    next_bytes(rest, usize::from(size))
}

/// A copy of the next bytes after their length in two bytes. `Memory` (90) if there is no room.
pub fn next_owned(alloc: Global, bytes: &[u8]) -> Result<(Vec<u8>, &[u8]), Fault>
    ensures { Gives (λ x. (x.0.items, x.1.now)) result (sized_at w16 bytes.now) }
{
    let (front, rest) = next_sized(bytes)?;
    Ok((Vec::from_slice(alloc, front)?, rest))
}

/// The end of the bytes. `TrailingBytes` (69) if there are more.
#[tactic(auto, unfolding(pool_file_format::specs::Lengths::end_at))]
pub fn next_end(bytes: &[u8]) -> Result<((), &[u8]), Fault>
    ensures { Gives (λ x. (x.0, x.1.now)) result (end_at bytes.now) }
{
    match bytes {
        [] => Ok(((), bytes)),
        [_, ..] => Err(Fault::Refused(Refusal::TrailingBytes)),
    }
}

/// Whether these are the same bytes.
pub fn is_same(digest: &[u8], other: &[u8]) -> bool
    ensures { result ≡ bytes_eq digest.now other.now }
{
    digest == other
}
