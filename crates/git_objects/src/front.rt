//! Splits the first part off a text, for the readers of object contents. Nothing here takes memory.

ghost use Rattle.std.specs.Prelude.{◌≡◌, ◌≢◌, ◌==◌, [], ◌∷◌, ◌++◌, All, position};
ghost use Rattle.std.specs.Option.{option_map};
ghost use Rattle.git_objects.specs.Fronts.{IsFront};

use memchr::memchr;

fn index_of(bytes: &[u8], sought: u8) -> Option<usize>
    ensures { result ≡ position (λ byte. byte == sought) bytes.now }
{
    memchr(sought, bytes)
}

/// Splits a text at the first byte that is `end`: what comes before it and what comes after it, or
/// `None` if there is no such byte.
pub fn split_at_byte(bytes: &[u8], end: u8) -> Option<(&[u8], &[u8])>
    ensures { IsFront (All (λ byte. byte ≢ end)) (λ part. part ++ end ∷ []) bytes.now
        (option_map (λ x. (x.0.now, x.1.now)) result) }
{
    let at = index_of(bytes, end)?;
    Some((bytes.split_at(at).0, bytes.split_at(at + 1).1))
}
