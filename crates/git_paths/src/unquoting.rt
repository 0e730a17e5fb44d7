//! The text between the quotes of a quoted path: git-fast-import(1), on C-style quoting.

ghost use Rattle.std.specs.Prelude.{◌≡◌, ◌≢◌, ◌<◌, ◌≤◌, ◌∷◌, length, IfSome, IfNone, true, false};
ghost use Rattle.std.specs.Option.{ok_or};
ghost use Rattle.git_paths.specs.{declared.fault.Fault.TheVariants.{BadPath}, Faults.{Gives}};
ghost use Rattle.git_paths.specs.Quoting.{byte_of_letter, octal_value};
ghost use Rattle.git_paths.specs.Reading.{unquoted, escaped, octals, are_octal, TakesByte};

use crate::fault::Fault;
use crate::letters::LETTERS;
use std::alloc::Global;

fn byte_of(letter: u8) -> Option<u8>
    ensures { result ≡ byte_of_letter letter }
{
    let entry = LETTERS.iter().find(|entry| entry.0 == letter);
    entry.map(|entry| entry.1)
}

fn octal_of(x: u8, y: u8, z: u8) -> Option<u8>
    ensures none { IfNone result (are_octal x y z ≡ false) }
    ensures some { IfSome result (λ b. (are_octal x y z ≡ true) × (b ≡ octal_value x y z)) }
{
    if x < b'0' || b'7' < x || y < b'0' || b'7' < y || z < b'0' || b'7' < z {
        return None;
    }
    let value = 64 * u16::from(x - b'0') + 8 * u16::from(y - b'0') + u16::from(z - b'0');
    if value > 255 {
        return None;
    }
    Some(value as u8)
}

fn octals_at(x: u8, text: &[u8]) -> Option<(u8, &[u8])>
    ensures read { TakesByte result (octals x text.now) }
    ensures shorter { IfSome result (λ r. length r.1.now < length text.now) }
{
    let [y, z, rest @ ..] = text else {
        return None;
    };
    let byte = octal_of(x, *y, *z)?;
    Some((byte, rest))
}

fn escape_at(text: &[u8]) -> Option<(u8, &[u8])>
    ensures read { TakesByte result (escaped text.now) }
    ensures shorter { IfSome result (λ r. length r.1.now < length text.now) }
{
    let [first, rest @ ..] = text else {
        return None;
    };
    match byte_of(*first) {
        Some(byte) => Some((byte, rest)),
        None => octals_at(*first, rest),
    }
}

fn byte_at(first: u8, remaining: &[u8]) -> Option<(u8, &[u8])>
    requires { first ≢ 34 }
    ensures read { TakesByte result (unquoted (first ∷ remaining.now)) }
    ensures shorter { IfSome result (λ r. length r.1.now ≤ length remaining.now) }
{
    if first == b'\\' {
        escape_at(remaining)
    } else {
        Some((first, remaining))
    }
}

/// The bytes up to the closing quote, and the text after it.
pub(crate) fn unquote(alloc: Global, text: &[u8]) -> Result<(Vec<u8>, &[u8]), Fault>
    ensures { Gives (λ r. (r.0.items, r.1.now)) result (ok_or (unquoted text.now) BadPath) }
{
    let mut bytes = Vec::new(alloc);
    let mut rest = text;
    'bytes: while let [first, remaining @ ..] = rest {
        if *first == b'"' {
            return Ok((bytes, remaining));
        }
        let (byte, after) = byte_at(*first, remaining).ok_or(Fault::BadPath)?;
        bytes.push(byte).or(Err(Fault::Memory))?;
        rest = after;
    }
    Err(Fault::BadPath)
}
