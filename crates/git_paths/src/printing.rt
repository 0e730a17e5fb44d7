//! How the bytes of a path are printed: git-config(1), core.quotePath.
//!
//! The bytes may be those of a path or of one entry's name.

ghost use Rattle.std.specs.Prelude.{◌≡◌, ◌++◌, take, vec_len, OnOk, OnErr};
ghost use Rattle.git_paths.specs.Quoting.{letter_of_byte, is_special, escape, in_quotes, quoted};

use crate::letters::LETTERS;
use git_model::Memory;

fn letter_of(byte: u8) -> Option<u8>
    ensures { result ≡ letter_of_byte byte }
{
    let entry = LETTERS.iter().find(|entry| entry.1 == byte);
    entry.map(|entry| entry.0)
}

fn must_quote(byte: u8) -> bool
    ensures { result ≡ is_special byte }
{
    byte == b'"' || byte == b'\\' || byte < 32 || 127 <= byte
}

#[tactic(auto, unfolding(crate::specs::Quoting::escape))]
fn escape_into(byte: u8, out: &mut Vec<u8>) -> Result<(), Memory>
    ensures ok { OnOk result (out.new.items ≡ out.old.items ++ escape byte) }
    ensures err { OnErr result (out.new.items ≡ out.old.items) }
{
    if let Some(letter) = letter_of(byte) {
        return Ok(out.extend_from_slice(&[b'\\', letter])?);
    }
    if must_quote(byte) {
        let digits = [b'0' + byte / 64, b'0' + byte / 8 % 8, b'0' + byte % 8];
        return Ok(out.extend_from_slice(&[b'\\', digits[0], digits[1], digits[2]])?);
    }
    Ok(out.push(byte)?)
}

fn write_quoted(bytes: &[u8], out: &mut Vec<u8>) -> Result<(), Memory>
    ensures ok { OnOk result (out.new.items ≡ out.old.items ++ in_quotes bytes.now) }
    ensures err { OnErr result (take (vec_len out.old) out.new.items ≡ out.old.items) }
{
    out.push(b'"')?;
    for byte in bytes {
        escape_into(*byte, out)?;
    }
    out.push(b'"')?;
    Ok(())
}

/// Appends the bytes of a path, or of an entry's name, to `out`: git-config(1), core.quotePath.
///
/// The bytes are put in quotes exactly if they contain a quote, a backslash, a byte below 0x20 or
/// one from 0x7f on. Each of these is then written as a backslash and its letter or three octal
/// digits.
///
/// `Memory` (90) if `out` cannot grow; its bytes are then unchanged.
#[tactic(auto, unfolding(crate::specs::Quoting::quoted))]
pub fn quote_into(bytes: &[u8], out: &mut Vec<u8>) -> Result<(), Memory>
    ensures ok { OnOk result (out.new.items ≡ out.old.items ++ quoted bytes.now) }
    ensures err { OnErr result (out.new.items ≡ out.old.items) }
{
    if !bytes.iter().any(|byte| must_quote(*byte)) {
        return Ok(out.extend_from_slice(bytes)?);
    }
    let before = out.len();
    let written = write_quoted(bytes, out);
    if written.is_err() {
        out.truncate(before);
    }
    written
}
