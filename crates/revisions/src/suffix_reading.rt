//! How one suffix is read: gitrevisions(7), "Specifying Revisions".

ghost use Rattle.std.specs.Prelude.{◌≡◌};
ghost use Rattle.revisions.specs.ExpressionReading.{in_32_bits, count_of, braced, after_caret};
ghost use Rattle.revisions.specs.ExpressionReading.{suffix_of};

use crate::suffix::Suffix;
use git_objects::Kind;
use numerals::read_number;

// The most digits that a number has, zeros before it among them.
const MOST_DIGITS: usize = 10;

fn in_32_bits(number: u64) -> Option<u32>
    ensures { result ≡ in_32_bits number }
{
    u32::try_from(number).ok()
}

// The number after `^` or `~`: no digits mean 1.
#[tactic(auto, unfolding(crate::specs::ExpressionReading::count_of))]
fn read_count(digits: &[u8]) -> Option<u32>
    ensures { result ≡ count_of digits.now }
{
    if digits.is_empty() {
        return Some(1);
    }
    if digits.len() > MOST_DIGITS {
        return None;
    }
    in_32_bits(read_number(digits)?)
}

#[tactic(auto, unfolding(crate::specs::ExpressionReading::braced))]
fn read_braced(text: &[u8]) -> Option<Suffix>
    ensures { result ≡ braced text.now }
{
    if text == b"{commit}".as_slice() {
        Some(Suffix::PeelTo(Kind::Commit))
    } else if text == b"{tree}".as_slice() {
        Some(Suffix::PeelTo(Kind::Tree))
    } else if text == b"{blob}".as_slice() {
        Some(Suffix::PeelTo(Kind::Blob))
    } else if text == b"{tag}".as_slice() {
        Some(Suffix::PeelTo(Kind::Tag))
    } else if text == b"{object}".as_slice() {
        Some(Suffix::Itself)
    } else if text == b"{}".as_slice() {
        Some(Suffix::PeelTags)
    } else {
        None
    }
}

#[tactic(auto, unfolding(crate::specs::ExpressionReading::after_caret))]
fn read_after_caret(text: &[u8]) -> Option<Suffix>
    ensures { result ≡ after_caret text.now }
{
    if text.starts_with(b"{") {
        return read_braced(text);
    }
    Some(Suffix::Parent(read_count(text)?))
}

/// Reads a suffix, which begins with `^` or `~`; `None` where the text is not one. Takes no memory.
#[tactic(auto, unfolding(crate::specs::ExpressionReading::suffix_of))]
pub(crate) fn read_suffix(piece: &[u8]) -> Option<Suffix>
    ensures { result ≡ suffix_of piece.now }
{
    let (mark, text) = piece.split_first()?;
    if *mark == b'^' {
        return read_after_caret(text);
    }
    Some(Suffix::Ancestor(read_count(text)?))
}
