//! The words of a line: marks and datarefs.

ghost use Rattle.std.specs.{Prelude.{◌≡◌, ◌<◌, length, IfSome}, List.{position_from}};
ghost use Rattle.std.specs.Option.{option_copied};
ghost use Rattle.stream_grammar.specs.Texts as texts;

use crate::data_ref::DataRef;
use crate::fault::Fault;
use crate::mark::Mark;
use git_names::Name;
use numerals::read_number;

// Where the first space of a line is.
fn space_in(line: &[u8]) -> Option<usize>
    ensures first { result ≡ position_from texts.is_space 0 line.now }
    ensures within { IfSome result (λ index. index < length line.now) }
{
    line.iter().position(|byte| *byte == b' ')
}

/// The text after the first space of a line; an empty text if it has no space.
pub fn argument(line: &[u8]) -> &[u8]
    ensures { result.now ≡ texts.argument line.now }
{
    // The word of most lines of most streams is one letter.
    if let [first, b' ', rest @ ..] = line
        && *first != b' '
    {
        return rest;
    }
    match space_in(line) {
        Some(index) => line.split_at(index + 1).1,
        None => &[],
    }
}

/// The first word of a line: the text before its first space, or all of it.
pub fn first_word(line: &[u8]) -> &[u8]
    ensures { result.now ≡ texts.first_word line.now }
{
    match space_in(line) {
        Some(index) => line.split_at(index).0,
        None => line,
    }
}

/// The first word of a line, and the text after the first space, if the line has one.
pub fn split_word(line: &[u8]) -> (&[u8], Option<&[u8]>)
    ensures word { result.0.now ≡ texts.first_word line.now }
    ensures rest { option_copied result.1 ≡ texts.after_space line.now }
{
    match space_in(line) {
        Some(index) => (line.split_at(index).0, Some(line.split_at(index + 1).1)),
        None => (line, None),
    }
}

/// The text after a colon, if the text begins with one.
#[tactic(auto, unfolding(crate::specs::Texts::after_colon))]
pub fn after_colon(text: &[u8]) -> Option<&[u8]>
    ensures { option_copied result ≡ texts.after_colon text.now }
{
    match text {
        [b':', rest @ ..] => Some(rest),
        _ => None,
    }
}

/// Reads the number of a mark. `Fault::BadMark` (12) if it is 0 or no number.
#[tactic(auto, unfolding(crate::specs::Texts::numbered))]
pub fn idnum_of(text: &[u8]) -> Result<Mark, Fault>
    ensures { result ≡ texts.idnum_of text.now }
{
    match read_number(text) {
        Some(number) => Mark::from_number(number).ok_or(Fault::BadMark),
        None => Err(Fault::BadMark),
    }
}

/// Reads a mark: a colon and its number. `Fault::Malformed` (3) without the colon, `Fault::BadMark`
/// (12) if no number from 1 to 2^64 - 1 in at most 20 digits follows it.
pub fn mark_of(text: &[u8]) -> Result<Mark, Fault>
    ensures { result ≡ texts.mark_of text.now }
{
    match after_colon(text) {
        Some(digits) => idnum_of(digits),
        None => Err(Fault::Malformed),
    }
}

/// Reads a dataref: a mark or an object name. `Fault::BadMark` (12) for a colon that no such number
/// follows, `Fault::Malformed` (3) for a text without a colon that is not 40 hexadecimal digits.
pub fn dataref_of(text: &[u8]) -> Result<DataRef, Fault>
    ensures { result ≡ texts.dataref_of text.now }
{
    match after_colon(text) {
        Some(digits) => Ok(DataRef::Mark(idnum_of(digits)?)),
        None => match Name::from_hex(text) {
            Some(id) => Ok(DataRef::Name(id)),
            None => Err(Fault::Malformed),
        },
    }
}
