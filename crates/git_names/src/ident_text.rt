//! The parts of an ident's text, found from left to right. Nothing here takes memory.

ghost use Rattle.std.specs.{Prelude.{◌≡◌, ◌≤◌, length, take}, Option.{option_copied}};
ghost use Rattle.std.specs.{List.{prefix_len, list_all}, Char.{is_ascii_digit}};
ghost use Rattle.git_model.specs.Ident.{is_person_byte as person_byte, is_offset as offset};
ghost use Rattle.numerals.specs.Numbers.{number_of};
ghost use Rattle.git_model.specs.IdentReading as reading;

use numerals::read_number;

// What comes after the person that a text begins with, if there is one. In an ident it is the date.
pub(crate) fn after_person(text: &[u8]) -> Option<&[u8]>
    ensures { option_copied result ≡ reading.after_person text.now }
{
    after_email(after_name(text)?)
}

// What comes after a name and its `<`.
#[tactic(auto, unfolding(git_model::specs::IdentReading::after_name))]
fn after_name(text: &[u8]) -> Option<&[u8]>
    ensures { option_copied result ≡ reading.after_name text.now }
{
    let (name, rest) = text.split_at(person_len(text));
    if is_name(name) {
        after_byte(b'<', rest)
    } else {
        None
    }
}

// What comes after an email, its `>` and the space.
#[tactic(auto, unfolding(git_model::specs::IdentReading::after_email))]
fn after_email(text: &[u8]) -> Option<&[u8]>
    ensures { option_copied result ≡ reading.after_email text.now }
{
    let (_, rest) = text.split_at(person_len(text));
    after_byte(b' ', after_byte(b'>', rest)?)
}

// How many bytes at the front of a text may be part of a name or an email.
fn person_len(text: &[u8]) -> usize
    ensures len { result ≡ prefix_len person_byte text.now }
    ensures within { result ≤ length text.now }
{
    text.iter()
        .take_while(|byte| is_person_byte(**byte))
        .count()
}

fn is_person_byte(byte: u8) -> bool
    ensures { result ≡ person_byte byte }
{
    !matches!(byte, b'<' | b'>' | b'\n')
}

// Whether a name is empty or ends in a space.
fn is_name(name: &[u8]) -> bool
    ensures { result ≡ reading.is_name name.now }
{
    name.is_empty() || name.ends_with(b" ")
}

fn after_byte(expected: u8, text: &[u8]) -> Option<&[u8]>
    ensures { option_copied result ≡ reading.after_byte expected text.now }
{
    match text {
        [byte, rest @ ..] if *byte == expected => Some(rest),
        _ => None,
    }
}

// Whether a text is a date.
pub(crate) fn is_date(text: &[u8]) -> bool
    ensures { result ≡ reading.is_date text.now }
{
    let (_, rest) = text.split_at(digits_len(text));
    seconds_of(text).is_some() && is_spaced_offset(rest)
}

// The seconds that a date begins with, if they are 1 to 20 digits and below 2^64.
pub(crate) fn seconds_of(date: &[u8]) -> Option<u64>
    ensures { result ≡ number_of (take (prefix_len is_ascii_digit date.now) date.now) }
{
    let (seconds, _) = date.split_at(digits_len(date));
    read_number(seconds)
}

// How many digits a text begins with.
fn digits_len(text: &[u8]) -> usize
    ensures len { result ≡ prefix_len is_ascii_digit text.now }
    ensures within { result ≤ length text.now }
{
    text.iter().take_while(|byte| byte.is_ascii_digit()).count()
}

fn is_spaced_offset(text: &[u8]) -> bool
    ensures { result ≡ reading.is_spaced_offset text.now }
{
    match text {
        [b' ', rest @ ..] => is_offset(rest),
        _ => false,
    }
}

// Whether a text is a sign and four digits.
fn is_offset(text: &[u8]) -> bool
    ensures { result ≡ offset text.now }
{
    match text {
        [sign, digits @ ..] => {
            (*sign == b'+' || *sign == b'-') && digits.len() == 4 && are_digits(digits)
        }
        [] => false,
    }
}

fn are_digits(digits: &[u8]) -> bool
    ensures { result ≡ list_all is_ascii_digit digits.now }
{
    digits.iter().all(|digit| digit.is_ascii_digit())
}
