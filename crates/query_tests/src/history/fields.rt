//! The fields of a case.
//!
//! The cases of a test are one text, with `;` between two of them and `|` between two fields of
//! one. A field that is left out at the end is empty.

use numerals::read_number;

// What stands at this place, counted from 0, where pieces have this byte between them; nothing
// where there are fewer.
fn piece(text: &[u8], between: u8, place: usize) -> &[u8] {
    text.split(|byte| *byte == between)
        .nth(place)
        .unwrap_or(b"")
}

/// The field of a case at this place.
pub fn field(case: &[u8], place: usize) -> &[u8] {
    piece(case, b'|', place)
}

/// The word of a text at this place. Words have a space between them.
pub fn word(text: &[u8], place: usize) -> &[u8] {
    piece(text, b' ', place)
}

/// The side of a word at this place. Sides have `=` between them.
pub fn side(text: &[u8], place: usize) -> &[u8] {
    piece(text, b'=', place)
}

/// Whether this is the first field of a case. A `match` over words would be proved byte by byte.
pub fn is(case: &[u8], first: &[u8]) -> bool {
    field(case, 0) == first
}

/// Whether a text writes this number.
pub fn is_number(text: &[u8], number: u16) -> bool {
    match read_number(text) {
        Some(written) => written == u64::from(number),
        None => false,
    }
}

/// What stands beside a word in a table, whose cases begin with their words; nothing where no case
/// begins with it.
pub fn beside<'a>(table: &'a [u8], word: &[u8]) -> &'a [u8] {
    for case in table.split(|byte| *byte == b';') {
        if is(case, word) {
            return field(case, 1);
        }
    }
    b""
}

/// Writes a text. A time between two `%` stands for two lines: who wrote a commit then, and who
/// committed it. False where there is no room.
pub fn takes_text(out: &mut Vec<u8>, text: &[u8]) -> bool {
    for (place, part) in text.split(|byte| *byte == b'%').enumerate() {
        if !takes_part(out, part, place % 2 == 1) {
            return false;
        }
    }
    true
}

fn takes_part(out: &mut Vec<u8>, part: &[u8], is_time: bool) -> bool {
    if is_time {
        takes_person(out, b"author A U Thor <author@example.com> ", part)
            && takes_person(out, b"committer C O Mitter <committer@example.com> ", part)
    } else {
        out.extend_from_slice(part).is_ok()
    }
}

fn takes_person(out: &mut Vec<u8>, person: &[u8], time: &[u8]) -> bool {
    out.extend_from_slice(person).is_ok()
        && out.extend_from_slice(time).is_ok()
        && out.extend_from_slice(b" +0000\n").is_ok()
}
