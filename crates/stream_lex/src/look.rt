//! What comes first in the bytes whose item was not given yet.

ghost use Rattle.std.specs.Prelude.{◌≡◌, ◌+◌, ◌-◌, ◌<◌, ◌≤◌, ℕ, List, Some, length, take};
ghost use Rattle.stream_lex.specs.Headers.{HasNoLineEnd, line_length, longest_line};
ghost use Rattle.stream_lex.specs.Looking.{IsFoundPlaced, IsInCounted, IsInDelimited, IsNext};
ghost use Rattle.stream_lex.specs.Looking.{IsPlaced, WaitsWithAll, first_found};
ghost use Rattle.stream_lex.specs.{Reading.{data_before, first_of}, Search.{SearchesOn}};

use crate::fault::Fault;
use crate::header::{LineKind, kind};
use crate::item::Item;
use crate::place::Place;
use crate::search::Search;

/// The most bytes that a line may have, without its line end.
const LONGEST_LINE: usize = 1_048_575;

/// The most bytes that one data may have.
const LARGEST_DATA: usize = 67_108_864;

/// What comes first in some bytes.
pub enum Found<'a> {
    /// No whole item: more bytes have to come. The next look starts from this place.
    Waits(Place),
    /// This many bytes that give no item.
    Skips(usize),
    /// An item, and how many bytes of the stream it takes up.
    Gives(Item<'a>, usize),
    /// Bytes that cannot be read.
    Fails(Fault),
}

/// What comes first in `bytes`, looked at from a place.
pub fn look<'a>(bytes: &'a [u8], place: Place, search: &mut Search) -> Found<'a>
    requires seen { search.old.seen ≤ length bytes.now }
    requires placed { IsPlaced bytes.now search.old.seen place }
    ensures next { IsNext bytes.now place result }
    ensures placed { IsFoundPlaced bytes.now search.new.seen result }
    ensures searched { SearchesOn bytes.now search.old search.new }
{
    match place {
        Place::Failed(fault) => Found::Fails(fault),
        Place::Counted { header, size } => counted(bytes, header, size as u64),
        Place::Delimited { header, line } => delimited(bytes, header, line, search),
        Place::Line { after_data: false } => line(bytes, search),
        Place::Line { after_data: true } => match bytes.first() {
            None => Found::Waits(place),
            Some(b'\n') => Found::Skips(1),
            Some(_) => line(bytes, search),
        },
    }
}

/// What comes first in `bytes`, which begin with a line.
fn line<'a>(bytes: &'a [u8], search: &mut Search) -> Found<'a>
    requires seen { search.old.seen ≤ length bytes.now }
    requires no_line_end { HasNoLineEnd (take search.old.seen bytes.now) }
    ensures first { first_found bytes.now result ≡ first_of bytes.now }
    ensures rest { WaitsWithAll bytes.now result }
    ensures placed { IsFoundPlaced bytes.now search.new.seen result }
    ensures searched { SearchesOn bytes.now search.old search.new }
{
    match search.line_end(bytes) {
        Some(end) => {
            if end <= LONGEST_LINE {
                whole(bytes, end, search)
            } else {
                Found::Fails(Fault::LineTooLong)
            }
        }
        None => {
            if bytes.len() <= LONGEST_LINE {
                Found::Waits(Place::Line { after_data: false })
            } else {
                Found::Fails(Fault::LineTooLong)
            }
        }
    }
}

/// What comes first in `bytes`, whose first line end is the byte at `end`.
fn whole<'a>(bytes: &'a [u8], end: usize, search: &mut Search) -> Found<'a>
    requires inside { end < length bytes.now }
    requires first { line_length bytes.now ≡ end }
    requires within_limit { end ≤ longest_line }
    requires seen { search.old.seen ≡ end + 1 }
    ensures first { first_found bytes.now result ≡ first_of bytes.now }
    ensures rest { WaitsWithAll bytes.now result }
    ensures placed { IsFoundPlaced bytes.now search.new.seen result }
    ensures searched { SearchesOn bytes.now search.old search.new }
{
    let text = bytes.split_at(end).0;
    match kind(text) {
        LineKind::Empty => Found::Gives(Item::Blank, end + 1),
        LineKind::Comment => Found::Skips(end + 1),
        LineKind::Counted(size) => counted(bytes, end + 1, size),
        LineKind::Delimited => delimited(bytes, end + 1, end + 1, search),
        LineKind::BadHeader => Found::Fails(Fault::BadData),
        LineKind::Other => Found::Gives(Item::Line(text), end + 1),
    }
}

/// What comes first in `bytes`, which begin with a header of `header` bytes for a data of `size`
/// bytes.
fn counted(bytes: &[u8], header: usize, size: u64) -> Found<'_>
    requires { IsInCounted bytes.now header size }
    ensures first { first_found bytes.now result ≡ first_of bytes.now }
    ensures rest { WaitsWithAll bytes.now result }
    ensures placed { (seen : ℕ) → seen ≤ header → IsFoundPlaced bytes.now seen result }
{
    if size > LARGEST_DATA as u64 {
        return Found::Fails(Fault::Limit);
    }
    let size = size as usize;
    let remaining = bytes.split_at(header).1;
    if remaining.len() < size {
        Found::Waits(Place::Counted { header, size })
    } else {
        Found::Gives(Item::Data(remaining.split_at(size).0), header + size)
    }
}

/// What comes first in `bytes`, which begin with a header of `header` bytes that names a delimiter.
/// No line before the byte at `line` is the delimiter.
fn delimited<'a>(bytes: &'a [u8], header: usize, line: usize, search: &mut Search) -> Found<'a>
    requires seen { search.old.seen ≤ length bytes.now }
    requires placed { IsInDelimited bytes.now search.old.seen header line }
    ensures first { first_found bytes.now result ≡ first_of bytes.now }
    ensures rest { WaitsWithAll bytes.now result }
    ensures placed { IsFoundPlaced bytes.now search.new.seen result }
    ensures searched { SearchesOn bytes.now search.old search.new }
{
    let delimiter = bytes.split_at(header - 1).0.split_at(7).1;
    let mut line = line;
    'lines: while let Some(end) = search.line_end(bytes) {
        let text = bytes.split_at(line).1.split_at(end - line).0;
        if text == delimiter {
            return raw(bytes, header, line, end);
        }
        line = end + 1;
    }
    if bytes.len() - header <= LARGEST_DATA + delimiter.len() {
        Found::Waits(Place::Delimited { header, line })
    } else {
        Found::Fails(Fault::Limit)
    }
}

/// The data between its header and the delimiter line, which begins at `line` and ends at `end`.
fn raw(bytes: &[u8], header: usize, line: usize, end: usize) -> Found<'_>
    requires { (header ≤ line) × (line ≤ end) × (end < length bytes.now) }
    ensures first { (delimiter : List ℕ) → length delimiter ≡ end - line
        → first_found bytes.now result
        ≡ data_before (Some (line - header)) delimiter header bytes.now }
    ensures rest { WaitsWithAll bytes.now result }
    ensures placed { IsFoundPlaced bytes.now (end + 1) result }
{
    let size = line - header;
    if size > LARGEST_DATA {
        Found::Fails(Fault::Limit)
    } else {
        let remaining = bytes.split_at(header).1;
        Found::Gives(Item::Data(remaining.split_at(size).0), end + 1)
    }
}
