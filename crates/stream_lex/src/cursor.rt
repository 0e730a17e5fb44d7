//! Where a lexer stands in its buffer.

ghost use Rattle.std.specs.Prelude.{◌≡◌, ◌+◌, ◌<◌, ◌≤◌, ◌^◌, length};
ghost use Rattle.stream_lex.specs.Cursor.{IsAt, SearchesOnce, rest_of, tail_of};
ghost use Rattle.stream_lex.specs.{Lexer.{GivesFirst}, Looking.{item_of}};
ghost use Rattle.stream_lex.specs.Reading.{is_data as data_item};
ghost use Rattle.stream_lex.specs.declared.place.Place.TheVariants.{Line};

use crate::fault::Fault;
use crate::item::Item;
use crate::look::{Found, look};
use crate::place::Place;
use crate::search::Search;

/// A larger buffer shrinks, though not below this size, once less than a quarter of it is used.
const LARGE_BUFFER: usize = 1_048_576;

/// Where a lexer stands in its buffer.
#[derive(Clone, Copy)]
pub struct Cursor {
    /// How many bytes of the buffer were taken: their items were given.
    pub taken: usize,
    /// What is known about the bytes after them.
    pub place: Place,
    /// How far the search for a line end has come in the bytes after those that were taken.
    pub search: Search,
}

impl Cursor {
    /// Moves past an item or a comment of `len` bytes.
    fn pass(&mut self, len: usize, after_data: bool)
        requires { self.old.taken + len < 2 ^ 64 }
        ensures taken { self.new.taken ≡ self.old.taken + len }
        ensures place { self.new.place ≡ Line after_data }
        ensures seen { self.new.search.seen ≡ 0 }
        ensures searched { self.new.search.searched ≡ self.old.search.searched }
    {
        self.taken += len;
        self.place = Place::Line { after_data };
        self.search.seen = 0;
    }
}

/// Answers the first item after the cursor, if a whole one is there, and moves past it.
pub fn next_item<'a>(bytes: &'a [u8], cursor: &mut Cursor) -> Result<Option<Item<'a>>, Fault>
    requires { IsAt bytes.now cursor.old }
    ensures at { IsAt bytes.now cursor.new }
    ensures first { GivesFirst (tail_of bytes.now cursor.old) result
        (tail_of bytes.now cursor.new) }
    ensures once { SearchesOnce bytes.now cursor.old cursor.new }
{
    'items: loop {
        let rest = bytes.split_at(cursor.taken).1;
        match look(rest, cursor.place, &mut cursor.search) {
            Found::Waits(place) => {
                cursor.place = place;
                return Ok(None);
            }
            Found::Skips(len) => cursor.pass(len, false),
            Found::Gives(item, len) => {
                cursor.pass(len, is_data(&item));
                return Ok(Some(item));
            }
            Found::Fails(fault) => {
                cursor.place = Place::Failed(fault);
                return Err(fault);
            }
        }
    }
}

/// Whether the item is a data, so that a line end directly after it is skipped.
fn is_data(item: &Item) -> bool
    ensures { result ≡ data_item (item_of item.now) }
{
    match item {
        Item::Data(_) => true,
        _ => false,
    }
}

/// Drops the bytes that were taken once they are half of the buffer or more, and shrinks a large
/// buffer of which little is used. Shrinking leaves room for `more` further bytes.
pub fn give_up_taken(buffer: &mut Vec<u8>, cursor: &mut Cursor, more: usize)
    requires { cursor.old.taken ≤ length buffer.old.items }
    ensures rest { rest_of buffer.new.items cursor.new ≡ rest_of buffer.old.items cursor.old }
    ensures inside { cursor.new.taken ≤ length buffer.new.items }
    ensures cursor { cursor.new ≡ record cursor.old { taken = cursor.new.taken } }
{
    let left = buffer.len() - cursor.taken;
    if left <= cursor.taken {
        buffer.copy_within(cursor.taken.., 0);
        buffer.truncate(left);
        cursor.taken = 0;
    }
    let used = buffer.len().saturating_add(more);
    if used < buffer.capacity() / 4 {
        buffer.shrink_to(used.max(LARGE_BUFFER));
    }
}
