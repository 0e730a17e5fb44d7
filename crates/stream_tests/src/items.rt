//! Items: worked streams with the items that they give, cut at every place, and the limits.

use std::alloc::Global;
use stream_lex::{Fault, Item, Lexer};

// A stream, and what it gives: each item with `|` after it, data in `<` and `>`, and how it ends.
const STREAMS: &[(&str, &str)] = &[
    ("", "end"),
    ("blob\nmark :1\n", "blob|mark :1|end"),
    ("# a comment\n#\n\nblob\n", "blank|blob|end"),
    ("data\ndatax\n", "data|datax|end"),
    ("blob", "fault 6"),
    ("# a comment", "fault 6"),
    (
        "data 6\nhello\n\n\nget-mark :1\n",
        "<hello\n>|blank|get-mark :1|end",
    ),
    ("data 0\ncat-blob :1\n", "<>|cat-blob :1|end"),
    ("data 2\nabcat-blob :1\n", "<ab>|cat-blob :1|end"),
    ("data 00000000000000000001\nx", "<x>|end"),
    ("blob\ndata 5\nabcd", "blob|fault 6"),
    (
        "data <<E\nhello\nE\nget-mark :1\n",
        "<hello\n>|get-mark :1|end",
    ),
    ("data <<E\nE\n", "<>|end"),
    ("data <<EN\nE\n EN\n\nEN\n\n\n", "<E\n EN\n\n>|blank|end"),
    ("data <<E\nhello\nE", "fault 6"),
    ("data 67108865\nblob\n", "fault 25"),
    ("data 18446744073709551615\n", "fault 25"),
    ("data 18446744073709551616\n", "fault 4"),
    ("data 000000000000000000001\nx", "fault 4"),
    ("data <<\nblob\n", "fault 4"),
    ("blob\ndata -1\nblob\n", "blob|fault 4"),
];

// Writes an item and a bar after it; answers whether there was room.
fn put(shown: &mut Vec<u8>, item: Item<'_>) -> bool {
    match item {
        Item::Line(text) => put_in(b"", text, b"|", shown),
        Item::Data(raw) => put_in(b"<", raw, b">|", shown),
        Item::Blank => shown.extend_from_slice(b"blank|").is_ok(),
    }
}

fn put_in(before: &[u8], text: &[u8], after: &[u8], shown: &mut Vec<u8>) -> bool {
    shown.extend_from_slice(before).is_ok()
        && shown.extend_from_slice(text).is_ok()
        && shown.extend_from_slice(after).is_ok()
}

// How the stream ends.
fn end_of(lexer: &Lexer) -> &'static [u8] {
    match lexer.end() {
        Ok(()) => b"end",
        Err(fault) => match fault.code() {
            1 => b"fault 1",
            4 => b"fault 4",
            6 => b"fault 6",
            25 => b"fault 25",
            _ => b"fault 90",
        },
    }
}

// A test on a new lexer. A delimited data is made of these line ends.
#[derive(Clone, Copy)]
enum Turn<'a> {
    SearchesALine,
    SearchesAData,
    TakesTheLargestData(&'a [u8]),
    RefusesALargerData(&'a [u8]),
}

// A lexer, and what it gave so far.
#[derive(Drop)]
struct Reading {
    lexer: Lexer,
    shown: Vec<u8>,
}

impl Reading {
    // Writes the next item; answers whether there was one, and room for it.
    fn show_next(&mut self) -> bool {
        match self.lexer.next() {
            Ok(Some(item)) => put(&mut self.shown, item),
            _ => false,
        }
    }

    // Feeds a piece, and writes the items that it completes. Writes `refused` first if there is no
    // memory for the piece.
    fn feed(&mut self, piece: &[u8]) {
        if self.lexer.feed(piece) == Err(Fault::Memory) {
            let _ = self.shown.extend_from_slice(b"refused");
        }
        for _ in 0..u64::MAX {
            if !self.show_next() {
                return;
            }
        }
    }

    // Feeds a piece byte by byte.
    fn feed_bytes(&mut self, piece: &[u8]) {
        for byte in piece {
            self.feed(&[*byte]);
        }
    }

    // Writes how the stream ends, and compares all that was written.
    fn ends_with(&mut self, items: &[u8]) -> bool {
        self.shown.extend_from_slice(end_of(&self.lexer)).is_ok() && self.shown.as_slice() == items
    }

    // The two pieces give these items.
    fn gives(&mut self, one: &[u8], two: &[u8], items: &[u8]) -> bool {
        self.feed(one);
        self.feed(two);
        self.ends_with(items)
    }

    // The stream gives these items byte by byte.
    fn gives_by_bytes(&mut self, stream: &[u8], items: &[u8]) -> bool {
        self.feed_bytes(stream);
        self.ends_with(items)
    }

    // A line of 1,048,575 bytes, fed byte by byte, is scanned once.
    fn searches_a_line_once(&mut self) -> bool {
        for _ in 0..1_048_575 {
            self.feed(b"l");
        }
        self.feed(b"\n");
        self.shown.len() == 1_048_576 && self.went_over(1_048_576)
    }

    // So are the lines of a delimited data.
    fn searches_a_data_once(&mut self) -> bool {
        self.feed(b"data <<E\n");
        for _ in 0..10_000 {
            self.feed_bytes(b"a line\n");
        }
        self.feed(b"E\n");
        self.shown.len() == 70_003 && self.went_over(70_011)
    }

    // Whether this many bytes were fed and scanned.
    fn went_over(&self, count: u64) -> bool {
        self.lexer.fed() == count && self.lexer.searched() == count
    }

    // Feeds a piece so many times.
    fn feed_often(&mut self, piece: &[u8], times: u32) {
        for _ in 0..times {
            self.feed(piece);
        }
    }

    // Feeds a delimited data of 67,108,863 line ends, and then these bytes.
    fn feed_large_data(&mut self, lines: &[u8], more: &[u8]) {
        self.feed(b"data <<E\n");
        self.feed_often(lines, 1_024);
        self.feed_often(b"\n", 1_023);
        self.feed(more);
    }

    fn takes_the_largest_data(&mut self, lines: &[u8]) -> bool {
        self.feed_large_data(lines, b"\nE\n");
        !self.shown.is_empty() && self.lexer.end() != Err(Fault::Limit)
    }

    fn refuses_a_larger_data(&mut self, lines: &[u8]) -> bool {
        self.feed_large_data(lines, b"x\nE");
        self.shown.is_empty() && self.lexer.end() == Err(Fault::Limit)
    }

    fn goes(&mut self, turn: Turn<'_>) -> bool {
        match turn {
            Turn::SearchesALine => self.searches_a_line_once(),
            Turn::SearchesAData => self.searches_a_data_once(),
            Turn::TakesTheLargestData(lines) => self.takes_the_largest_data(lines),
            Turn::RefusesALargerData(lines) => self.refuses_a_larger_data(lines),
        }
    }
}

fn begin(alloc: Global) -> Reading {
    Reading {
        lexer: Lexer::new(alloc),
        shown: Vec::new(alloc),
    }
}

fn gives(alloc: Global, one: &[u8], two: &[u8], items: &[u8]) -> bool {
    let mut reading = begin(alloc);
    let gives = reading.gives(one, two, items);
    drop(reading);
    gives
}

fn gives_by_bytes(alloc: Global, stream: &[u8], items: &[u8]) -> bool {
    let mut reading = begin(alloc);
    let gives = reading.gives_by_bytes(stream, items);
    drop(reading);
    gives
}

// The stream gives these items, byte by byte and cut at every place.
fn gives_however_cut(alloc: Global, stream: &[u8], items: &[u8]) -> bool {
    for cut in 0..stream.len() {
        let (one, two) = stream.split_at(cut);
        if !gives(alloc, one, two, items) {
            return false;
        }
    }
    gives_by_bytes(alloc, stream, items)
}

// The first stream that gives something else, or none.
fn first_wrong(alloc: Global) -> Option<&'static str> {
    for (stream, items) in STREAMS {
        if !gives_however_cut(alloc, stream.as_bytes(), items.as_bytes()) {
            return Some(stream);
        }
    }
    None
}

// A comment of 1,048,575 bytes: it is read with its line end, and refused with one more byte.
fn limits_a_comment(alloc: Global, comment: &[u8]) -> bool {
    gives(alloc, comment, b"\nblob\n", b"blob|end")
        && gives(alloc, comment, b"x\nblob\n", b"fault 1")
        && gives(alloc, comment, b"x", b"fault 1")
}

fn refuses_a_long_comment(alloc: Global) -> bool {
    let mut comment = Vec::new(alloc);
    comment.resize(1_048_575, b'#').is_ok() && limits_a_comment(alloc, &comment)
}

fn new_reading_goes(alloc: Global, turn: Turn<'_>) -> bool {
    let mut reading = begin(alloc);
    let goes = reading.goes(turn);
    drop(reading);
    goes
}

fn limits_a_delimited_data(alloc: Global) -> bool {
    let mut lines = Vec::new(alloc);
    lines.resize(65_535, b'\n').is_ok()
        && new_reading_goes(alloc, Turn::TakesTheLargestData(&lines))
        && new_reading_goes(alloc, Turn::RefusesALargerData(&lines))
}

// Whether a fault has this message.
fn is_told(alloc: Global, fault: Fault, text: &str) -> bool {
    match fault.to_string(alloc) {
        Ok(told) => told.as_str() == text,
        Err(_) => false,
    }
}

#[test]
fn gives_what_the_streams_say_however_they_are_cut(rt: HostRuntime) {
    assert_eq!(rt; first_wrong(rt.alloc()), None);
}

#[test]
fn refuses_a_line_of_more_than_1048575_bytes(rt: HostRuntime) {
    assert!(rt; refuses_a_long_comment(rt.alloc()));
}

#[test]
fn searches_no_byte_twice(rt: HostRuntime) {
    assert!(rt; new_reading_goes(rt.alloc(), Turn::SearchesALine));
    assert!(rt; new_reading_goes(rt.alloc(), Turn::SearchesAData));
}

#[test]
fn takes_a_delimited_data_of_67108864_bytes_and_no_more(rt: HostRuntime) {
    assert!(rt; limits_a_delimited_data(rt.alloc()));
}

#[test]
fn says_what_is_wrong(rt: HostRuntime) {
    assert!(rt; is_told(rt.alloc(), Fault::CutOff, "the stream is cut off"));
}
