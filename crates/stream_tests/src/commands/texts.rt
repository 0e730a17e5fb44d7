//! What rows of text cannot show: limits, other bytes, and a parser that has answered a fault.

use super::{Reading, begin};
use std::alloc::Global;
use stream_grammar::{Fault, Parser};
use stream_lex::Item;

// The number of the fault of a line while no command is open; 0 for no fault.
fn number(alloc: Global, line: &[u8]) -> u16 {
    let mut parser = Parser::new(alloc);
    match parser.take(Item::Line(line)) {
        Ok(_) => 0,
        Err(fault) => fault.code(),
    }
}

// The beginning of a line, how many `x` follow it, and the number of the fault.
const LONG_LINES: &[(&[u8], usize, u16)] = &[
    (b"reset refs/heads/", 1013, 0),
    (b"reset refs/heads/", 1014, 25),
    (b"commit refs/heads/..", 1014, 11),
    (b"tag ", 1014, 0),
    (b"tag ", 1015, 25),
    (b"option gitpool head refs/", 1020, 25),
    (b"ls :1 ", 16383, 0),
    (b"ls :1 ", 16384, 25),
    (b"ls :1 a//", 16384, 10),
    (b"ls :0 ", 16384, 12),
];

// Whether a line with this beginning and so many `x` after it has the fault of this number.
fn is_answered(alloc: Global, front: &[u8], count: usize, wanted: u16) -> bool {
    let mut line = Vec::new(alloc);
    line.extend_from_slice(front).is_ok()
        && line.resize(front.len().saturating_add(count), b'x').is_ok()
        && number(alloc, &line) == wanted
}

// The number of `x` in the first line with another answer.
fn first_wrong(alloc: Global) -> Option<usize> {
    let row = LONG_LINES
        .iter()
        .find(|row| !is_answered(alloc, row.0, row.1, row.2))?;
    Some(row.1)
}

#[test]
fn refuses_a_ref_of_1025_bytes_and_a_path_of_16384_after_its_rules(rt: HostRuntime) {
    assert_eq!(rt; first_wrong(rt.alloc()), None);
}

// Alone, the first line is malformed, and the others are not.
const REFUSED_ALIKE: &[&[u8]] = &[b"get-mark 5", b"unknown", b"done", b"tag .v"];

impl Reading {
    fn keeps_other_bytes_of_an_ident(&mut self) -> bool {
        let line = b"committer \x00\r\xff <\xfe> 0 +0000";
        self.take(Item::Line(b"commit refs/heads/m")) && self.answers(line, line)
    }

    fn answers_its_fault_from_then_on(&mut self) -> bool {
        for line in REFUSED_ALIKE {
            if !self.answers(line, b"3") {
                return false;
            }
        }
        self.end() && self.shown.is(b"3")
    }

    // Each with a new parser.
    fn keeps_bytes_and_then_its_fault(&mut self) -> bool {
        let keeps = self.keeps_other_bytes_of_an_ident();
        self.begin_anew();
        keeps && self.answers_its_fault_from_then_on()
    }
}

fn keep_bytes_and_faults(alloc: Global) -> bool {
    let mut reading = begin(alloc);
    let keep = reading.keeps_bytes_and_then_its_fault();
    drop(reading);
    keep
}

#[test]
fn answers_by_all_bytes_and_numbers_its_faults(rt: HostRuntime) {
    assert!(rt; keep_bytes_and_faults(rt.alloc()));
    assert_eq!(rt; Fault::Malformed.code(), 3);
    assert_eq!(rt; (Fault::BadMode.code(), Fault::Memory.code()), (23, 90));
}
