//! The objects of tenants, under their names.

use super::indexed::Row;
use super::parts::{Object, with_names};
use git_names::{Name, Naming, Sha1Naming, TailNaming};
use indexmap::IndexMap;
use pool_file_checks::index_objects;
use pool_file_format::Fault;
use std::alloc::Global;

const OBJECTS: &[Object<'static>] = &[
    (
        1,
        b"tree 4b825dc642cb6eb9a060e54bf8d69288fbee4904\nauthor A <a@b> 0 +0000\ncommitter A <a@b> 0 +0000\n\nx\n",
    ),
    (2, b""),
    (3, b"hello\n"),
    (
        4,
        b"object 7b8051db3dcc0fcfd006919cfa7376ddbd7bdc1a\ntype commit\ntag v1\ntagger A <a@b> 0 +0000\n\nx\n",
    ),
];

// The digits that `git hash-object` gave for each of them.
const DIGITS: &[&[u8; 40]] = &[
    b"7b8051db3dcc0fcfd006919cfa7376ddbd7bdc1a",
    b"4b825dc642cb6eb9a060e54bf8d69288fbee4904",
    b"ce013625030ba8dba906f756967f9e9ca394464a",
    b"326d219769eb2a3327008a67a29a7d32393620de",
];

// The name that `TailNaming` gives the blobs `ab` and `ba`, counted by hand: nineteen bytes 0xab,
// and the sum modulo 256 of the bytes of `blob 2`, of a NUL, of `a` and of `b`.
const AB: &[u8; 40] = b"abababababababababababababababababababb4";

const OBJECTS_BY_TAIL: &[Object<'static>] = &[(3, b"ab"), (3, b"ba")];

const ROWS: &[Row<'static>] = &[
    (&[], 0),
    (&[2], 0),
    (&[2, 1, 0, 3], 0),
    // One object twice.
    (&[2, 2], 64),
    (&[1, 3, 0, 1], 64),
];

const ROWS_BY_TAIL: &[Row<'static>] = &[
    (&[1], 0),
    // Two objects of one name.
    (&[0, 1], 64),
    (&[1, 0], 64),
];

fn are_named_so(names: &[Name], digits: &[&[u8; 40]]) -> bool {
    for (place, digits) in digits.iter().enumerate() {
        match names.get(place) {
            Some(id) if id.to_hex() == **digits => (),
            _ => return false,
        }
    }
    names.len() == digits.len()
}

// Whether an index has exactly these numbers, in this order, each under its name.
fn has_numbers(index: &IndexMap<Name, usize>, names: &[Name], numbers: &[u64]) -> bool {
    for (place, number) in numbers.iter().enumerate() {
        match index.get_index(place) {
            Some((id, found)) if *found as u64 == *number && names.get(*found) == Some(id) => (),
            _ => return false,
        }
    }
    index.len() == numbers.len()
}

fn is_indexed_so(alloc: Global, names: &[Name], row: &Row<'_>) -> bool {
    match index_objects(alloc, names, row.0) {
        Ok(index) => row.1 == 0 && has_numbers(&index, names, row.0),
        Err(fault) => row.1 == fault.code(),
    }
}

fn are_indexed_so(alloc: Global, names: &[Name], rows: &[Row<'_>]) -> bool {
    for row in rows {
        if !is_indexed_so(alloc, names, row) {
            return false;
        }
    }
    true
}

fn are_taken_so<N: Naming>(
    alloc: Global,
    naming: &N,
    objects: &[Object<'_>],
    digits: &[&[u8; 40]],
    rows: &[Row<'_>],
) -> Result<bool, Fault> {
    let file = with_names(alloc, naming, objects)?;
    Ok(are_named_so(&file.names, digits) && are_indexed_so(alloc, &file.names, rows))
}

#[test]
fn names_are_those_of_git_and_distinct(rt: HostRuntime) {
    assert!(rt; are_taken_so(rt.alloc(), &Sha1Naming, OBJECTS, DIGITS, ROWS) == Ok(true));
}

#[test]
fn two_objects_of_one_name_are_refused(rt: HostRuntime) {
    let digits = &[AB, AB];
    let taken = are_taken_so(
        rt.alloc(),
        &TailNaming,
        OBJECTS_BY_TAIL,
        digits,
        ROWS_BY_TAIL,
    );
    assert!(rt; taken == Ok(true));
}
