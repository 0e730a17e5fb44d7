//! Idents compared with what git fast-import writes, and the numbers of their faults.

use git_names::{Ident, IdentFault, is_written_ident};
use std::alloc::Global;

const PLAIN: &[u8] = b"A U Thor <author@example.com> 1700000000 +0130";

// A text, the ident as git fast-import writes it, and its seconds.
const READ: &[(&[u8], &[u8], u64)] = &[
    (PLAIN, PLAIN, 1700000000),
    (b" <a@b> 0 +0000", b" <a@b> 0 +0000", 0),
    (b"<a@b> 0 +0000", b" <a@b> 0 +0000", 0),
    (
        b"A <a@b> 00000000001700000000 -0800",
        b"A <a@b> 00000000001700000000 -0800",
        1700000000,
    ),
];

// A text, and the number of its fault.
const REFUSED: &[(&[u8], u16)] = &[
    (b"A<a@b> 0 +0000", 21),
    (b"A <a@b>0 +0000", 21),
    (b"A <a@b>x", 21),
    (b"A >a@b< 0 +0000", 21),
    (b"", 21),
    (b"A <a@b> ", 22),
    (b"A <a@b> 000000000000000000000 +0000", 22),
    (b"A <a@b> 18446744073709551616 +0000", 22),
    (b"A <a@b> 0 +000", 22),
    (b"A <a@b> 0 +000000", 22),
];

// Whether a text is read as this ident with these seconds.
fn is_read_as(alloc: Global, text: &[u8], written: &[u8], seconds: u64) -> bool {
    match Ident::read(alloc, text) {
        Ok(ident) => ident.as_bytes() == written && ident.time() == seconds,
        Err(_) => false,
    }
}

fn is_refused_under(alloc: Global, text: &[u8], code: u16) -> bool {
    match Ident::read(alloc, text) {
        Ok(_) => false,
        Err(fault) => fault.code() == code,
    }
}

fn is_taken(alloc: Global, text: &[u8]) -> bool {
    matches!(Ident::from_written(alloc, text), Ok(Some(_)))
}

// The index of the first text that is read differently.
fn first_misread(alloc: Global) -> Option<usize> {
    READ.iter()
        .position(|row| !is_read_as(alloc, row.0, row.1, row.2))
}

// The index of the first text that is not refused as it should be.
fn first_taken(alloc: Global) -> Option<usize> {
    REFUSED
        .iter()
        .position(|row| !is_refused_under(alloc, row.0, row.1))
}

#[test]
fn reads_idents_as_git_does_and_tells_a_bad_identity_from_a_bad_date(rt: HostRuntime) {
    assert_eq!(rt; first_misread(rt.alloc()), None);
    assert_eq!(rt; first_taken(rt.alloc()), None);
}

#[test]
fn numbers_a_want_of_memory(rt: HostRuntime) {
    assert!(rt; IdentFault::Memory.code() == 90);
}

#[test]
fn takes_only_idents_that_objects_have(rt: HostRuntime) {
    assert!(rt; is_written_ident(b" <a@b> 0 +0000") && !is_written_ident(b"<a@b> 0 +0000"));
    assert!(rt; is_taken(rt.alloc(), b"A <a@b> 0 +0000"));
}
