//! Ref names: `git check-ref-format` gives the same answer for each text that begins with `refs/`.

use git_names::{RefName, RefNameFault, is_ref_name};
use std::alloc::Global;

const JUDGED: &[(&[u8], bool)] = &[
    (b"refs/heads/main", true),
    (b"refs/heads/a.b", true),
    (b"refs/heads/a.lock.b", true),
    (b"refs/heads/-@a", true),
    (b"refs/heads/@", true),
    (b"refs/heads/a@b{c", true),
    (b"refs/heads/\xc3\xa9\xff", true),
    (b"refs/x", true),
    (b"refs/heads/.b", false),
    (b"refs/heads/a.lock/b", false),
    (b"refs/heads/a..b", false),
    (b"refs/heads/a b", false),
    (b"refs/heads/a\x7f", false),
    (b"refs/heads/a\tb", false),
    (b"refs/heads/a:b", false),
    (b"refs/heads/a\\b", false),
    (b"refs/heads//b", false),
    (b"refs/heads/a/", false),
    (b"refs/heads/a.", false),
    (b"refs/heads/a@{b", false),
    (b"refs/", false),
    (b"@", false),
    // Two rules of our own.
    (b"HEAD", false),
    (b"heads/main", false),
    (b"refs/namespaces/x/refs/heads/y", false),
];

// The beginning of a name, how many `x` follow it, its end, and the number of the answer.
const READ: &[(&[u8], usize, &[u8], u16)] = &[
    (b"refs/heads/main", 0, b"", 0),
    (b"HEAD", 0, b"", 0),
    (b"refs/heads/", 1013, b"", 0),
    (b"refs/heads/", 1014, b"", 25),
    (b"refs/heads/", 1014, b"~", 11),
    (b"refs/namespaces/a/refs/heads/m", 0, b"", 11),
    (b"head", 0, b"", 11),
    (b"main", 0, b"", 11),
];

// The number of the answer to this text, 0 if it is read.
fn code_of(alloc: Global, text: &[u8]) -> u16 {
    match RefName::read(alloc, text) {
        Ok(_) => 0,
        Err(fault) => fault.code(),
    }
}

fn is_answered(alloc: Global, begin: &[u8], count: usize, end: &[u8], code: u16) -> bool {
    let mut text = Vec::new(alloc);
    text.extend_from_slice(begin).is_ok()
        && text.resize(begin.len().saturating_add(count), b'x').is_ok()
        && text.extend_from_slice(end).is_ok()
        && code_of(alloc, &text) == code
}

fn is_as_its_copy(alloc: Global, name: &RefName) -> bool {
    match name.try_clone(alloc) {
        Ok(copy) => copy == *name,
        Err(_) => false,
    }
}

// Whether a text is read as a name that has its bytes, equals its copy, and is or is not HEAD.
fn reads(alloc: Global, text: &[u8], is_head: bool) -> bool {
    match RefName::read(alloc, text) {
        Ok(name) => {
            name.as_bytes() == text && is_as_its_copy(alloc, &name) && name.is_head() == is_head
        }
        Err(_) => false,
    }
}

// Whether a text is read as a name that comes before another.
fn is_before_name(alloc: Global, text: &[u8], second: &RefName) -> bool {
    match RefName::read(alloc, text) {
        Ok(first) => first < *second,
        Err(_) => false,
    }
}

fn is_before(alloc: Global, text: &[u8], second: &[u8]) -> bool {
    match RefName::read(alloc, second) {
        Ok(second) => is_before_name(alloc, text, &second),
        Err(_) => false,
    }
}

// The index of the first text that is judged differently.
fn first_misjudged() -> Option<usize> {
    JUDGED.iter().position(|row| is_ref_name(row.0) != row.1)
}

// The index of the first text that gets another answer.
fn first_misread(alloc: Global) -> Option<usize> {
    READ.iter()
        .position(|row| !is_answered(alloc, row.0, row.1, row.2, row.3))
}

fn has_numbers() -> bool {
    let bad = RefNameFault::BadRefName.code();
    let long = RefNameFault::Limit.code();
    (bad, long, RefNameFault::Memory.code()) == (11, 25, 90)
}

#[test]
fn judges_ref_names_as_git_does(rt: HostRuntime) {
    assert_eq!(rt; first_misjudged(), None);
}

#[test]
fn refuses_what_is_no_ref_name_before_what_is_too_long(rt: HostRuntime) {
    assert_eq!(rt; first_misread(rt.alloc()), None);
}

#[test]
fn numbers_its_faults(rt: HostRuntime) {
    assert!(rt; has_numbers());
}

#[test]
fn reads_a_ref_name_or_head(rt: HostRuntime) {
    assert!(rt; reads(rt.alloc(), b"refs/heads/main", false));
    assert!(rt; reads(rt.alloc(), b"HEAD", true));
}

#[test]
fn orders_ref_names_by_their_bytes(rt: HostRuntime) {
    assert!(rt; is_before(rt.alloc(), b"refs/heads/mailn", b"refs/heads/main"));
}
