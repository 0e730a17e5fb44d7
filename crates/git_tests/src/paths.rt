//! Paths are read, printed, split and joined, and compared with bytes that were derived by hand.

use git_paths::{Memory, Path, Place, is_component, quote_into};
use std::alloc::{AllocError, Global};

// Quoted paths and their bytes, which are printed in that form.
const QUOTED: &[(&[u8], &[u8])] = &[
    (b"\"a\\303\\251\"", b"a\xc3\xa9"),
    (
        b"\"\\a\\b\\t\\n\\v\\f\\r\\\"\\\\\\001\\177\\377 x\"",
        b"\x07\x08\t\n\x0b\x0c\r\"\\\x01\x7f\xff x",
    ),
];

// Sources, the bytes of their paths, and what comes after the space.
const SOURCES: &[(&[u8], &[u8], &[u8])] = &[
    (b"a/b c d", b"a/b", b"c d"),
    (b"\"a b\" c", b"a b", b"c"),
    (b" c", b"", b"c"),
    (b"\"\" c", b"", b"c"),
];

const BAD_PATHS: &[&[u8]] = &[
    b"a//b",
    b"/a",
    b"a/",
    b"a/./b",
    b"..",
    b"a\0b",
    b"\"a\\000\"",
    b"\"a\\400\"",
    b"\"a\\38\"",
    b"\"a\\x\"",
    b"\"a\\",
    b"\"a",
    b"\"a\" ",
];

const BAD_SOURCES: &[&[u8]] = &[b"a", b"\"a\"", b"\"a\"b c"];

// The quote around a path, the number of its bytes, and the number of the answer.
const LONG: &[(&[u8], usize, u16)] = &[(b"", 16383, 0), (b"", 16384, 25), (b"\"", 16383, 0)];

// The number of components, the number of the answer, and whether such a path is within the limits.
const DEEP: &[(usize, u16, bool)] = &[(256, 0, true), (257, 25, false)];

const COMPONENTS: &[&[u8]] = &[b"a", b"bc", b"d"];

fn read_last(alloc: Global, text: &[u8]) -> Option<Path> {
    match Path::read(alloc, text, Place::Last) {
        Ok((path, _)) => Some(path),
        Err(_) => None,
    }
}

// The number of the answer to this text, 0 if it is read.
fn code_of(alloc: Global, text: &[u8], place: Place) -> u16 {
    match Path::read(alloc, text, place) {
        Ok(_) => 0,
        Err(fault) => fault.code(),
    }
}

// Whether a path has these bytes and is printed in this form, after what was there before.
fn is_printed(alloc: Global, path: &Path, bytes: &[u8], printed: &[u8]) -> bool {
    let mut out = Vec::new(alloc);
    out.extend_from_slice(b"-").is_ok()
        && path.quote_into(&mut out).is_ok()
        && path.as_bytes() == bytes
        && out.strip_prefix(b"-") == Some(printed)
}

fn is_read_and_printed(alloc: Global, text: &[u8], bytes: &[u8]) -> bool {
    match read_last(alloc, text) {
        Some(path) => is_printed(alloc, &path, bytes, text),
        None => false,
    }
}

fn ends_at(alloc: Global, text: &[u8], bytes: &[u8], rest: &[u8]) -> bool {
    match Path::read(alloc, text, Place::Source) {
        Ok((path, left)) => path.as_bytes() == bytes && left == rest,
        Err(_) => false,
    }
}

// The index of the first quoted path that is read or printed differently.
fn first_misprinted(alloc: Global) -> Option<usize> {
    QUOTED
        .iter()
        .position(|row| !is_read_and_printed(alloc, row.0, row.1))
}

// The index of the first source that is read differently.
fn first_source_misread(alloc: Global) -> Option<usize> {
    SOURCES
        .iter()
        .position(|row| !ends_at(alloc, row.0, row.1, row.2))
}

// The index of the first of these texts that is not refused as a bad path.
fn first_not_refused(alloc: Global, texts: &[&[u8]], place: Place) -> Option<usize> {
    texts
        .iter()
        .position(|text| code_of(alloc, text, place) != 10)
}

#[test]
fn reads_and_prints_each_escape(rt: HostRuntime) {
    assert_eq!(rt; first_misprinted(rt.alloc()), None);
}

#[test]
fn refuses_bad_paths_as_ten(rt: HostRuntime) {
    assert_eq!(rt; first_not_refused(rt.alloc(), BAD_PATHS, Place::Last), None);
}

#[test]
fn reads_a_source_up_to_its_space(rt: HostRuntime) {
    assert_eq!(rt; first_source_misread(rt.alloc()), None);
}

#[test]
fn refuses_bad_sources_as_ten(rt: HostRuntime) {
    assert_eq!(rt;
        first_not_refused(rt.alloc(), BAD_SOURCES, Place::Source),
        None
    );
}

// Appends a path of this many components `a`; false if memory ran out.
fn is_deep_path(text: &mut Vec<u8>, components: usize) -> bool {
    for i in 0..components {
        let letters = if i > 0 {
            b"/a".as_slice()
        } else {
            b"a".as_slice()
        };
        if text.extend_from_slice(letters).is_err() {
            return false;
        }
    }
    true
}

fn is_known_as(alloc: Global, bytes: &[u8], components: usize, within: bool) -> bool {
    match Path::from_canonical(alloc, bytes) {
        Ok(Some(path)) => {
            path.is_within_limits() == within && path.component_count() == components
        }
        _ => false,
    }
}

// Whether reading a path of this many components gives this number, and the path knows whether it
// is within the limits.
fn is_deep(alloc: Global, components: usize, code: u16, within: bool) -> bool {
    let mut text = Vec::new(alloc);
    is_deep_path(&mut text, components)
        && is_known_as(alloc, &text, components, within)
        && code_of(alloc, &text, Place::Last) == code
}

fn is_long(alloc: Global, quote: &[u8], bytes: usize, code: u16) -> bool {
    let mut text = Vec::new(alloc);
    text.extend_from_slice(quote).is_ok()
        && text.resize(quote.len().saturating_add(bytes), b'a').is_ok()
        && text.extend_from_slice(quote).is_ok()
        && code_of(alloc, &text, Place::Last) == code
}

// Whether paths are read up to the limit on components, and not past it.
fn are_as_deep(alloc: Global) -> bool {
    DEEP.iter().all(|row| is_deep(alloc, row.0, row.1, row.2))
}

// The same for the limit on bytes.
fn are_as_long(alloc: Global) -> bool {
    LONG.iter().all(|row| is_long(alloc, row.0, row.1, row.2))
}

#[test]
fn reads_up_to_the_limits(rt: HostRuntime) {
    assert!(rt; are_as_deep(rt.alloc()) && are_as_long(rt.alloc()));
}

// Whether a path has the components `a`, `bc` and `d`.
fn has_three_components(alloc: Global, path: &Path) -> bool {
    let collected: Result<Vec<&[u8]>, AllocError> = path.components().collect(alloc);
    match collected {
        Ok(components) => components.as_slice() == COMPONENTS,
        Err(_) => false,
    }
}

// Whether the components are counted, and the first is split off.
fn is_split(path: &Path) -> bool {
    let components = path.components();
    match components.split_first() {
        Some((first, rest)) => {
            components.len() == 3
                && first == b"a".as_slice()
                && rest.len() == 2
                && rest.as_bytes() == b"bc/d".as_slice()
        }
        None => false,
    }
}

fn has_bytes(path: Result<Path, Memory>, bytes: &[u8]) -> bool {
    match path {
        Ok(path) => path.as_bytes() == bytes,
        Err(_) => false,
    }
}

// Whether the components after the prefix `a` are `bc/d`, and can be joined to another path.
fn is_joined(alloc: Global, path: &Path, top: &Path, other: &Path) -> bool {
    match path.strip_prefix(top) {
        Some(rest) => {
            rest.as_bytes() == b"bc/d".as_slice()
                && has_bytes(other.join(alloc, &rest), b"x y/bc/d")
        }
        None => false,
    }
}

fn has_child(alloc: Global, top: &Path) -> bool {
    has_bytes(top.child(alloc, b"n"), b"a/n")
}

fn is_as_its_copy(alloc: Global, path: &Path) -> bool {
    match path.copied(alloc) {
        Ok(copy) => copy == *path,
        Err(_) => false,
    }
}

// Whether the path `a/bc/d` can be split, and its components joined to another path.
fn comes_apart(alloc: Global, path: &Path, top: &Path, other: &Path) -> bool {
    has_three_components(alloc, path)
        && is_split(path)
        && is_as_its_copy(alloc, path)
        && is_joined(alloc, path, top, other)
        && has_child(alloc, top)
}

fn are_read_and_come_apart(alloc: Global) -> bool {
    let path = read_last(alloc, b"a/bc/d");
    let top = read_last(alloc, b"a");
    let other = read_last(alloc, b"x y");
    match (&path, &top, &other) {
        (Some(path), Some(top), Some(other)) => comes_apart(alloc, path, top, other),
        _ => false,
    }
}

fn is_root_alone(alloc: Global) -> bool {
    let root = Path::root(alloc);
    root.is_root() && root.components().len() == 0 && root.components().split_first().is_none()
}

#[test]
fn a_path_comes_apart_and_together(rt: HostRuntime) {
    assert!(rt; are_read_and_come_apart(rt.alloc()) && is_root_alone(rt.alloc()));
}

// Paths compare as bytes: `.` is less than `/`, so `a.txt` comes before `a/x`. It is not below `a`.
fn are_ordered(file: &Path, below: &Path, top: &Path) -> bool {
    file < below && file != below && below.is_at_or_below(top) && !file.is_at_or_below(top)
}

fn are_read_and_ordered(alloc: Global) -> bool {
    let file = read_last(alloc, b"a.txt");
    let below = read_last(alloc, b"a/x");
    let top = read_last(alloc, b"a");
    match (&file, &below, &top) {
        (Some(file), Some(below), Some(top)) => are_ordered(file, below, top),
        _ => false,
    }
}

#[test]
fn paths_are_ordered_by_their_bytes(rt: HostRuntime) {
    assert!(rt; are_read_and_ordered(rt.alloc()));
}

// Whether bytes are those of a canonical path; `None` if memory ran out.
fn is_canonical(alloc: Global, bytes: &[u8]) -> Option<bool> {
    match Path::from_canonical(alloc, bytes) {
        Ok(Some(path)) => Some(path.as_bytes() == bytes),
        Ok(None) => Some(false),
        Err(_) => None,
    }
}

fn is_name_printed(alloc: Global) -> bool {
    let mut out = Vec::new(alloc);
    quote_into(b"n\"", &mut out).is_ok() && out.as_slice() == b"\"n\\\"\"".as_slice()
}

#[test]
fn a_path_of_an_expression_is_never_quoted(rt: HostRuntime) {
    assert!(rt; is_canonical(rt.alloc(), b"\"a\"") == Some(true));
    assert!(rt; is_canonical(rt.alloc(), b"a/") == Some(false));
    assert!(rt; is_name_printed(rt.alloc()));
}

#[test]
fn out_of_memory_is_90(rt: HostRuntime) {
    assert!(rt; Memory.code() == 90);
}

#[test]
fn a_component_has_no_slash(rt: HostRuntime) {
    assert!(rt; is_component(b"a b") && !is_component(b"a/b"));
}
