//! Deltas, compared with what Git makes of them.
//!
//! `git pack-objects` made `DELTA` of two trees that `git mktree` wrote, and its zlib stream was
//! read by Python. The other deltas are written by hand after gitformat-pack(5).

use git_model::Kind;
use git_names::{Naming, Sha1Naming, name_of};
use pack_deltas::{Fault, patched};
use std::alloc::Global;

// The tree c78a7d21cbcd4a248356c9461b7e96972f0bd17d.
const BASE: &[u8] = b"100644 Makefile\0\xf3\xc7\xa7\xc5\xdah\x80J\x1b\xdf9\x11'\xba4\xae\xd3<<\xca\
    100644 README.md\0\xb4;\xf8kP\xfd\x8d5)\xa0\xdc\x06,0\0n\xd3\x8f0\x9e\
    100644 lib.c\0\xe5\xef\x14\xee\xc1W\x08\x91\x8bB\xba\xd1\xd1\xce\x9b \xc2/\xf5!\
    100644 lib.h\0\xca\x02J\x9a\x08I\x8c\xa2\x04\xf2\x01yC\xa0\xd0zqD\x13V\
    100644 main.c\0\xe2A\x13\x7f\x99\xab\xf6\xeb\xda%\xbe\x121\xfd\xbb\xe8s\x84n\xf2\
    100644 test.c\0`\x98Y\xb5\xb62|\xe1u\xff\x03\xf4\xd7\xa2\x89\xba1m\xe5<";

// It lets `lib.h` hold another blob.
const DELTA: &[u8] =
    b"\xcf\x01\xcf\x01\x90w\x14^\xa2\xedAo\xbdJL\xbe\"{u\xfe%]\xd7\xfak\xd4\xd6\x91\x8bD";

// The SHA-1 of the tree that it makes.
const MADE: &[u8; 40] = b"4fb72cd3bf527ba5520577beef429f2f796db062";

const MOST: usize = 1_000;

fn makes(alloc: Global, base: &[u8], delta: &[u8], text: &[u8]) -> Result<bool, Fault> {
    match patched(alloc, base, delta, MOST)? {
        Some(found) => Ok(found.as_slice() == text),
        None => Ok(false),
    }
}

fn makes_nothing(alloc: Global, base: &[u8], delta: &[u8]) -> Result<bool, Fault> {
    Ok(patched(alloc, base, delta, MOST)?.is_none())
}

// The name of the tree that a delta makes.
fn tree_made(alloc: Global, base: &[u8], delta: &[u8]) -> Result<Option<[u8; 40]>, Fault> {
    let Some(text) = patched(alloc, base, delta, MOST)? else {
        return Ok(None);
    };
    let name = name_of(alloc, &Sha1Naming, Kind::Tree, &text)?;
    Ok(Some(name.to_hex()))
}

#[test]
fn a_delta_of_git_makes_the_tree_of_git(rt: HostRuntime) {
    assert!(rt; tree_made(rt.alloc(), BASE, DELTA) == Ok(Some(*MADE)));
}

#[test]
fn a_delta_that_is_cut_makes_nothing(rt: HostRuntime) {
    for end in 0..DELTA.len() {
        assert!(rt; makes_nothing(rt.alloc(), BASE, &DELTA[..end]) == Ok(true));
    }
}

#[test]
fn a_base_of_another_size_makes_nothing(rt: HostRuntime) {
    assert!(rt; makes_nothing(rt.alloc(), &BASE[..206], DELTA) == Ok(true));
    assert!(rt; makes_nothing(rt.alloc(), b"", DELTA) == Ok(true));
}

#[test]
fn more_than_is_allowed_is_refused(rt: HostRuntime) {
    assert!(rt; patched(rt.alloc(), BASE, DELTA, 207).is_ok());
    assert!(rt; patched(rt.alloc(), BASE, DELTA, 206) == Err(Fault::Limit));
}

#[test]
fn instructions_copy_and_insert(rt: HostRuntime) {
    assert!(rt; makes(rt.alloc(), b"", b"\0\0", b"") == Ok(true));
    assert!(rt; makes(rt.alloc(), b"abc", b"\x03\x02\x02hi", b"hi") == Ok(true));
    assert!(rt; makes(rt.alloc(), b"abc", b"\x03\x03\x90\x03", b"abc") == Ok(true));
    assert!(rt;
        makes(
            rt.alloc(),
            b"abc",
            b"\x03\x05\x91\x01\x02\x01-\x90\x02",
            b"bc-ab"
        ) == Ok(true)
    );
    assert!(rt; makes(rt.alloc(), b"abc", b"\x03\x01\xff\x02\0\0\0\x01\0\0", b"c") == Ok(true));
}

#[test]
fn a_copy_of_no_bytes_is_one_of_65536(rt: HostRuntime) {
    assert!(rt; copies_65536(rt.alloc()) == Ok(true));
}

fn copies_65536(alloc: Global) -> Result<bool, Fault> {
    let Ok(base) = Vec::from_elem(alloc, 7, 65_536) else {
        return Err(Fault::Memory);
    };
    let whole = patched(alloc, &base, b"\x80\x80\x04\x80\x80\x04\x80", 65_536)?;
    let beyond = patched(alloc, &base, b"\x80\x80\x04\x80\x80\x04\x81\x01", 65_536)?;
    match whole {
        Some(text) => Ok(text.as_slice() == base.as_slice() && beyond.is_none()),
        None => Ok(false),
    }
}

// The reserved instruction, more than the base has, and a size that is told wrong.
#[test]
fn what_lies_makes_nothing(rt: HostRuntime) {
    assert!(rt; makes_nothing(rt.alloc(), b"abc", b"\x03\x01\0") == Ok(true));
    assert!(rt; makes_nothing(rt.alloc(), b"abc", b"\x03\x04\x90\x04") == Ok(true));
    assert!(rt; makes_nothing(rt.alloc(), b"abc", b"\x03\x03\x91\x01\x03") == Ok(true));
    assert!(rt; makes_nothing(rt.alloc(), b"abc", b"\x03\x02\x90\x03") == Ok(true));
    assert!(rt; makes_nothing(rt.alloc(), b"abc", b"\x03\x04\x90\x03") == Ok(true));
    assert!(rt; makes_nothing(rt.alloc(), b"abc", b"\x03\x03\x9f\xff\xff\xff\xff\x03") == Ok(true));
}

#[test]
fn a_size_has_at_most_five_bytes(rt: HostRuntime) {
    assert!(rt;
        makes(
            rt.alloc(),
            b"abc",
            b"\x83\x80\x80\x80\0\x03\x90\x03",
            b"abc"
        ) == Ok(true)
    );
    assert!(rt;
        makes_nothing(rt.alloc(), b"abc", b"\x83\x80\x80\x80\x80\0\x03\x90\x03") == Ok(true)
    );
}
