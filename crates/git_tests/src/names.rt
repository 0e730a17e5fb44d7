//! Object names compared with those of `git hash-object`, and digests with examples of FIPS 180-4.

mod idents;
mod ref_names;

use git_names::{Kind, Name, Naming, Sha1Naming, TailNaming, name_of};
use std::alloc::Global;

// A tree of one entry, `100644 test.txt`, whose blob is `version 1 LF`.
const ONE_ENTRY: &[u8; 36] =
    b"100644 test.txt\0\x83\xba\xae\x61\x80\x4e\x65\xcc\x73\xa7\x20\x1a\x72\x52\x75\x0c\x76\x06\x6a\x30";

// Contents, and the digits that `git hash-object` gave.
const NAMED: &[(Kind, &[u8], &[u8; 40])] = &[
    (Kind::Blob, b"", b"e69de29bb2d1d6434b8b29ae775ad8c2e48c5391"),
    (Kind::Tree, b"", b"4b825dc642cb6eb9a060e54bf8d69288fbee4904"),
    (
        Kind::Blob,
        b"hello\n",
        b"ce013625030ba8dba906f756967f9e9ca394464a",
    ),
    (
        Kind::Blob,
        b"version 1\n",
        b"83baae61804e65cc73a7201a7252750c76066a30",
    ),
    (
        Kind::Tree,
        ONE_ENTRY,
        b"d8329fc1cc938780ffdd9f94e0d364e0ea74f579",
    ),
];

// Examples of FIPS 180-4 with one block and with two.
const DIGESTED: &[(&[u8], &[u8; 40])] = &[
    (b"abc", b"a9993e364706816aba3e25717850c26c9cd0d89d"),
    (
        b"abcdbcdecdefdefgefghfghighijhijkijkljklmklmnlmnomnopnopq",
        b"84983e441c3bd26ebaae4aa1f95129e5e54670f1",
    ),
];

// Whether contents have the name with these digits.
fn is_named<N: Naming>(
    alloc: Global,
    naming: &N,
    kind: Kind,
    contents: &[u8],
    digits: &[u8; 40],
) -> bool {
    match name_of(alloc, naming, kind, contents) {
        Ok(id) => id.to_hex() == *digits,
        Err(_) => false,
    }
}

// The index of the first contents that get another name.
fn first_named_otherwise(alloc: Global) -> Option<usize> {
    NAMED
        .iter()
        .position(|row| !is_named(alloc, &Sha1Naming, row.0, row.1, row.2))
}

// The index of the first message that gets another digest.
fn first_digested_otherwise() -> Option<usize> {
    DIGESTED.iter().position(|row| Name::from_bytes(Sha1Naming.digest(row.0)).to_hex() != *row.1)
}

// `blob 2 NUL ab` has the sum 692, which is 0xb4 modulo 256.
fn are_named_by_their_tail(alloc: Global) -> bool {
    let digits = b"abababababababababababababababababababb4";
    is_named(alloc, &TailNaming, Kind::Blob, b"ab", digits)
        && is_named(alloc, &TailNaming, Kind::Blob, b"ba", digits)
}

fn reads_either_case() -> bool {
    let lower = Name::from_hex(b"ce013625030ba8dba906f756967f9e9ca394464a");
    let upper = Name::from_hex(b"CE013625030BA8DBA906F756967F9E9CA394464A");
    lower.is_some() && lower == upper
}

fn reads_no_other_digits() -> bool {
    Name::from_hex(b"ce013625").is_none()
        && Name::from_hex(b"ze013625030ba8dba906f756967f9e9ca394464a").is_none()
}

#[test]
fn names_objects_as_git_does(rt: HostRuntime) {
    assert_eq!(rt; first_named_otherwise(rt.alloc()), None);
}

#[test]
fn digests_as_the_standard_does(rt: HostRuntime) {
    assert_eq!(rt; first_digested_otherwise(), None);
}

#[test]
fn gives_two_contents_one_name_by_their_tail(rt: HostRuntime) {
    assert!(rt; are_named_by_their_tail(rt.alloc()));
}

#[test]
fn reads_a_name_from_digits_of_either_case(rt: HostRuntime) {
    assert!(rt; reads_either_case() && reads_no_other_digits());
}
