//! Copies of tenants to empty ones: what a copy leaves, compared with what git makes of the same
//! stream, and what refuses a copy.

use super::rows::{Do, Row, Told, first_otherwise};
use gitpool::Sha1Naming;

// A blob, and a commit of it on `refs/heads/m`: with the tree, three objects of 6, 29 and 98 bytes.
pub const STREAM: &[u8] = b"blob\n\
    mark :1\n\
    data 6\n\
    hello\n\
    commit refs/heads/m\n\
    committer A <a@b> 0 +0000\n\
    data 2\n\
    x\n\
    M 644 :1 f\n";

// What `git show-ref` prints after `git fast-import` of it.
pub const REFS: &[u8] = b"28139c25c808723300683a56bda158d153221c0e refs/heads/m\n";

const HEAD: &[u8] = b"option gitpool head refs/heads/m\n";

// A copy of a tenant that was never seen, even to itself, leaves a tenant that looks as if never
// seen.
const OF_NOBODY: &[Row] = &[
    (Do::Copy(b"x", b"x"), Told::Done, (0, 0, 0)),
    (Do::Copy(b"x", b"x"), Told::Done, (0, 0, 0)),
    (Do::Copy(b"x", b"y"), Told::Done, (0, 0, 0)),
];

#[test]
fn a_tenant_that_was_never_seen_is_copied_to_itself(rt: HostRuntime) {
    assert_eq!(rt; first_otherwise(rt.alloc(), Sha1Naming, OF_NOBODY), None);
}

// A copy has the same refs and stores nothing more. A bad name (32) is refused before an open
// stream (31), and an open stream before a tenant that is not empty (33). A dead stream counts as
// open, and a HEAD of its own makes a tenant not empty.
const OF_TENANTS: &[Row] = &[
    (Do::Open(b"a"), Told::Done, (0, 0, 0)),
    (Do::Feed(b"a", STREAM), Told::Done, (1, 6, 0)),
    (Do::End(b"a"), Told::Done, (3, 133, 1)),
    (Do::Copy(b"a", b"b"), Told::Done, (3, 133, 2)),
    (Do::Ask(b"a", b"refs"), Told::Prints(REFS), (3, 133, 2)),
    (Do::Ask(b"b", b"refs"), Told::Prints(REFS), (3, 133, 2)),
    (Do::Copy(b"a", b"b"), Told::Refused(33), (3, 133, 2)),
    (Do::Ask(b"b", b"refs"), Told::Prints(REFS), (3, 133, 2)),
    (Do::Open(b"a"), Told::Done, (3, 133, 2)),
    (Do::Copy(b"a b", b"a"), Told::Refused(32), (3, 133, 2)),
    (Do::Copy(b"a", b""), Told::Refused(32), (3, 133, 2)),
    (Do::Copy(b"a", b"a"), Told::Refused(31), (3, 133, 2)),
    (Do::Copy(b"a", b"c"), Told::Done, (3, 133, 3)),
    (Do::End(b"a"), Told::Done, (3, 133, 3)),
    (Do::Copy(b"a", b"a"), Told::Refused(33), (3, 133, 3)),
    (Do::Ask(b"a", b"refs"), Told::Prints(REFS), (3, 133, 3)),
    (Do::Open(b"d"), Told::Done, (3, 133, 3)),
    (Do::Feed(b"d", b"no\n"), Told::Refused(2), (3, 133, 3)),
    (Do::Copy(b"a", b"d"), Told::Refused(31), (3, 133, 3)),
    (Do::End(b"d"), Told::Refused(2), (3, 133, 3)),
    (Do::Open(b"e"), Told::Done, (3, 133, 3)),
    (Do::Feed(b"e", HEAD), Told::Done, (3, 133, 3)),
    (Do::End(b"e"), Told::Done, (3, 133, 3)),
    (Do::Copy(b"a", b"e"), Told::Refused(33), (3, 133, 3)),
    (Do::Copy(b"a", b"d"), Told::Done, (3, 133, 4)),
    (Do::Ask(b"d", b"refs"), Told::Prints(REFS), (3, 133, 4)),
    (Do::Copy(b"e", b"f"), Told::Done, (3, 133, 4)),
    (
        Do::Ask(b"f", b"head"),
        Told::Prints(b"refs/heads/m\n"),
        (3, 133, 4),
    ),
];

#[test]
fn a_copy_has_the_same_refs_and_stores_nothing_more_or_is_refused_in_order(rt: HostRuntime) {
    assert_eq!(rt; first_otherwise(rt.alloc(), Sha1Naming, OF_TENANTS), None);
}
