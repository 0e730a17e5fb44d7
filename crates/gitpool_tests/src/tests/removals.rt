//! Streams that are given up and tenants that are removed, among others that share their contents.

use super::copies::{REFS, STREAM};
use super::rows::{Do, Row, Told, first_otherwise};
use super::saved::{is_saved_as, saved};
use super::told::takes;
use gitpool::{Answer, Service, Sha1Naming};
use std::alloc::Global;

// A blob that the stream of `copies` has too, and one of 7 bytes that it does not have.
pub const OWN: &[u8] = b"blob\ndata 6\nhello\nblob\ndata 7\nsecret\n";

const SECRET: &[u8] = b"secret\n";

// A commit without files on `refs/heads/m`, of 98 bytes, with the empty tree, that is saved; and
// the name that git gives to it.
const SAVED: &[u8] = b"commit refs/heads/m\ncommitter A <a@b> 0 +0000\ndata 2\nx\ncheckpoint\n";

const SAVED_REFS: &[u8] = b"7b8051db3dcc0fcfd006919cfa7376ddbd7bdc1a refs/heads/m\n";

// What comes after it and is not saved: a blob, a commit and a branch.
const NOT_SAVED: &[u8] = b"blob\ndata 3\nabc\n\
    commit refs/heads/m\ncommitter A <a@b> 0 +0000\ndata 2\ny\n\
    reset refs/heads/n\nfrom refs/heads/m\n";

// A HEAD, and a blob of one byte.
const HEAD: &[u8] = b"option gitpool head refs/heads/n\nblob\ndata 1\nz\n";

// A stream is given up while it runs and when it is dead, and what its checkpoint saved is left. A
// bad name is 32, no stream 30. The stream of the other tenant goes on.
const ABANDONED: &[Row] = &[
    (Do::Abandon(b"a"), Told::Refused(30), (0, 0, 0)),
    (Do::Abandon(b"a b"), Told::Refused(32), (0, 0, 0)),
    (Do::Open(b"a"), Told::Done, (0, 0, 0)),
    (Do::Feed(b"a", b"blob\ndata 6\nhe"), Told::Done, (0, 0, 0)),
    (Do::Open(b"c"), Told::Done, (0, 0, 0)),
    (Do::Feed(b"c", SAVED), Told::Done, (2, 98, 1)),
    (Do::Feed(b"c", NOT_SAVED), Told::Done, (4, 247, 1)),
    (Do::Abandon(b"c"), Told::Done, (2, 98, 1)),
    (Do::Ask(b"c", b"refs"), Told::Prints(SAVED_REFS), (2, 98, 1)),
    (Do::Abandon(b"c"), Told::Refused(30), (2, 98, 1)),
    (Do::Open(b"c"), Told::Done, (2, 98, 1)),
    (Do::Feed(b"c", HEAD), Told::Done, (3, 99, 1)),
    (Do::Abandon(b"c"), Told::Done, (2, 98, 1)),
    (
        Do::Ask(b"c", b"head"),
        Told::Prints(b"refs/heads/main\n"),
        (2, 98, 1),
    ),
    (Do::Open(b"c"), Told::Done, (2, 98, 1)),
    (
        Do::Feed(b"c", b"blob\ndata 1\nz\nno\n"),
        Told::Refused(2),
        (2, 98, 1),
    ),
    (Do::Abandon(b"c"), Told::Done, (2, 98, 1)),
    (Do::End(b"c"), Told::Refused(30), (2, 98, 1)),
    (Do::Feed(b"a", b"llo\n"), Told::Done, (3, 104, 1)),
    (Do::End(b"a"), Told::Done, (3, 104, 2)),
];

#[test]
fn an_abandoned_stream_leaves_its_last_checkpoint(rt: HostRuntime) {
    assert_eq!(rt; first_otherwise(rt.alloc(), Sha1Naming, ABANDONED), None);
}

// A tenant is removed with what no other tenant has, unless its stream runs or is dead (31). The
// other tenant keeps what both have. The name is empty when it is used again.
const REMOVED: &[Row] = &[
    (Do::Remove(b"a"), Told::Done, (0, 0, 0)),
    (Do::Remove(b"a b"), Told::Refused(32), (0, 0, 0)),
    (Do::Open(b"b"), Told::Done, (0, 0, 0)),
    (Do::Feed(b"b", OWN), Told::Done, (2, 13, 0)),
    (Do::Remove(b"b"), Told::Refused(31), (2, 13, 0)),
    (Do::End(b"b"), Told::Done, (2, 13, 1)),
    (Do::Open(b"a"), Told::Done, (2, 13, 1)),
    (Do::Feed(b"a", STREAM), Told::Done, (2, 13, 1)),
    (Do::End(b"a"), Told::Done, (4, 140, 2)),
    (Do::Copy(b"a", b"c"), Told::Done, (4, 140, 3)),
    (Do::Open(b"b"), Told::Done, (4, 140, 3)),
    (Do::Feed(b"b", b"no\n"), Told::Refused(2), (4, 140, 3)),
    (Do::Remove(b"b"), Told::Refused(31), (4, 140, 3)),
    (Do::Abandon(b"b"), Told::Done, (4, 140, 3)),
    (Do::Remove(b"b"), Told::Done, (3, 133, 2)),
    (Do::Ask(b"b", b"cat ce01"), Told::Refused(16), (3, 133, 2)),
    (Do::Ask(b"a", b"refs"), Told::Prints(REFS), (3, 133, 2)),
    (Do::Remove(b"a"), Told::Done, (3, 133, 1)),
    (Do::Ask(b"a", b"refs"), Told::Done, (3, 133, 1)),
    (Do::Ask(b"c", b"refs"), Told::Prints(REFS), (3, 133, 1)),
    (Do::Copy(b"c", b"a"), Told::Done, (3, 133, 2)),
    (Do::Ask(b"a", b"refs"), Told::Prints(REFS), (3, 133, 2)),
    (Do::Remove(b"c"), Told::Done, (3, 133, 1)),
    (Do::Remove(b"a"), Told::Done, (0, 0, 0)),
    (Do::Open(b"b"), Told::Done, (0, 0, 0)),
    (Do::Feed(b"b", OWN), Told::Done, (2, 13, 0)),
    (Do::End(b"b"), Told::Done, (2, 13, 1)),
    (Do::Remove(b"b"), Told::Done, (0, 0, 0)),
];

#[test]
fn a_removed_tenant_leaves_what_others_have(rt: HostRuntime) {
    assert_eq!(rt; first_otherwise(rt.alloc(), Sha1Naming, REMOVED), None);
}

// Whether two tenants are accepted, one with a stream that the other does not have.
fn takes_others(alloc: Global, service: &mut Service<Sha1Naming>) -> bool {
    takes(alloc, service, b"a", STREAM) && takes(alloc, service, b"c", SAVED)
}

// Whether a third is accepted before them, which shares some contents with each.
fn takes_all(alloc: Global, service: &mut Service<Sha1Naming>) -> bool {
    takes(alloc, service, b"b", OWN)
        && takes(alloc, service, b"b", SAVED)
        && takes(alloc, service, b"b", HEAD)
        && takes_others(alloc, service)
}

// Whether these bytes stand somewhere in a file.
fn has(file: &[u8], bytes: &[u8]) -> bool {
    for place in 0..file.len() {
        if file[place..].starts_with(bytes) {
            return true;
        }
    }
    false
}

// Whether a pool with the third tenant has the blob that is this tenant's alone, and, once the
// tenant is removed, stores and saves what a pool does that never had it.
fn is_as_new(
    alloc: Global,
    removed: &mut Service<Sha1Naming>,
    new: &mut Service<Sha1Naming>,
) -> bool {
    let are_filled = takes_all(alloc, removed) && takes_others(alloc, new);
    let had = has(&saved(alloc, removed), SECRET);
    let is_removed = removed.remove_tenant(b"b") == Answer::Ok;
    let file = saved(alloc, removed);
    let is_same = removed.stored() == new.stored() && is_saved_as(alloc, new, &file);
    are_filled && had && is_removed && is_same && !has(&file, SECRET)
}

#[test]
fn a_pool_after_a_removal_is_saved_as_one_that_was_built_anew(rt: HostRuntime) {
    let mut removed = Service::new(rt.alloc(), Sha1Naming);
    let mut new = Service::new(rt.alloc(), Sha1Naming);
    assert!(rt; is_as_new(rt.alloc(), &mut removed, &mut new));
}
