//! What is held after each step, of how many tenants, and for which tenant `view` lends something.
//! Contents are held once, and those of a stream go away with it.

use super::rows::{Do, Row, Told, first_otherwise, goes};
use super::told::{asks, code_of, feeds, takes, tells};
use gitpool::{Service, Sha1Naming, Slot, Step};
use std::alloc::Global;

const HELLO: &[u8] = b"blob\nmark :1\ndata 6\nhello\n";

const HELLO_SHOWN: &[u8] = b"ce013625030ba8dba906f756967f9e9ca394464a blob 6\nhello\n\n";

const HELLO_AND_MARK: &[u8] = b"blob\nmark :1\ndata 6\nhello\nget-mark :1\n";

// A commit without files, of 98 bytes, and another one; both have the empty tree.
const COMMIT: &[u8] = b"commit refs/heads/m\ncommitter A <a@b> 0 +0000\ndata 2\nx\n";

const OTHER_COMMIT: &[u8] = b"commit refs/heads/m\ncommitter A <a@b> 0 +0000\ndata 2\ny\n";

// An open commit with a directory, and that directory.
const COMMIT_OF_FILE: &[u8] = b"commit refs/heads/m\ncommitter A <a@b> 0 +0000\ndata 2\nx\n\
    M 644 ce013625030ba8dba906f756967f9e9ca394464a a/x\n";

const DIRECTORY: &[u8] = b"040000 tree e31a96220fbfbe7601ecc086a36b96dc27a8867e\ta\n";

// Two open streams share a content until both are given up.
const SHARED: &[Row] = &[
    (Do::Open(b"a"), Told::Done, (0, 0, 0)),
    (Do::Feed(b"a", HELLO), Told::Done, (1, 6, 0)),
    (Do::Open(b"b"), Told::Done, (1, 6, 0)),
    (Do::Feed(b"b", HELLO), Told::Done, (1, 6, 0)),
    (
        Do::Feed(b"a", b"get-mark :9\n"),
        Told::Refused(13),
        (1, 6, 0),
    ),
    (
        Do::Feed(b"b", b"cat-blob :1\n"),
        Told::Prints(HELLO_SHOWN),
        (1, 6, 0),
    ),
    (Do::Restart, Told::Done, (0, 0, 0)),
];

// The numbers of objects that `a` and `b` list after each of these steps.
const LISTED: &[(usize, usize)] = &[(0, 0), (1, 0), (1, 0), (1, 1), (0, 1), (0, 1), (0, 0)];

// In this order: two tenants share a content. A fault, an end inside a data and an end inside a
// command give up what was not saved. What comes before `done` is saved. A fault after a checkpoint
// leaves the empty tree and the commit that the checkpoint saved. A directory that is shown is
// stored until a fault.
const ROWS: &[Row] = &[
    (Do::Open(b"a"), Told::Done, (0, 0, 0)),
    (Do::Feed(b"a", HELLO), Told::Done, (1, 6, 0)),
    (Do::End(b"a"), Told::Done, (1, 6, 1)),
    (Do::Open(b"b"), Told::Done, (1, 6, 1)),
    (Do::Feed(b"b", HELLO), Told::Done, (1, 6, 1)),
    (Do::End(b"b"), Told::Done, (1, 6, 2)),
    (Do::Open(b"b"), Told::Done, (1, 6, 2)),
    (
        Do::Feed(b"b", b"blob\ndata 1\na\nget-mark :9\n"),
        Told::Refused(13),
        (1, 6, 2),
    ),
    (Do::End(b"b"), Told::Refused(13), (1, 6, 2)),
    (Do::Open(b"b"), Told::Done, (1, 6, 2)),
    (Do::Feed(b"b", b"blob\ndata 1\na\n"), Told::Done, (2, 7, 2)),
    (Do::Feed(b"b", b"blob\ndata 5\nabcd"), Told::Done, (2, 7, 2)),
    (Do::End(b"b"), Told::Refused(6), (1, 6, 2)),
    (Do::Open(b"b"), Told::Done, (1, 6, 2)),
    (
        Do::Feed(b"b", b"blob\ndata 1\na\nblob\n"),
        Told::Done,
        (2, 7, 2),
    ),
    (Do::End(b"b"), Told::Refused(5), (1, 6, 2)),
    (Do::Open(b"c"), Told::Done, (1, 6, 2)),
    (Do::Feed(b"c", HELLO), Told::Done, (1, 6, 2)),
    (Do::Feed(b"c", b"done\nrubbish"), Told::Done, (1, 6, 3)),
    (Do::Restart, Told::Done, (1, 6, 3)),
    (Do::Open(b"d"), Told::Done, (1, 6, 3)),
    (Do::Feed(b"d", COMMIT), Told::Done, (1, 6, 3)),
    (Do::Feed(b"d", b"checkpoint\n"), Told::Done, (3, 104, 4)),
    (Do::Feed(b"d", OTHER_COMMIT), Told::Done, (3, 104, 4)),
    (
        Do::Feed(b"d", b"get-mark :9\n"),
        Told::Refused(13),
        (3, 104, 4),
    ),
    (Do::Open(b"a"), Told::Done, (3, 104, 4)),
    (Do::Feed(b"a", COMMIT_OF_FILE), Told::Done, (3, 104, 4)),
    (
        Do::Feed(b"a", b"ls \"a\"\n"),
        Told::Prints(DIRECTORY),
        (4, 133, 4),
    ),
    (Do::Feed(b"a", b"ls :9 a\n"), Told::Refused(13), (3, 104, 4)),
];

#[test]
fn holds_each_content_once_and_what_was_saved(rt: HostRuntime) {
    assert_eq!(rt; first_otherwise(rt.alloc(), Sha1Naming, ROWS), None);
}

fn listed_of(service: &Service<Sha1Naming>, tenant: &[u8]) -> usize {
    match service.view(tenant) {
        Some((_, table, _)) => table.len(),
        None => 0,
    }
}

// The slot of a tenant's first object.
fn slot_of(service: &Service<Sha1Naming>, tenant: &[u8]) -> Option<Slot> {
    match service.view(tenant) {
        Some((_, table, _)) => match table.at(0) {
            Some((_, slot)) => Some(slot),
            None => None,
        },
        None => None,
    }
}

// Whether `a` and `b` list so many objects. If both have one, it must be in one slot.
fn are_listed(service: &Service<Sha1Naming>, listed: (usize, usize)) -> bool {
    let are_so_many = (listed_of(service, b"a"), listed_of(service, b"b")) == listed;
    are_so_many && (listed != (1, 1) || slot_of(service, b"a") == slot_of(service, b"b"))
}

// The place of the first row of `SHARED` that goes differently or lists other objects.
fn first_listed_otherwise(alloc: Global, service: &mut Service<Sha1Naming>) -> Option<usize> {
    for (place, (row, listed)) in SHARED.iter().zip(LISTED.iter()).enumerate() {
        if !goes(alloc, service, row) || !are_listed(service, *listed) {
            return Some(place);
        }
    }
    None
}

#[test]
fn holds_a_content_of_two_tenants_in_one_slot_until_both_give_it_up(rt: HostRuntime) {
    let mut service = Service::new(rt.alloc(), Sha1Naming);
    assert_eq!(rt; first_listed_otherwise(rt.alloc(), &mut service), None);
}

// Whether the steps of a tenant are answered as expected, and whether `view` lends something of it
// before it opens a stream, although it was named, and afterwards.
fn are_lent(alloc: Global, service: &mut Service<Sha1Naming>) -> (bool, bool, bool) {
    let tenant = b"a".as_slice();
    let named = tells(alloc, service, Step::End { tenant }, 30, b"")
        && feeds(alloc, service, tenant, b"\n", 30, b"")
        && asks(alloc, service, tenant, b"refs", b"");
    let before = service.view(tenant).is_some();
    let opened = tells(alloc, service, Step::Open { tenant }, 0, b"");
    (named && opened, before, service.view(tenant).is_some())
}

#[test]
fn lends_a_tenant_that_has_opened_a_stream(rt: HostRuntime) {
    let mut service = Service::new(rt.alloc(), Sha1Naming);
    assert_eq!(rt; are_lent(rt.alloc(), &mut service), (true, false, true));
}

// Whether a step is answered Ok. What it prints is appended to `out`.
fn is_well(service: &mut Service<Sha1Naming>, step: Step<'_>, out: &mut Vec<u8>) -> bool {
    code_of(service.step(step, out)) == 0
}

// Whether a stream is accepted that is fed in two pieces with a query between them, and what is
// stored after it.
fn held_after(
    service: &mut Service<Sha1Naming>,
    bytes: &[u8],
    later: &[u8],
    out: &mut Vec<u8>,
) -> (bool, (u64, u64)) {
    let tenant = b"t".as_slice();
    let query = b"refs".as_slice();
    let is_taken = is_well(service, Step::Open { tenant }, out)
        && is_well(service, Step::Feed { tenant, bytes }, out)
        && is_well(service, Step::Ask { tenant, query }, out)
        && feeds_rest(service, later, out);
    (is_taken, service.stored())
}

fn feeds_rest(service: &mut Service<Sha1Naming>, bytes: &[u8], out: &mut Vec<u8>) -> bool {
    let tenant = b"t".as_slice();
    is_well(service, Step::Feed { tenant, bytes }, out)
        && is_well(service, Step::End { tenant }, out)
}

fn held_after_two(
    alloc: Global,
    first: &[u8],
    later: &[u8],
    out: &mut Vec<u8>,
) -> (bool, (u64, u64)) {
    let mut service = Service::new(alloc, Sha1Naming);
    let held = held_after(&mut service, first, later, out);
    drop(service);
    held
}

#[test]
fn holds_the_same_wherever_the_stream_is_cut(rt: HostRuntime) {
    let mut out = Vec::new(rt.alloc());
    for cut in 0..=HELLO_AND_MARK.len() {
        let (first, later) = HELLO_AND_MARK.split_at(cut);
        let held = held_after_two(rt.alloc(), first, later, &mut out);
        assert_eq!(rt; held, (true, (1, 6)), "at {cut}");
    }
}

// Whether the tenant of this number stores the blob.
fn stores_hello(alloc: Global, service: &mut Service<Sha1Naming>, number: usize) -> bool {
    match format!(in alloc; "tenant{number}") {
        Ok(tenant) => takes(alloc, service, tenant.as_bytes(), HELLO),
        Err(_) => false,
    }
}

// Whether 1,001 tenants store the blob, and it is stored once.
fn all_store(alloc: Global, service: &mut Service<Sha1Naming>) -> bool {
    for number in 0..1001 {
        if !stores_hello(alloc, service, number) {
            return false;
        }
    }
    service.stored() == (1, 6) && service.tenants() == 1001
}

#[test]
fn serves_one_more_after_a_thousand(rt: HostRuntime) {
    let mut service = Service::new(rt.alloc(), Sha1Naming);
    assert!(rt; all_store(rt.alloc(), &mut service));
}
