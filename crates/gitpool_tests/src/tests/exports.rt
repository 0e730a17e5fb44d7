//! What a tenant exports, imported by another tenant, and what a copy leaves instead. The refs are
//! compared with those that git makes of the same stream, and so is each object that they reach.

use super::told::{asks, takes};
use gitpool::{Answer, Service, Sha1Naming, Step};
use std::alloc::Global;

// A stream with an encoding, a quoted path, a gitlink, a merge with one parent twice, a tag, a tag
// of that tag, and a ref `refs/tags/v` that names a commit.
const STREAM: &[u8] = b"blob\n\
    mark :1\n\
    data 6\n\
    hello\n\
    commit refs/heads/m\n\
    mark :2\n\
    author A <a@b> 0 +0000\n\
    committer C <c@d> 5 -0730\n\
    encoding iso-8859-1\n\
    data 3\n\
    t\xe9\n\
    M 644 :1 \"a\\tb/\\\"c\"\n\
    M 160000 0123456789012345678901234567890123456789 sub\n\
    \n\
    commit refs/heads/side\n\
    mark :3\n\
    committer C <c@d> 6 +0000\n\
    data 0\n\
    from :2\n\
    M 755 :1 run\n\
    \n\
    commit refs/heads/m\n\
    mark :4\n\
    committer C <c@d> 7 +0000\n\
    data 2\n\
    m\n\
    from :2\n\
    merge :3\n\
    merge :3\n\
    M 120000 :1 link\n\
    \n\
    tag w\n\
    mark :5\n\
    from :4\n\
    tagger T <t@u> 8 +0000\n\
    data 2\n\
    w\n\
    tag x\n\
    mark :6\n\
    from :5\n\
    data 2\n\
    x\n\
    reset refs/tags/v\n\
    from :3\n";

// What `git show-ref` prints after `git fast-import` of it.
const REFS: &[u8] = b"2ce4fb54e829ef408745cc2487db62f8279d41e3 refs/heads/m\n\
    331cc4b3a53bbdd787610fa570f278538603427d refs/heads/side\n\
    331cc4b3a53bbdd787610fa570f278538603427d refs/tags/v\n\
    2cf6119f08a399d8f12cf4266d33696154dcb723 refs/tags/w\n\
    cb4d0c64365cac602ea039e82f97cc2a5c0ad373 refs/tags/x\n";

// Queries for its objects: the blob, the trees, the commits and the tags.
const CATS: &[&[u8]] = &[
    b"cat ce013625030ba8dba906f756967f9e9ca394464a",
    b"cat 2ce4fb54e829ef408745cc2487db62f8279d41e3",
    b"cat 331cc4b3a53bbdd787610fa570f278538603427d",
    b"cat f132f24307afb428254b7367de0328c1868378c4",
    b"cat 2cf6119f08a399d8f12cf4266d33696154dcb723",
    b"cat cb4d0c64365cac602ea039e82f97cc2a5c0ad373",
    b"cat 210d9e16e83ba8db829bb81fcab888d3e97c4d3b",
    b"cat bd9d347b3107d05fbfefcdadbc9755a738bb4202",
    b"cat 5b825f3be026967ca4d0e28f760f27d0c9fcb128",
    b"cat 613be488e0339e88419adf4c97f790a9c7fe6fad",
];

// The answer to a tenant's query; empty if the query is refused.
fn answer_of(
    alloc: Global,
    service: &mut Service<Sha1Naming>,
    tenant: &[u8],
    query: &[u8],
) -> Vec<u8> {
    let mut out = Vec::new(alloc);
    let _ = service.step(Step::Ask { tenant, query }, &mut out);
    out
}

// Whether a tenant gets the same answer to a query as another tenant, and the answer is not empty.
fn is_told_the_same(
    alloc: Global,
    service: &mut Service<Sha1Naming>,
    tenant: &[u8],
    other: &[u8],
    query: &[u8],
) -> bool {
    let told = answer_of(alloc, service, other, query);
    !told.is_empty() && asks(alloc, service, tenant, query, &told)
}

// Whether a tenant gets the same answer as `a` for each object.
fn has_objects(alloc: Global, service: &mut Service<Sha1Naming>, tenant: &[u8]) -> bool {
    for query in CATS {
        if !is_told_the_same(alloc, service, tenant, b"a", query) {
            return false;
        }
    }
    true
}

// Whether a tenant imports what another exports, and nothing is refused.
fn takes_export(
    alloc: Global,
    service: &mut Service<Sha1Naming>,
    tenant: &[u8],
    other: &[u8],
) -> bool {
    let text = answer_of(alloc, service, other, b"export");
    takes(alloc, service, tenant, &text)
}

fn is_moved(alloc: Global, service: &mut Service<Sha1Naming>) -> bool {
    takes_export(alloc, service, b"b", b"a")
        && takes_export(alloc, service, b"c", b"b")
        && is_told_the_same(alloc, service, b"c", b"b", b"export")
}

fn is_copied(alloc: Global, service: &mut Service<Sha1Naming>) -> bool {
    let stored = service.stored();
    let answer = service.copy_tenant(b"a", b"d");
    answer == Answer::Ok
        && service.stored() == stored
        && is_told_the_same(alloc, service, b"d", b"b", b"export")
}

// Whether each tenant has the refs of the stream, and its objects.
fn have_the_same(alloc: Global, service: &mut Service<Sha1Naming>) -> bool {
    for tenant in [b"a", b"b", b"c", b"d"] {
        if !asks(alloc, service, tenant, b"refs", REFS) || !has_objects(alloc, service, tenant) {
            return false;
        }
    }
    true
}

fn goes_round(alloc: Global, service: &mut Service<Sha1Naming>) -> bool {
    takes(alloc, service, b"a", STREAM)
        && is_moved(alloc, service)
        && is_copied(alloc, service)
        && have_the_same(alloc, service)
}

#[test]
fn an_export_and_a_copy_leave_the_same_repository(rt: HostRuntime) {
    let mut service = Service::new(rt.alloc(), Sha1Naming);
    assert!(rt; goes_round(rt.alloc(), &mut service));
}
