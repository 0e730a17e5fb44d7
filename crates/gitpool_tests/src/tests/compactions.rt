//! Repositories that are compacted, compared with what `git gc --prune=now` leaves of the same
//! streams; what other tenants keep; and what refuses a compaction.

use super::rows::{Do, Row, Told, first_otherwise};
use super::told::{asks, code_of, takes};
use gitpool::{Service, Sha1Naming, Step, TenantSizes};
use std::alloc::Global;

// A blob of 6 bytes, a tree of 29 and a commit of 98 on `refs/heads/m`; a tag `w` of the commit, of
// 92 bytes; and two tags of that tag, `x` and `z`, of 66 bytes each.
const STREAM: &[u8] = b"blob\nmark :1\ndata 6\nhello\n\
    commit refs/heads/m\nmark :2\ncommitter A <a@b> 0 +0000\ndata 2\nx\nM 644 :1 f\n\
    tag w\nmark :3\nfrom :2\ntagger T <t@u> 8 +0000\ndata 2\nw\n\
    tag x\nfrom :3\ndata 2\nx\n\
    tag z\nfrom :3\ndata 2\nz\n";

// A force push of a commit without files, of 98 bytes, with the empty tree; and `x` and `w` are
// removed.
const FORCED: &[u8] = b"feature force\n\
    commit refs/heads/m\ncommitter A <a@b> 0 +0000\ndata 2\ny\n\
    reset refs/tags/x\nfrom 0000000000000000000000000000000000000000\n\
    reset refs/tags/w\nfrom 0000000000000000000000000000000000000000\n";

// `z` is removed too.
const UNTAGGED: &[u8] = b"reset refs/tags/z\nfrom 0000000000000000000000000000000000000000\n";

// What `git show-ref` prints after `git fast-import` of each.
const REFS: &[u8] = b"28139c25c808723300683a56bda158d153221c0e refs/heads/m\n\
    53abc0074978f1bb339d61d75f6bf094e2d91fc5 refs/tags/w\n\
    77697d05f7efeac7479b5c2338fb44581ed0ffef refs/tags/x\n\
    e486c1a882119ebe995b21b9827fd90250c313c4 refs/tags/z\n";

const FORCED_REFS: &[u8] = b"72392b2120bd1ddc0bbe1e3ebc2507ebbe015caf refs/heads/m\n\
    e486c1a882119ebe995b21b9827fd90250c313c4 refs/tags/z\n";

const UNTAGGED_REFS: &[u8] = b"72392b2120bd1ddc0bbe1e3ebc2507ebbe015caf refs/heads/m\n";

// What `cat` prints of the blob, and of `x`.
const HELLO: &[u8] = b"ce013625030ba8dba906f756967f9e9ca394464a blob 6\nhello\n\n";

const X: &[u8] = b"77697d05f7efeac7479b5c2338fb44581ed0ffef tag 66\n\
    object 53abc0074978f1bb339d61d75f6bf094e2d91fc5\ntype tag\ntag x\n\nx\n\n";

// A tag that is removed goes, and what a tag of a tag leads to stays: the other tag, the old commit,
// its tree and its blob. Once that ref is removed too, a commit and the empty tree are left. What
// another tenant has stays stored. A running and a dead stream refuse a compaction (31), and so
// does a bad name (32).
const ROWS: &[Row] = &[
    (Do::Compact(b"a"), Told::Done, (0, 0, 0)),
    (Do::Compact(b"a b"), Told::Refused(32), (0, 0, 0)),
    (Do::Open(b"a"), Told::Done, (0, 0, 0)),
    (Do::Compact(b"a"), Told::Refused(31), (0, 0, 0)),
    (Do::Feed(b"a", STREAM), Told::Done, (6, 357, 0)),
    (Do::Compact(b"a"), Told::Refused(31), (6, 357, 0)),
    (Do::End(b"a"), Told::Done, (6, 357, 1)),
    (Do::Compact(b"a"), Told::Done, (6, 357, 1)),
    (Do::Ask(b"a", b"refs"), Told::Prints(REFS), (6, 357, 1)),
    (Do::Open(b"a"), Told::Done, (6, 357, 1)),
    (Do::Feed(b"a", FORCED), Told::Done, (8, 455, 1)),
    (Do::End(b"a"), Told::Done, (8, 455, 1)),
    (Do::Ask(b"a", b"cat 77697d"), Told::Prints(X), (8, 455, 1)),
    (Do::Compact(b"a"), Told::Done, (7, 389, 1)),
    (Do::Ask(b"a", b"cat 77697d"), Told::Refused(16), (7, 389, 1)),
    (Do::Ask(b"a", b"cat ce01"), Told::Prints(HELLO), (7, 389, 1)),
    (
        Do::Ask(b"a", b"refs"),
        Told::Prints(FORCED_REFS),
        (7, 389, 1),
    ),
    (Do::Compact(b"a"), Told::Done, (7, 389, 1)),
    (Do::Copy(b"a", b"c"), Told::Done, (7, 389, 2)),
    (Do::Open(b"a"), Told::Done, (7, 389, 2)),
    (Do::Feed(b"a", UNTAGGED), Told::Done, (7, 389, 2)),
    (Do::End(b"a"), Told::Done, (7, 389, 2)),
    (Do::Open(b"a"), Told::Done, (7, 389, 2)),
    (Do::Feed(b"a", b"no\n"), Told::Refused(2), (7, 389, 2)),
    (Do::Compact(b"a"), Told::Refused(31), (7, 389, 2)),
    (Do::End(b"a"), Told::Refused(2), (7, 389, 2)),
    (Do::Compact(b"a"), Told::Done, (7, 389, 2)),
    (Do::Ask(b"a", b"cat ce01"), Told::Refused(16), (7, 389, 2)),
    (
        Do::Ask(b"a", b"refs"),
        Told::Prints(UNTAGGED_REFS),
        (7, 389, 2),
    ),
    (Do::Ask(b"c", b"cat ce01"), Told::Prints(HELLO), (7, 389, 2)),
    (
        Do::Ask(b"c", b"refs"),
        Told::Prints(FORCED_REFS),
        (7, 389, 2),
    ),
    (Do::Compact(b"c"), Told::Done, (7, 389, 2)),
    (Do::Remove(b"c"), Told::Done, (2, 98, 1)),
    (
        Do::Ask(b"a", b"refs"),
        Told::Prints(UNTAGGED_REFS),
        (2, 98, 1),
    ),
    (Do::Open(b"a"), Told::Done, (2, 98, 1)),
    (Do::Feed(b"a", STREAM), Told::Done, (8, 455, 1)),
    (Do::Abandon(b"a"), Told::Done, (2, 98, 1)),
];

#[test]
fn a_compaction_leaves_what_git_gc_leaves(rt: HostRuntime) {
    assert_eq!(rt; first_otherwise(rt.alloc(), Sha1Naming, ROWS), None);
}

// The answer to `export` of a tenant.
fn export_of(alloc: Global, service: &mut Service<Sha1Naming>, tenant: &[u8]) -> Vec<u8> {
    let mut text = Vec::new(alloc);
    let query = b"export";
    let _ = service.step(Step::Ask { tenant, query }, &mut text);
    text
}

// Whether two tenants have as many objects, bytes and refs, and neither has a content of its own.
fn are_as_many(one: &TenantSizes<'_>, other: &TenantSizes<'_>) -> bool {
    (one.objects, one.bytes, one.refs) == (other.objects, other.bytes, other.refs)
        && (one.own_bytes, other.own_bytes) == (0, 0)
}

fn are_alike_in(sizes: &[TenantSizes<'_>]) -> bool {
    match (sizes.get(0), sizes.get(1)) {
        (Some(one), Some(other)) => sizes.len() == 2 && are_as_many(one, other),
        _ => false,
    }
}

// Whether that is so of the two tenants of a service.
fn are_alike(service: &Service<Sha1Naming>) -> bool {
    match service.sizes() {
        Ok(sizes) => are_alike_in(&sizes),
        Err(_) => false,
    }
}

// Whether a compacted tenant has the objects of one that imports its export, and no others, and
// exports the same. The marks of an export count all objects, so they are compared afterwards.
fn has_what_is_exported(alloc: Global, service: &mut Service<Sha1Naming>) -> bool {
    let text = export_of(alloc, service, b"a");
    let imports = takes(alloc, service, b"b", &text);
    let had_more = !are_alike(service);
    let is_compacted = code_of(service.compact_tenant(b"a")) == 0;
    let left = export_of(alloc, service, b"a");
    imports
        && had_more
        && is_compacted
        && are_alike(service)
        && asks(alloc, service, b"b", b"export", &left)
}

#[test]
fn a_compacted_tenant_has_what_an_import_of_its_export_has(rt: HostRuntime) {
    let mut service = Service::new(rt.alloc(), Sha1Naming);
    assert!(rt; takes(rt.alloc(), &mut service, b"a", STREAM));
    assert!(rt; takes(rt.alloc(), &mut service, b"a", FORCED));
    assert!(rt; has_what_is_exported(rt.alloc(), &mut service));
}
