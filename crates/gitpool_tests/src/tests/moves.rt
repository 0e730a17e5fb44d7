//! Tenants that are moved: extracted from one service, removed there, and merged into another one.

use super::copies::{REFS, STREAM};
use super::removals::OWN;
use super::saved::{is_saved_as, saved};
use super::told::{asks, code_of, feeds, takes, tells};
use gitpool::{Answer, Counted, Service, Sha1Naming, Step};
use std::alloc::Global;

const HEAD: &[u8] = b"option gitpool head refs/heads/m\n";

const HEAD_LINE: &[u8] = b"refs/heads/m\n";

// What the query `cat` prints of the blob that both have.
const HELLO: &[u8] = b"ce013625030ba8dba906f756967f9e9ca394464a blob 6\nhello\n\n";

// A service with a stream for each of these tenants.
fn is_filled(alloc: Global, service: &mut Service<Sha1Naming>, streams: &[(&[u8], &[u8])]) -> bool {
    for (tenant, stream) in streams {
        if !takes(alloc, service, tenant, stream) {
            return false;
        }
    }
    true
}

// Writes the file of one tenant, and answers the number of the fault, or 0.
fn extract(service: &Service<Sha1Naming>, tenant: &[u8], file: &mut Counted<Vec<u8>>) -> u16 {
    match service.extract(tenant, file) {
        Ok(()) => 0,
        Err(fault) => fault.code(),
    }
}

// The file of one tenant; nothing if it was refused.
fn file_of(alloc: Global, service: &Service<Sha1Naming>, tenant: &[u8]) -> Vec<u8> {
    let mut writer = Counted::new(Vec::new(alloc));
    extract(service, tenant, &mut writer);
    writer.into_inner()
}

// Whether a tenant is refused under this number, and nothing is written.
fn is_refused(alloc: Global, service: &Service<Sha1Naming>, tenant: &[u8], number: u16) -> bool {
    let mut writer = Counted::new(Vec::new(alloc));
    let code = extract(service, tenant, &mut writer);
    let calls = writer.calls();
    let file = writer.into_inner();
    code == number && calls == 0 && file.is_empty()
}

fn merged(service: &mut Service<Sha1Naming>, other: Service<Sha1Naming>) -> u16 {
    let answer = service.merge(&other);
    drop(other);
    code_of(answer)
}

// The number that refuses a file, or the merge of the service that it gives; 0 if none does.
fn merge_file(alloc: Global, service: &mut Service<Sha1Naming>, file: &[u8]) -> u16 {
    let mut reader = Counted::new(file);
    match Service::load(alloc, Sha1Naming, &mut reader) {
        Ok(other) => merged(service, other),
        Err(fault) => fault.code(),
    }
}

// Whether these tenants have what they have in `STREAMS`, and nothing is stored twice.
fn has_both(alloc: Global, service: &mut Service<Sha1Naming>) -> bool {
    service.stored() == (4, 140)
        && service.tenants() == 2
        && asks(alloc, service, b"a", b"refs", REFS)
        && asks(alloc, service, b"a", b"head", HEAD_LINE)
        && asks(alloc, service, b"b", b"cat ce01", HELLO)
}

const STREAMS: &[(&[u8], &[u8])] = &[(b"a", STREAM), (b"b", OWN), (b"a", HEAD)];

const ALONE: &[(&[u8], &[u8])] = &[(b"a", STREAM), (b"a", HEAD)];

// Whether `a` is removed from a service and comes back from its file, which is that of a service
// that never had another tenant.
fn comes_back_to(
    alloc: Global,
    service: &mut Service<Sha1Naming>,
    alone: &mut Service<Sha1Naming>,
) -> bool {
    let are_filled = is_filled(alloc, service, STREAMS) && is_filled(alloc, alone, ALONE);
    let file = file_of(alloc, service, b"a");
    let is_alone = is_saved_as(alloc, alone, &file);
    let is_removed = service.remove_tenant(b"a") == Answer::Ok && service.stored() == (2, 13);
    let is_back = merge_file(alloc, service, &file) == 0 && has_both(alloc, service);
    let again = file_of(alloc, service, b"a");
    are_filled && is_alone && is_removed && is_back && again == file
}

#[test]
fn a_tenant_that_is_extracted_and_merged_is_the_same(rt: HostRuntime) {
    let mut service = Service::new(rt.alloc(), Sha1Naming);
    let mut alone = Service::new(rt.alloc(), Sha1Naming);
    assert!(rt; comes_back_to(rt.alloc(), &mut service, &mut alone));
}

// Whether a bad name (32) and a stream that runs or is dead (31) are refused, and a tenant that was
// never seen gives the file of no tenants.
fn are_refused_by(alloc: Global, service: &mut Service<Sha1Naming>) -> bool {
    let empty = is_saved_as(alloc, service, &file_of(alloc, service, b"x"));
    let opened = is_filled(alloc, service, STREAMS)
        && tells(alloc, service, Step::Open { tenant: b"a" }, 0, b"")
        && tells(alloc, service, Step::Open { tenant: b"b" }, 0, b"")
        && feeds(alloc, service, b"b", b"no\n", 2, b"");
    empty
        && opened
        && is_refused(alloc, service, b"a b", 32)
        && is_refused(alloc, service, b"a", 31)
        && is_refused(alloc, service, b"b", 31)
}

#[test]
fn a_tenant_with_a_stream_is_not_extracted(rt: HostRuntime) {
    let mut service = Service::new(rt.alloc(), Sha1Naming);
    assert!(rt; are_refused_by(rt.alloc(), &mut service));
}

// Whether the merge of a file is refused under this number and changes nothing.
fn changes_nothing(
    alloc: Global,
    service: &mut Service<Sha1Naming>,
    file: &[u8],
    number: u16,
) -> bool {
    let before = saved(alloc, service);
    let stored = service.stored();
    let code = merge_file(alloc, service, file);
    code == number && service.stored() == stored && is_saved_as(alloc, service, &before)
}

// Whether the first tenant in the order of names decides: `c`, which only the other service has,
// never does; `a` has something (33), and then a stream (31); and then `b` has something (33).
fn first_decides_in(
    alloc: Global,
    service: &mut Service<Sha1Naming>,
    other: &mut Service<Sha1Naming>,
) -> bool {
    let are_filled = is_filled(alloc, other, STREAMS)
        && takes(alloc, other, b"c", OWN)
        && is_filled(alloc, service, STREAMS)
        && tells(alloc, service, Step::Open { tenant: b"b" }, 0, b"");
    let file = saved(alloc, other);
    let has_something = changes_nothing(alloc, service, &file, 33);
    let opened = tells(alloc, service, Step::Open { tenant: b"a" }, 0, b"")
        && tells(alloc, service, Step::End { tenant: b"b" }, 0, b"");
    let has_a_stream = changes_nothing(alloc, service, &file, 31);
    let removed = tells(alloc, service, Step::End { tenant: b"a" }, 0, b"")
        && service.remove_tenant(b"a") == Answer::Ok;
    let has_the_other = changes_nothing(alloc, service, &file, 33);
    are_filled && has_something && opened && has_a_stream && removed && has_the_other
}

#[test]
fn a_merge_is_refused_by_the_first_tenant_that_both_have(rt: HostRuntime) {
    let mut service = Service::new(rt.alloc(), Sha1Naming);
    let mut other = Service::new(rt.alloc(), Sha1Naming);
    assert!(rt; first_decides_in(rt.alloc(), &mut service, &mut other));
}

// Whether a content that both services have is stored once after a merge, and a stream that runs in
// the other service comes as its last checkpoint.
fn shares_contents(
    alloc: Global,
    service: &mut Service<Sha1Naming>,
    other: &mut Service<Sha1Naming>,
) -> bool {
    let are_filled = takes(alloc, service, b"b", OWN)
        && is_filled(alloc, other, ALONE)
        && tells(alloc, other, Step::Open { tenant: b"a" }, 0, b"")
        && feeds(alloc, other, b"a", b"blob\ndata 1\nz\n", 0, b"");
    are_filled && service.merge(other) == Answer::Ok && has_both(alloc, service)
}

#[test]
fn a_content_that_both_services_have_is_stored_once_after_a_merge(rt: HostRuntime) {
    let mut service = Service::new(rt.alloc(), Sha1Naming);
    let mut other = Service::new(rt.alloc(), Sha1Naming);
    assert!(rt; shares_contents(rt.alloc(), &mut service, &mut other));
}
