//! Files of many tenants that share their contents: loaded and saved unchanged, and devices that
//! fail at each call.

use super::saved::{is_saved_as, refusal_of};
use byte_devices::{FailingReader, FailingWriter};
use gitpool::{Answer, Counted, Naming, PoolFault, Service, Sha1Naming};
use std::alloc::{AllocError, Global};

// A file up to its tenants, with five objects under the names that `git hash-object` gave: a commit
// of the empty tree, that tree, a tree of one file, its blob, and a tag of the commit.
const OBJECTS: &[u8] = b"gitpool\n\0\0\0\x02\0\0\0\0\0\0\0\x05\
\x01\0\0\0\0\0\0\0\x62tree 4b825dc642cb6eb9a060e54bf8d69288fbee4904\n\
author A <a@b> 0 +0000\ncommitter A <a@b> 0 +0000\n\nx\n\
\x02\0\0\0\0\0\0\0\0\
\x02\0\0\0\0\0\0\0\x1d100644 a\0\xce\x016%\x03\x0b\xa8\xdb\xa9\x06\xf7V\x96\x7f\x9e\x9c\xa3\x94FJ\
\x03\0\0\0\0\0\0\0\x06hello\n\
\x04\0\0\0\0\0\0\0\x43object 7b8051db3dcc0fcfd006919cfa7376ddbd7bdc1a\ntype commit\ntag v\n\n";

// The bytes before each of the three places that have a tenant's name of four bytes: its length;
// the numbers of all objects, two refs and the beginning of the first; the end of that ref and the
// beginning of the second.
const BEFORE_NAME: [&[u8]; 3] = [
    b"\0\x04",
    b"\0\0\0\0\0\0\0\x05\0\0\0\0\0\0\0\x01\0\0\0\0\0\0\0\0\0\0\0\0\0\0\0\x03\0\0\0\0\0\0\0\x02\
\0\0\0\0\0\0\0\x04\0\0\0\0\0\0\0\x02\0\x21refs/namespaces/",
    b"/refs/heads/m\0\0\0\0\0\0\0\x01\0\x20refs/namespaces/",
];

// The bytes after the last of these places: the end of the second ref, and HEAD.
const AFTER_NAMES: &[u8] = b"/refs/tags/v\0\0\0\0\0\0\0\x04\0\x0frefs/heads/main";

fn digit(number: u64) -> u8 {
    b'0' + (number % 10) as u8
}

fn append_tenant(file: &mut Vec<u8>, number: u64) -> Result<(), AllocError> {
    let name = [b't', digit(number / 100), digit(number / 10), digit(number)];
    for piece in BEFORE_NAME {
        file.extend_from_slice(piece)?;
        file.extend_from_slice(&name)?;
    }
    file.extend_from_slice(AFTER_NAMES)
}

// Appends at most a thousand tenants, each with all objects, then `further` tenants that are given
// as bytes, and the digest of the file.
fn append_tenants(
    file: &mut Vec<u8>,
    tenants: u64,
    further: u64,
    remaining: &[u8],
) -> Result<(), AllocError> {
    file.extend_from_slice(&tenants.saturating_add(further).to_be_bytes())?;
    for number in 0..tenants {
        append_tenant(file, number)?;
    }
    file.extend_from_slice(remaining)?;
    let digest = Sha1Naming.digest(file);
    file.extend_from_slice(&digest)
}

// Whether there was room for a file with these tenants. The file is appended.
fn is_written(file: &mut Vec<u8>, tenants: u64, further: u64, remaining: &[u8]) -> bool {
    file.extend_from_slice(OBJECTS).is_ok()
        && append_tenants(file, tenants, further, remaining).is_ok()
}

fn load(alloc: Global, file: &[u8]) -> Result<Service<Sha1Naming>, PoolFault> {
    let mut counted = Counted::new(file);
    Service::load(alloc, Sha1Naming, &mut counted)
}

// Whether a service has each content once and so many tenants, and is saved as this file.
fn is_that(alloc: Global, service: &Service<Sha1Naming>, file: &[u8], tenants: u64) -> bool {
    let counts = service.stored() == (5, 200) && service.tenants() == tenants;
    counts && is_saved_as(alloc, service, file)
}

fn is_that_of(alloc: Global, service: Service<Sha1Naming>, file: &[u8], tenants: u64) -> bool {
    let is_that = is_that(alloc, &service, file, tenants);
    drop(service);
    is_that
}

fn is_unchanged(alloc: Global, file: &[u8], tenants: u64) -> bool {
    match load(alloc, file) {
        Ok(service) => is_that_of(alloc, service, file, tenants),
        Err(_) => false,
    }
}

// Whether the file of so many tenants is loaded and saved without a change.
fn goes_unchanged(alloc: Global, tenants: u64) -> bool {
    let mut file = Vec::new(alloc);
    is_written(&mut file, tenants, 0, b"") && is_unchanged(alloc, &file, tenants)
}

#[test]
fn three_tenants_go_unchanged(rt: HostRuntime) {
    assert!(rt; goes_unchanged(rt.alloc(), 3));
}

#[test]
fn a_thousand_tenants_go_unchanged(rt: HostRuntime) {
    assert!(rt; goes_unchanged(rt.alloc(), 1000));
}

// The bytes of the tenant that a copy of any of them leaves: the objects that its refs reach, in
// the order of an export. The tree of one file and its blob are not among them.
const COPY: &[u8] = b"\0\x04tzzz\0\0\0\0\0\0\0\x03\
\0\0\0\0\0\0\0\x01\0\0\0\0\0\0\0\0\0\0\0\0\0\0\0\x04\0\0\0\0\0\0\0\x02\
\0\x21refs/namespaces/tzzz/refs/heads/m\0\0\0\0\0\0\0\x01\
\0\x20refs/namespaces/tzzz/refs/tags/v\0\0\0\0\0\0\0\x02\0\x0frefs/heads/main";

// Whether the last of a thousand tenants is copied, and the service is then saved as this file.
fn copies_last(alloc: Global, service: &mut Service<Sha1Naming>, file: &[u8]) -> bool {
    let is_copied = service.copy_tenant(b"t999", b"tzzz") == Answer::Ok;
    is_copied && is_that(alloc, service, file, 1001)
}

fn copies_last_of(alloc: Global, mut service: Service<Sha1Naming>, file: &[u8]) -> bool {
    let is_copied = copies_last(alloc, &mut service, file);
    drop(service);
    is_copied
}

fn is_last_copied(alloc: Global, file: &[u8], copied: &[u8]) -> bool {
    match load(alloc, file) {
        Ok(service) => copies_last_of(alloc, service, copied),
        Err(_) => false,
    }
}

fn is_copied(alloc: Global) -> bool {
    let mut file = Vec::new(alloc);
    let mut copied = Vec::new(alloc);
    is_written(&mut file, 1000, 0, b"")
        && is_written(&mut copied, 1000, 1, COPY)
        && is_last_copied(alloc, &file, &copied)
}

#[test]
fn one_of_a_thousand_tenants_is_copied(rt: HostRuntime) {
    assert!(rt; is_copied(rt.alloc()));
}

// Whether a reader that fails at any of these calls is blamed, and one that fails later is not.
fn are_readers_blamed_of(alloc: Global, file: &[u8], calls: u64) -> bool {
    for nth in 0..calls {
        let reader = FailingReader::new(file, nth);
        if refusal_of(alloc, Sha1Naming, reader).0 != Some(PoolFault::Device) {
            return false;
        }
    }
    refusal_of(alloc, Sha1Naming, FailingReader::new(file, calls))
        .0
        .is_none()
}

// The same for all calls that loading the file makes.
fn are_all_blamed_of(alloc: Global, file: &[u8]) -> bool {
    let (refusal, calls) = refusal_of(alloc, Sha1Naming, file);
    refusal.is_none() && are_readers_blamed_of(alloc, file, calls)
}

#[test]
fn readers_are_blamed_at_each_call(rt: HostRuntime) {
    let mut file = Vec::new(rt.alloc());
    assert!(rt; is_written(&mut file, 3, 0, b""));
    assert!(rt; are_all_blamed_of(rt.alloc(), &file));
}

// Whether a prefix of the file is written if a writer that takes one byte a call fails at its nth
// call.
fn is_front_saved(alloc: Global, service: &Service<Sha1Naming>, file: &[u8], nth: usize) -> bool {
    let mut writer = Counted::new(FailingWriter::new(Vec::new(alloc), nth as u64));
    let answer = service.save(&mut writer);
    let written = writer.into_inner().into_inner();
    answer == Err(PoolFault::Device) && Some(written.as_slice()) == file.get(..nth)
}

fn are_fronts_saved_of(alloc: Global, service: &Service<Sha1Naming>, file: &[u8]) -> bool {
    for nth in 0..file.len() {
        if !is_front_saved(alloc, service, file, nth) {
            return false;
        }
    }
    true
}

fn are_fronts_of(alloc: Global, service: Service<Sha1Naming>, file: &[u8]) -> bool {
    let are_saved = are_fronts_saved_of(alloc, &service, file);
    drop(service);
    are_saved
}

fn are_fronts_saved_when_loaded(alloc: Global, file: &[u8]) -> bool {
    match load(alloc, file) {
        Ok(service) => are_fronts_of(alloc, service, file),
        Err(_) => false,
    }
}

#[test]
fn a_front_is_saved_where_a_writer_fails(rt: HostRuntime) {
    let mut file = Vec::new(rt.alloc());
    assert!(rt; is_written(&mut file, 3, 0, b""));
    assert!(rt; are_fronts_saved_when_loaded(rt.alloc(), &file));
}
