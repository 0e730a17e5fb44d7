//! What a client is missing of a tenant, and packs of it. git made the names, kinds and sizes, and
//! `git index-pack --strict` accepted the pack.

use super::told::{feeds, takes, tells};
use byte_devices::FailingWriter;
use gitpool::{Counted, Kind, MissingObject, Name, PackFault, Service, Sha1Naming, Step};
use std::alloc::{AllocError, Global};

// Two commits: `f` with `hello`, and then `g` with `ab`.
pub const STREAM: &[u8] = b"blob\nmark :1\ndata 6\nhello\n\n\
    commit refs/heads/main\ncommitter A <a@b> 0 +0000\ndata 2\nx\nM 100644 :1 f\n\n\
    blob\nmark :2\ndata 3\nab\n\n\
    commit refs/heads/main\ncommitter A <a@b> 1 +0000\ndata 2\ny\nM 100644 :2 g\n\n";

const FIRST: &[u8] = b"28139c25c808723300683a56bda158d153221c0e";

const SECOND: &[u8] = b"a1a1e7249b6457feefcf075455d315500a842795";

const HELLO: &[u8] = b"ce013625030ba8dba906f756967f9e9ca394464a";

const AB: &[u8] = b"81bf396956110ad81c14860af1bbcc9dfbe4df20";

// The name of the blob that the other tenant alone has.
const FOREIGN: &[u8] = b"fa7af8bf5fdd704f73beb3adc5612682a98e1af5";

// What git lists for the second commit without the first, the objects that are referred to first.
const ADDED: &[(&[u8], Kind, u64)] = &[
    (AB, Kind::Blob, 3),
    (b"463487d62f5c28b7973ad2296f8b1c4b1e4d499c", Kind::Tree, 58),
    (SECOND, Kind::Commit, 146),
];

// The entries of the two blobs, and a pack of the second one.
const ENTRIES: &[u8] = b"\x36\x78\x01\x01\x06\x00\xf9\xffhello\n\x08\x4b\x02\x1f\
    \x33\x78\x01\x01\x03\x00\xfc\xffab\n\x01\xf4\x00\xce";

pub const PACK: &[u8] = b"PACK\x00\x00\x00\x02\x00\x00\x00\x01\
    \x33\x78\x01\x01\x03\x00\xfc\xffab\n\x01\xf4\x00\xce\
    \x60\xf3\xce\x03\x2b\x35\x33\xd5\xab\xb3\xc8\x48\x84\x90\x2c\x75\x96\xb8\xec\x71";

fn names(alloc: Global, digits: &[&[u8]]) -> Result<Vec<Name>, AllocError> {
    let mut names = Vec::new(alloc);
    for word in digits {
        if let Some(id) = Name::from_hex(word) {
            names.push(id)?;
        }
    }
    Ok(names)
}

// A service with a tenant that has the two commits, and another one with a blob of its own.
fn is_filled(alloc: Global, service: &mut Service<Sha1Naming>) -> bool {
    takes(alloc, service, b"acme", STREAM) && takes(alloc, service, b"other", b"blob\ndata 1\nz\n")
}

fn is_told(told: &[MissingObject], expected: &[(&[u8], Kind, u64)]) -> bool {
    let mut same = told.len() == expected.len();
    for (object, (digits, kind, size)) in told.iter().zip(expected.iter()) {
        let hex = object.id.to_hex();
        same = same && hex.as_slice() == *digits && object.kind == *kind && object.size == *size;
    }
    same
}

// Whether just these objects are told; or nothing, under this number.
fn are_told(
    told: &Result<Vec<MissingObject>, PackFault>,
    expected: Result<&[(&[u8], Kind, u64)], u16>,
) -> bool {
    match (told, expected) {
        (Ok(told), Ok(expected)) => is_told(told, expected),
        (Err(fault), Err(code)) => fault.code() == code,
        _ => false,
    }
}

// The same for what these wants reach and these haves do not.
fn tells_missing(
    alloc: Global,
    service: &Service<Sha1Naming>,
    tenant: &[u8],
    wants: &[&[u8]],
    haves: &[&[u8]],
    expected: Result<&[(&[u8], Kind, u64)], u16>,
) -> bool {
    let (wants, haves) = (names(alloc, wants), names(alloc, haves));
    match (&wants, &haves) {
        (Ok(wants), Ok(haves)) => are_told(&service.missing(tenant, wants, haves), expected),
        _ => false,
    }
}

fn tells_what_acme_misses(alloc: Global, service: &Service<Sha1Naming>) -> bool {
    tells_missing(alloc, service, b"acme", &[SECOND], &[FIRST], Ok(ADDED))
        && tells_missing(
            alloc,
            service,
            b"acme",
            &[SECOND],
            &[FIRST, FOREIGN],
            Ok(ADDED),
        )
        && tells_missing(alloc, service, b"acme", &[FIRST], &[SECOND], Ok(&[]))
        && tells_missing(alloc, service, b"acme", &[SECOND, FOREIGN], &[], Err(16))
}

fn tells_what_others_miss(alloc: Global, service: &Service<Sha1Naming>) -> bool {
    tells_missing(alloc, service, b"other", &[SECOND], &[], Err(16))
        && tells_missing(alloc, service, b"nobody", &[], &[SECOND], Ok(&[]))
        && tells_missing(alloc, service, b"nobody", &[SECOND], &[], Err(16))
        && tells_missing(alloc, service, b"a b", &[], &[], Err(32))
}

// Whether a tenant is told of its last checkpoint while a stream runs.
fn tells_of_the_last_checkpoint(alloc: Global, service: &mut Service<Sha1Naming>) -> bool {
    tells(alloc, service, Step::Open { tenant: b"nobody" }, 0, b"")
        && feeds(alloc, service, b"nobody", STREAM, 0, b"")
        && tells_missing(alloc, service, b"nobody", &[SECOND], &[FIRST], Err(16))
        && feeds(alloc, service, b"nobody", b"checkpoint\n\n", 0, b"")
        && tells_missing(alloc, service, b"nobody", &[SECOND], &[FIRST], Ok(ADDED))
}

#[test]
fn a_tenant_is_told_what_a_client_is_missing(rt: HostRuntime) {
    let mut service = Service::new(rt.alloc(), Sha1Naming);
    assert!(rt; is_filled(rt.alloc(), &mut service));
    assert!(rt; tells_what_acme_misses(rt.alloc(), &service));
    assert!(rt; tells_what_others_miss(rt.alloc(), &service));
    assert!(rt; tells_of_the_last_checkpoint(rt.alloc(), &mut service));
}

/// Whether these bytes are written; or nothing, under this number.
pub fn is_written(
    written: &[u8],
    told: Result<(), PackFault>,
    expected: Result<&[u8], u16>,
) -> bool {
    match (told, expected) {
        (Ok(()), Ok(expected)) => written == expected,
        (Err(fault), Err(code)) => fault.code() == code && written.is_empty(),
        _ => false,
    }
}

// Whether `out`, which had one byte, has these entries too; or that byte alone, under this number.
fn are_appended(out: &[u8], told: Result<(), PackFault>, expected: Result<&[u8], u16>) -> bool {
    match out.strip_prefix(b"\x07") {
        Some(rest) => is_written(rest, told, expected),
        None => false,
    }
}

fn appends(
    alloc: Global,
    service: &Service<Sha1Naming>,
    digits: &[&[u8]],
    limit: u64,
    expected: Result<&[u8], u16>,
) -> bool {
    let names = names(alloc, digits);
    let mut out: Result<_, _> = vec![in alloc; 7; 1];
    match (&names, &mut out) {
        (Ok(names), Ok(out)) => {
            let told = service.entries(b"acme", names, limit, out);
            are_appended(out, told, expected)
        }
        _ => false,
    }
}

fn all_is_appended(alloc: Global, service: &Service<Sha1Naming>) -> bool {
    appends(alloc, service, &[HELLO, AB], 33, Ok(ENTRIES))
        && appends(alloc, service, &[], 0, Ok(b""))
        && appends(alloc, service, &[HELLO, AB], 32, Err(25))
        && appends(alloc, service, &[HELLO, AB, FOREIGN], 32, Err(16))
}

#[test]
fn objects_are_appended_as_entries(rt: HostRuntime) {
    let mut service = Service::new(rt.alloc(), Sha1Naming);
    assert!(rt; is_filled(rt.alloc(), &mut service));
    assert!(rt; all_is_appended(rt.alloc(), &service));
}

// Whether a pack is written so; or nothing, under this number.
fn packs(
    alloc: Global,
    service: &Service<Sha1Naming>,
    tenant: &[u8],
    digits: &[&[u8]],
    expected: Result<&[u8], u16>,
) -> bool {
    let mut writer = Counted::new(Vec::new(alloc));
    let wants = names(alloc, digits);
    match &wants {
        Ok(wants) => {
            let told = service.write_pack(tenant, wants, &[], &mut writer);
            is_written(&writer.into_inner(), told, expected)
        }
        Err(_) => false,
    }
}

fn all_is_packed(alloc: Global, service: &Service<Sha1Naming>) -> bool {
    packs(alloc, service, b"acme", &[AB], Ok(PACK))
        && packs(alloc, service, b"other", &[AB], Err(16))
        && packs(alloc, service, b"a b", &[], Err(32))
}

#[test]
fn a_pack_is_written(rt: HostRuntime) {
    let mut service = Service::new(rt.alloc(), Sha1Naming);
    assert!(rt; is_filled(rt.alloc(), &mut service));
    assert!(rt; all_is_packed(rt.alloc(), &service));
}

// Whether a device that fails is told.
fn is_blamed(alloc: Global, service: &mut Service<Sha1Naming>, wants: &[Name]) -> bool {
    let is_filled = is_filled(alloc, service);
    let mut writer = Counted::new(FailingWriter::new(Vec::new(alloc), 0));
    let told = service.write_pack(b"acme", wants, &[], &mut writer);
    let faults = writer.faults();
    is_filled && faults == 1 && matches!(told, Err(fault) if fault.code() == 68)
}

fn a_device_is_blamed(alloc: Global, service: &mut Service<Sha1Naming>) -> bool {
    let wants = names(alloc, &[AB]);
    match &wants {
        Ok(wants) => is_blamed(alloc, service, wants),
        Err(_) => false,
    }
}

#[test]
fn a_device_that_fails_under_a_pack_is_told(rt: HostRuntime) {
    let mut service = Service::new(rt.alloc(), Sha1Naming);
    assert!(rt; a_device_is_blamed(rt.alloc(), &mut service));
}
