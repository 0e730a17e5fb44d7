//! What each tenant has: its line is there from its first checkpoint on, in the order of names, and
//! counts no object of a running stream.

use gitpool::{Answer, Service, Sha1Naming, Step, TenantSizes};
use std::alloc::Global;

// A blob of 6 bytes, a tree of 29 and a commit of 98.
const COMMIT: &[u8] = b"blob\nmark :1\ndata 6\nhello\n\n\
    commit refs/heads/main\ncommitter A <a@b> 0 +0000\ndata 2\nx\nM 100644 :1 f\n\ncheckpoint\n";

const HELLO: &[u8] = b"blob\ndata 6\nhello\n\ncheckpoint\n";

const OTHER: &[u8] = b"blob\ndata 3\nab\n\ncheckpoint\n";

const UNSAVED: &[u8] = b"blob\ndata 3\nab\n\nblob\ndata 4\nabc\n\n";

// Streams that are opened and fed, in this order. None has its End.
const FED: &[(&[u8], &[u8])] = &[
    (b"bob", HELLO),
    (b"alice", COMMIT),
    (b"carol", b"reset refs/heads/no\n"),
    (b"a/b", OTHER),
    (b"Zoe", b"blob\ndata 0\n\ncheckpoint\n"),
    (b"dave", UNSAVED),
];

// What each tenant has then: objects, bytes, bytes that no other tenant has, refs. The unsaved blob
// of `dave` is that of `a/b`, and the blob of `bob` is that of `alice`.
const HAS: &[(&[u8], (u64, u64, u64, u64))] = &[
    (b"Zoe", (1, 0, 0, 0)),
    (b"a/b", (1, 3, 0, 0)),
    (b"alice", (3, 133, 127, 1)),
    (b"bob", (1, 6, 0, 0)),
];

// After a restart no stream runs, and the unsaved blob is gone.
const HAS_LATER: &[(&[u8], (u64, u64, u64, u64))] = &[
    (b"Zoe", (1, 0, 0, 0)),
    (b"a/b", (1, 3, 3, 0)),
    (b"alice", (3, 133, 127, 1)),
    (b"bob", (1, 6, 0, 0)),
];

fn are_fed(service: &mut Service<Sha1Naming>, out: &mut Vec<u8>) -> bool {
    for (tenant, bytes) in FED {
        let opened = service.step(Step::Open { tenant }, out) == Answer::Ok;
        let fed = service.step(Step::Feed { tenant, bytes }, out) == Answer::Ok;
        if !(opened && fed) {
            return false;
        }
    }
    true
}

fn is_told(told: &TenantSizes<'_>, tenant: &[u8], wanted: (u64, u64, u64, u64)) -> bool {
    let numbers = (told.objects, told.bytes, told.own_bytes, told.refs);
    told.tenant == tenant && numbers == wanted
}

fn are_all_told(told: &[TenantSizes<'_>], wanted: &[(&[u8], (u64, u64, u64, u64))]) -> bool {
    for place in 0..wanted.len() {
        let (tenant, numbers) = wanted[place];
        match told.get(place) {
            Some(one) if is_told(one, tenant, numbers) => {}
            _ => return false,
        }
    }
    told.len() == wanted.len()
}

fn has(service: &Service<Sha1Naming>, wanted: &[(&[u8], (u64, u64, u64, u64))]) -> bool {
    match service.sizes() {
        Ok(told) => are_all_told(&told, wanted),
        Err(_) => false,
    }
}

fn are_told(alloc: Global, out: &mut Vec<u8>) -> bool {
    let mut service = Service::new(alloc, Sha1Naming);
    let none = has(&service, &[]);
    let fed = are_fed(&mut service, out);
    let then = has(&service, HAS);
    let closed = service.step(Step::Restart, out) == Answer::Ok;
    let later = has(&service, HAS_LATER);
    drop(service);
    none && fed && then && closed && later
}

#[test]
fn sizes_of_tenants(rt: HostRuntime) {
    let mut out = Vec::new(rt.alloc());
    assert!(rt; are_told(rt.alloc(), &mut out));
}
