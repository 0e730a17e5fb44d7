//! Two tenants of one service, as an example of its calls. The first imports a blob. The second
//! asks for it by its name and finds it missing, although both tenants share one pool of contents.

use gitpool::{Answer, Service, Sha1Naming, Step};
use std::alloc::Global;

// A blob of six bytes, and a command that asks for its name: git-fast-import(1).
const IMPORT: &[u8] = b"blob\nmark :1\ndata 6\nhello\nget-mark :1\n";

// A command that asks for the object of the name that the first tenant is told.
const ASK: &[u8] = b"cat-blob ce013625030ba8dba906f756967f9e9ca394464a\n";

// What the first tenant is told, and then the second.
const TOLD: &[u8] = b"ce013625030ba8dba906f756967f9e9ca394464a\n\
    ce013625030ba8dba906f756967f9e9ca394464a missing\n";

// Carries out one stream of a tenant, from its Open to its End; what it prints is appended to
// `out`. Whether each step was answered Ok: it stops at the first that is not.
fn carry_out(
    service: &mut Service<Sha1Naming>,
    tenant: &[u8],
    bytes: &[u8],
    out: &mut Vec<u8>,
) -> bool {
    let steps = [
        Step::Open { tenant },
        Step::Feed { tenant, bytes },
        Step::End { tenant },
    ];
    for step in &steps {
        if service.step(*step, out) != Answer::Ok {
            return false;
        }
    }
    true
}

// Whether both streams were answered Ok. What the tenants are told is appended to `out`.
fn are_carried_out(alloc: Global, told: &mut Vec<u8>) -> bool {
    let mut service = Service::new(alloc, Sha1Naming);
    let imported = carry_out(&mut service, b"alice", IMPORT, told);
    let asked = carry_out(&mut service, b"bob", ASK, told);
    imported && asked
}

#[test]
fn two_tenants(rt: HostRuntime) {
    let mut told = Vec::new(rt.alloc());
    assert!(rt; are_carried_out(rt.alloc(), &mut told));
    assert!(rt; told.as_slice() == TOLD);
}
