//! Single queries of a tenant, and checks of a service, from the library's calls: what is written
//! for them, and what refuses them.

use super::copies::{REFS, STREAM};
use super::told::takes;
use byte_devices::FailingWriter;
use gitpool::{Counted, Service, Sha1Naming, StepFault, WriteFault, ask, check};
use std::alloc::Global;

// A tenant and its query, the answer, and what is written.
type Query = (
    &'static [u8],
    &'static [u8],
    Result<(), StepFault>,
    &'static [u8],
);

// The tenant `a` has the stream of the tests of copies, and `b` was never seen.
const QUERIES: &[Query] = &[
    (b"a", b"refs", Ok(()), REFS),
    (b"a", b"head", Ok(()), b"refs/heads/main\n"),
    (b"b", b"refs", Ok(()), b""),
    (b"b", b"head", Ok(()), b"refs/heads/main\n"),
    (b"a", b"no", Err(StepFault::Refused(40)), b""),
    (b"a", b"rev-parse", Err(StepFault::Refused(41)), b""),
    (b"a", b"rev-parse no", Err(StepFault::Refused(16)), b""),
    (b"a b", b"refs", Err(StepFault::Refused(32)), b""),
];

// A blob of 6 bytes, a tree of 29 and a commit of 98.
const STORED: &[u8] = b"objects 3 bytes 133 tenants 1\n";

const NOTHING: &[u8] = b"objects 0 bytes 0 tenants 0\n";

fn asks_so(alloc: Global, service: &mut Service<Sha1Naming>, row: &Query) -> bool {
    let (tenant, query, answer, written) = *row;
    let mut writer = Counted::new(Vec::new(alloc));
    let asked = ask(alloc, service, tenant, query, &mut writer);
    asked == answer && writer.into_inner().as_slice() == written
}

fn checks_so(alloc: Global, service: &Service<Sha1Naming>, line: &[u8]) -> bool {
    let mut writer = Counted::new(Vec::new(alloc));
    let checked = check(alloc, service, &mut writer);
    checked == Ok(()) && writer.into_inner().as_slice() == line
}

// Whether a query whose writer fails at its nth call reports that, after the bytes before it are
// written.
fn tells_write(alloc: Global, service: &mut Service<Sha1Naming>, nth: u64) -> bool {
    let mut writer = Counted::new(FailingWriter::new(Vec::new(alloc), nth));
    let asked = ask(alloc, service, b"a", b"refs", &mut writer);
    let faults = writer.faults();
    let written = writer.into_inner().into_inner();
    asked == Err(StepFault::Device)
        && faults == 1
        && Some(written.as_slice()) == REFS.get(..nth as usize)
}

// The same of a check.
fn tells_write_of_check(alloc: Global, service: &Service<Sha1Naming>, nth: u64) -> bool {
    let mut writer = Counted::new(FailingWriter::new(Vec::new(alloc), nth));
    let checked = check(alloc, service, &mut writer);
    let faults = writer.faults();
    let written = writer.into_inner().into_inner();
    checked == Err(WriteFault::Device)
        && faults == 1
        && Some(written.as_slice()) == STORED.get(..nth as usize)
}

// The place of the first query that is answered differently.
fn first_wrong(alloc: Global, service: &mut Service<Sha1Naming>) -> Option<usize> {
    for (place, row) in QUERIES.iter().enumerate() {
        if !asks_so(alloc, service, row) {
            return Some(place);
        }
    }
    None
}

#[test]
fn queries_and_checks_write_their_answers(rt: HostRuntime) {
    let mut service = Service::new(rt.alloc(), Sha1Naming);
    assert!(rt; checks_so(rt.alloc(), &service, NOTHING));
    assert!(rt; takes(rt.alloc(), &mut service, b"a", STREAM));
    assert_eq!(rt; first_wrong(rt.alloc(), &mut service), None);
    assert!(rt; checks_so(rt.alloc(), &service, STORED));
}

// Each byte is one call.
#[test]
fn queries_and_checks_tell_each_write_that_fails(rt: HostRuntime) {
    let mut service = Service::new(rt.alloc(), Sha1Naming);
    assert!(rt; takes(rt.alloc(), &mut service, b"a", STREAM));
    for nth in 0..REFS.len() as u64 {
        assert!(rt; tells_write(rt.alloc(), &mut service, nth), "at {nth}");
    }
    for nth in 0..STORED.len() as u64 {
        assert!(rt; tells_write_of_check(rt.alloc(), &service, nth), "at {nth}");
    }
}

#[test]
fn numbers_the_faults_of_queries_and_checks(rt: HostRuntime) {
    let asked = [StepFault::Refused(40), StepFault::Device, StepFault::Memory];
    assert_eq!(rt; asked.map(|fault| fault.code()), [40, 68, 90]);
    let checked = [WriteFault::Device, WriteFault::Memory];
    assert_eq!(rt; checked.map(|fault| fault.code()), [68, 90]);
}
