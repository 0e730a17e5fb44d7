//! Saves of tenants as they were when their streams were opened: compared with what `save` wrote
//! before the Open, and with the refs that git makes of the same streams.

use super::saved::is_saved_as;
use super::told::{asks, feeds, takes, tells};
use gitpool::{Counted, Service, Sha1Naming, Step};
use std::alloc::Global;

// A blob and a commit on `refs/heads/m`: what the tenant has at the Open.
const FIRST: &[u8] = b"blob\ndata 6\nhello\n\
    commit refs/heads/m\ncommitter A <a@b> 0 +0000\ndata 2\nx\n";

const FIRST_REFS: &[u8] = b"7b8051db3dcc0fcfd006919cfa7376ddbd7bdc1a refs/heads/m\n";

// Two checkpoints, which move the branch and add another, and a blob that is not saved.
const LATER: &[u8] = b"commit refs/heads/m\ncommitter A <a@b> 1 +0000\ndata 2\ny\n\
    from refs/heads/m^0\ncheckpoint\nblob\ndata 3\nab\n\
    commit refs/heads/n\ncommitter A <a@b> 2 +0000\ndata 2\nz\ncheckpoint\nblob\ndata 4\nabc\n";

const LATER_REFS: &[u8] = b"28fee776c97e2829570c1e86a2028965bd252a61 refs/heads/m\n\
    b394b8d85d0c844de8b1c029bc728d5bc8fb8e51 refs/heads/n\n";

// Another tenant, which has no stream, has a content that the stream has too.
const OTHER: &[u8] = b"blob\ndata 3\nab\n";

fn opens(alloc: Global, service: &mut Service<Sha1Naming>, bytes: &[u8]) -> bool {
    let opened = tells(alloc, service, Step::Open { tenant: b"a" }, 0, b"");
    opened && feeds(alloc, service, b"a", bytes, 0, b"")
}

// What `save` writes, and whether it wrote all.
fn saved(alloc: Global, service: &Service<Sha1Naming>) -> (bool, Vec<u8>) {
    let mut writer = Counted::new(Vec::new(alloc));
    let is_saved = service.save(&mut writer).is_ok();
    (is_saved, writer.into_inner())
}

// Whether `save_as_opened` writes this file.
fn is_saved_as_opened(alloc: Global, service: &Service<Sha1Naming>, file: &[u8]) -> bool {
    let mut writer = Counted::new(Vec::new(alloc));
    let is_saved = service.save_as_opened(&mut writer).is_ok();
    let written = writer.into_inner();
    is_saved && written.as_slice() == file
}

// Whether a service that was loaded has these refs, and the stream can be carried out again.
fn goes_on(alloc: Global, service: &mut Service<Sha1Naming>, before: &[u8], after: &[u8]) -> bool {
    asks(alloc, service, b"a", b"refs", FIRST_REFS)
        && opens(alloc, service, LATER)
        && asks(alloc, service, b"a", b"refs", LATER_REFS)
        && is_saved_as(alloc, service, after)
        && is_saved_as_opened(alloc, service, before)
}

fn loaded_goes_on(alloc: Global, before: &[u8], after: &[u8]) -> bool {
    let mut reader = Counted::new(before);
    match Service::load(alloc, Sha1Naming, &mut reader) {
        Ok(service) => {
            let mut service = service;
            let goes_on = goes_on(alloc, &mut service, before, after);
            drop(service);
            goes_on
        }
        Err(_) => false,
    }
}

// Whether a stream of this service, running and dead, is saved as it was at its Open.
fn stays(alloc: Global, service: &mut Service<Sha1Naming>, before: &[u8]) -> bool {
    let same = is_saved_as_opened(alloc, service, before);
    let opened = opens(alloc, service, LATER);
    let (is_saved, after) = saved(alloc, service);
    let other = after.as_slice() != before;
    let running = is_saved_as_opened(alloc, service, before);
    let died = feeds(alloc, service, b"a", b"no\n", 2, b"");
    let dead = is_saved_as_opened(alloc, service, before);
    let kept = is_saved_as(alloc, service, &after);
    let again = loaded_goes_on(alloc, before, &after);
    let ended = tells(alloc, service, Step::End { tenant: b"a" }, 2, b"");
    let idle = is_saved_as_opened(alloc, service, &after);
    same && opened && is_saved && other && running && died && dead && kept && again && ended && idle
}

fn a_stream_stays(alloc: Global) -> bool {
    let mut service = Service::new(alloc, Sha1Naming);
    let first = takes(alloc, &mut service, b"a", FIRST);
    let second = takes(alloc, &mut service, b"b", OTHER);
    let (is_saved, before) = saved(alloc, &service);
    let stays = stays(alloc, &mut service, &before);
    drop(service);
    first && second && is_saved && stays
}

#[test]
fn a_stream_is_saved_as_it_was_at_its_open(rt: HostRuntime) {
    assert!(rt; a_stream_stays(rt.alloc()));
}
