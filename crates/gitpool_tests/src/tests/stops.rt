//! Feeds that run out of memory. For each N, with the Nth allocation refused (`--fail-alloc N`),
//! the answers are those of a repository of its own that gets the same stop.

use super::told::{feeds, tells};
use gitpool::{Answer, Service, Sha1Naming, Step};
use std::alloc::Global;

// The name of the commit that these streams make: the empty tree, with the message `x`.
const FIRST_NAME: &[u8] = b"7b8051db3dcc0fcfd006919cfa7376ddbd7bdc1a\n";

// Prints what the ref holds; refused (16) if it is not there.
const SHOW_M: &[u8] = b"alias\nmark :1\nto refs/heads/m^0\nget-mark :1\n";

fn feed(bytes: &[u8]) -> Step<'_> {
    Step::Feed {
        tenant: b"t",
        bytes,
    }
}

// A Feed of five items, what the first n of them print for each n, and the number of items after
// which the ref `refs/heads/m` is left.
struct Stop {
    bytes: &'static [u8],
    printed: [&'static [u8]; 6],
    saves: u64,
}

const LINES: &Stop = &Stop {
    bytes: b"progress a\nprogress bb\nprogress ccc\nprogress dddd\nprogress eeeee\n",
    printed: [
        b"",
        b"progress a\n",
        b"progress a\nprogress bb\n",
        b"progress a\nprogress bb\nprogress ccc\n",
        b"progress a\nprogress bb\nprogress ccc\nprogress dddd\n",
        b"progress a\nprogress bb\nprogress ccc\nprogress dddd\nprogress eeeee\n",
    ],
    saves: 6,
};

const SAVED_COMMIT: &Stop = &Stop {
    bytes: b"commit refs/heads/m\ncommitter A <a@b> 0 +0000\ndata 2\nx\ncheckpoint\nprogress x\n",
    printed: [b"", b"", b"", b"", b"", b"progress x\n"],
    saves: 4,
};

fn printed_by(stop: &Stop, items: u64) -> &'static [u8] {
    match stop.printed.get(items as usize) {
        Some(printed) => printed,
        None => b"",
    }
}

// Whether a stream that stopped answers as dead under this number, to a Feed and to its End.
fn ends_dead(alloc: Global, service: &mut Service<Sha1Naming>, code: u16) -> bool {
    feeds(alloc, service, b"t", b"\n", code, b"")
        && tells(alloc, service, Step::End { tenant: b"t" }, code, b"")
}

// Whether a later stream finds the ref with the first commit, or does not find it.
fn shows_m(alloc: Global, service: &mut Service<Sha1Naming>, is_there: bool) -> bool {
    let (code, printed) = if is_there {
        (0, FIRST_NAME)
    } else {
        (16, b"".as_slice())
    };
    tells(alloc, service, Step::Open { tenant: b"t" }, 0, b"")
        && feeds(alloc, service, b"t", SHOW_M, code, printed)
}

// The number of items that a Feed takes, and the number that its stream then answers; `None` if it
// is refused.
fn taken_of(
    service: &mut Service<Sha1Naming>,
    stop: &Stop,
    out: &mut Vec<u8>,
) -> Option<(u64, u16)> {
    match service.step(feed(stop.bytes), out) {
        Answer::Memory(items) => Some((items, 90)),
        Answer::Ok => Some((5, 0)),
        Answer::Fault(_) => None,
    }
}

// The same, and also `None` if it prints anything but the replies to those items.
fn taken_and_printed(
    alloc: Global,
    service: &mut Service<Sha1Naming>,
    stop: &Stop,
) -> Option<(u64, u16)> {
    let mut out = Vec::new(alloc);
    let taken = taken_of(service, stop, &mut out);
    taken.filter(|(items, _)| out.as_slice() == printed_by(stop, *items))
}

// Whether a Feed of five items prints the replies to the items before its stop, and leaves what
// they saved.
fn stops_well(alloc: Global, service: &mut Service<Sha1Naming>, stop: &Stop) -> bool {
    match taken_and_printed(alloc, service, stop) {
        Some((items, code)) => {
            ends_dead(alloc, service, code) && shows_m(alloc, service, items >= stop.saves)
        }
        None => false,
    }
}

fn opened(alloc: Global, service: &mut Service<Sha1Naming>) -> Answer {
    let mut out = Vec::new(alloc);
    service.step(Step::Open { tenant: b"t" }, &mut out)
}

// The same after an Open. The Open may run out of memory too, and then leaves no tenant.
fn opens_and_stops_well(alloc: Global, service: &mut Service<Sha1Naming>, stop: &Stop) -> bool {
    match opened(alloc, service) {
        Answer::Ok => stops_well(alloc, service, stop),
        told => told == Answer::Memory(0) && service.view(b"t").is_none(),
    }
}

#[test]
fn stops_after_whole_items(rt: HostRuntime) {
    let mut service = Service::new(rt.alloc(), Sha1Naming);
    assert!(rt; opens_and_stops_well(rt.alloc(), &mut service, LINES));
}

// A stop after the checkpoint leaves the ref, and one before it leaves none.
#[test]
fn stops_after_a_checkpoint_or_before_it(rt: HostRuntime) {
    let mut service = Service::new(rt.alloc(), Sha1Naming);
    assert!(rt; opens_and_stops_well(rt.alloc(), &mut service, SAVED_COMMIT));
}
