//! Lines at their limit and one byte longer, through a service of two tenants. The limit is our
//! own: docs/FORMATS.md has it. Frames test a data at its limit (streams/tenants), and
//! streams/run_tenants feeds data of as many bytes.

use super::told::{feeds, tells};
use gitpool::{Memory, Service, Step, TailNaming};
use std::alloc::Global;
use std::test::Fail;

// The most bytes that a line may have, without its line end.
const LINE: usize = 1_048_575;

// A line that can be filled up to the limit, and what the stream has before it.
struct Line {
    before: &'static [u8],
    head: &'static [u8],
    tail: &'static [u8],
}

const LINES: &[Line] = &[
    Line {
        before: b"",
        head: b"# ",
        tail: b"",
    },
    Line {
        before: b"blob\n",
        head: b"#",
        tail: b" a",
    },
    Line {
        before: b"blob\n",
        head: b"original-oid ",
        tail: b"",
    },
    Line {
        before: b"commit refs/heads/m\n",
        head: b"committer ",
        tail: b" <a@b> 0 +0000",
    },
    Line {
        before: b"",
        head: b"option other ",
        tail: b"",
    },
    Line {
        before: b"blob\n",
        head: b"data <<",
        tail: b"",
    },
];

// Whether a tenant's new stream accepts all bytes of a line except its line end, and prints
// nothing.
fn begins(
    alloc: Global,
    service: &mut Service<TailNaming>,
    tenant: &[u8],
    line: &Line,
    filler: &[u8],
) -> bool {
    tells(alloc, service, Step::Open { tenant }, 0, b"")
        && feeds(alloc, service, tenant, line.before, 0, b"")
        && feeds(alloc, service, tenant, line.head, 0, b"")
        && feeds(alloc, service, tenant, filler, 0, b"")
        && feeds(alloc, service, tenant, line.tail, 0, b"")
}

// The bytes that fill a line up to the limit: as many as a line may have.
fn filler_of<'a>(line: &Line, most: &'a [u8]) -> &'a [u8] {
    let told = line.head.len().saturating_add(line.tail.len());
    most.get(told..).unwrap_or(b"".as_slice())
}

// Whether a line at the limit is accepted, and refused (1) as soon as it has one more byte.
fn keeps_the_limit(
    alloc: Global,
    service: &mut Service<TailNaming>,
    line: &Line,
    most: &[u8],
) -> bool {
    let filler = filler_of(line, most);
    begins(alloc, service, b"a", line, filler)
        && begins(alloc, service, b"b", line, filler)
        && feeds(alloc, service, b"a", b"x", 1, b"")
        && feeds(alloc, service, b"b", b"\n", 0, b"")
        && tells(alloc, service, Step::End { tenant: b"a" }, 1, b"")
        && tells(alloc, service, Step::Restart, 0, b"")
}

// The place of the first line that is not accepted exactly up to the limit.
fn first_otherwise(alloc: Global, service: &mut Service<TailNaming>, most: &[u8]) -> Option<usize> {
    for (place, line) in LINES.iter().enumerate() {
        if !keeps_the_limit(alloc, service, line, most) {
            return Some(place);
        }
    }
    None
}

fn first_otherwise_when_new(alloc: Global, most: &[u8]) -> Option<usize> {
    let mut service = Service::new(alloc, TailNaming);
    let place = first_otherwise(alloc, &mut service, most);
    drop(service);
    place
}

fn first_otherwise_of_lines(alloc: Global) -> Result<Option<usize>, Memory> {
    let most = b"x".as_slice().repeat(alloc, LINE)?;
    Ok(first_otherwise_when_new(alloc, &most))
}

#[test]
fn takes_lines_up_to_their_limit(rt: HostRuntime) -> Result<(), Fail> {
    assert_eq!(rt; first_otherwise_of_lines(rt.alloc())?, None);
    Ok(())
}
