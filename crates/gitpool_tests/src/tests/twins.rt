//! Steps of two tenants, one by one, under a naming that gives two contents the same name. Each
//! tenant is told what a service of its own tells it.
//!
//! The two tenants feed the same streams except for the bytes of their blobs. These have the same
//! length and the same sum, so the objects have the same names.

use super::told::code_of;
use gitpool::{Service, Step, TailNaming};
use std::alloc::Global;

// What the two tenants feed: streams of the same length.
struct Twins {
    does: &'static str,
    first: &'static [u8],
    second: &'static [u8],
}

const TWINS: &[Twins] = &[
    Twins {
        does: "shows a blob by its mark, its name and digits of it",
        first: b"blob\nmark :1\ndata 2\nabget-mark :1\ncat-blob :1\n\
            cat-blob abababababababababababababababababababb4\ntag v\nfrom abab\ndata 0\n",
        second: b"blob\nmark :1\ndata 2\nbaget-mark :1\ncat-blob :1\n\
            cat-blob abababababababababababababababababababb4\ntag v\nfrom abab\ndata 0\n",
    },
    Twins {
        does: "refuses a second content of one name",
        first: b"blob\ndata 2\nabprogress x\ncheckpoint\nblob\ndata 2\nba",
        second: b"blob\ndata 2\nbaprogress x\ncheckpoint\nblob\ndata 2\nab",
    },
    Twins {
        does: "refuses digits with which two names begin",
        first: b"blob\ndata 2\nacblob\ndata 2\nadtag v\nfrom abab\ndata 0\n",
        second: b"blob\ndata 2\ncablob\ndata 2\ndatag v\nfrom abab\ndata 0\n",
    },
    Twins {
        does: "shows files and directories of an open commit",
        first: b"blob\nmark :1\ndata 2\nabcommit refs/heads/m\ncommitter A <a@b> 0 +0000\ndata 2\nx\n\
            M 644 :1 d/f\nC d e\nR d/f g\nls \"e\"\nls \"g\"\nls \"d\"\nls \"\"\n",
        second: b"blob\nmark :1\ndata 2\nbacommit refs/heads/m\ncommitter A <a@b> 0 +0000\ndata 2\nx\n\
            M 644 :1 d/f\nC d e\nR d/f g\nls \"e\"\nls \"g\"\nls \"d\"\nls \"\"\n",
    },
    Twins {
        does: "keeps a branch that may not be moved, and a tag",
        first: b"commit refs/heads/m\nmark :1\ncommitter A <a@b> 0 +0000\ndata 2\nx\n\
            M 644 inline f\ndata 2\nab\ncheckpoint\ntag v\nfrom :1\ndata 0\nreset refs/heads/m\n\
            commit refs/heads/m\ncommitter A <a@b> 0 +0000\ndata 2\nz\n",
        second: b"commit refs/heads/m\nmark :1\ncommitter A <a@b> 0 +0000\ndata 2\nx\n\
            M 644 inline f\ndata 2\nba\ncheckpoint\ntag v\nfrom :1\ndata 0\nreset refs/heads/m\n\
            commit refs/heads/m\ncommitter A <a@b> 0 +0000\ndata 2\nz\n",
    },
    Twins {
        does: "goes back to the last checkpoint at a fault",
        first: b"option gitpool head refs/heads/m\nblob\nmark :1\ndata 2\nabcheckpoint\n\
            blob\ndata 2\nadprogress y\nget-mark :9\nprogress z\n",
        second: b"option gitpool head refs/heads/m\nblob\nmark :1\ndata 2\nbacheckpoint\n\
            blob\ndata 2\ndaprogress y\nget-mark :9\nprogress z\n",
    },
    Twins {
        does: "refuses an end inside a data",
        first: b"feature done\nblob\ndata 2\nabcheckpoint\nblob\ndata 3\nac",
        second: b"feature done\nblob\ndata 2\nbacheckpoint\nblob\ndata 3\nca",
    },
];

// What each tenant asks between the pieces of its stream and after its end.
const QUERIES: &[&[u8]] = &[
    b"refs",
    b"head",
    b"rev-parse abab",
    b"cat ababababababababababababababababababab",
    b"abbrev refs/heads/m",
    b"ls refs/heads/m",
    b"log refs/heads/m",
    b"cat refs/heads/m:f",
    b"export",
];

// The number of bytes of each Feed; the last one may have fewer.
const PIECE: usize = 19;

// Whether two services give a step the same answer and the same bytes. A lack of memory is no
// answer.
fn answer_the_same(
    alloc: Global,
    service: &mut Service<TailNaming>,
    other: &mut Service<TailNaming>,
    step: Step<'_>,
) -> bool {
    let mut out = Vec::new(alloc);
    let code = code_of(service.step(step, &mut out));
    let mut wanted = Vec::new(alloc);
    let same = code_of(other.step(step, &mut wanted)) == code;
    same && code != 90 && out.as_slice() == wanted.as_slice()
}

// The service that both tenants share, and a service for each tenant alone.
#[derive(Drop)]
struct Services<'a> {
    shared: &'a mut Service<TailNaming>,
    first: &'a mut Service<TailNaming>,
    second: &'a mut Service<TailNaming>,
}

impl<'a> Services<'a> {
    // Whether a step of the first tenant, and then one of the second, are answered as they are
    // alone.
    fn answer_as_alone(&mut self, alloc: Global, step: Step<'_>, twin: Step<'_>) -> bool {
        answer_the_same(alloc, self.shared, self.first, step)
            && answer_the_same(alloc, self.shared, self.second, twin)
    }

    // The same for a query of both tenants.
    fn tell_as_alone(&mut self, alloc: Global, query: &[u8]) -> bool {
        let step = Step::Ask {
            tenant: b"a",
            query,
        };
        let twin = Step::Ask {
            tenant: b"b",
            query,
        };
        self.answer_as_alone(alloc, step, twin)
    }

    // The same for one piece of each stream, and a query after them.
    fn take_as_alone(&mut self, alloc: Global, bytes: &[u8], others: &[u8]) -> bool {
        let step = Step::Feed {
            tenant: b"a",
            bytes,
        };
        let twin = Step::Feed {
            tenant: b"b",
            bytes: others,
        };
        self.answer_as_alone(alloc, step, twin) && self.tell_as_alone(alloc, b"rev-parse abab")
    }

    // The same for all pieces.
    fn feed_as_alone(&mut self, alloc: Global, twins: &Twins) -> bool {
        for (bytes, others) in twins.first.chunks(PIECE).zip(twins.second.chunks(PIECE)) {
            if !self.take_as_alone(alloc, bytes, others) {
                return false;
            }
        }
        twins.first.len() == twins.second.len()
    }

    // The same for each query.
    fn ask_as_alone(&mut self, alloc: Global) -> bool {
        for query in QUERIES {
            if !self.tell_as_alone(alloc, query) {
                return false;
            }
        }
        true
    }

    // The same for both streams, and each query after them.
    fn go_as_alone(&mut self, alloc: Global, twins: &Twins) -> bool {
        self.answer_as_alone(
            alloc,
            Step::Open { tenant: b"a" },
            Step::Open { tenant: b"b" },
        ) && self.feed_as_alone(alloc, twins)
            && self.answer_as_alone(
                alloc,
                Step::End { tenant: b"a" },
                Step::End { tenant: b"b" },
            )
            && self.ask_as_alone(alloc)
    }
}

// The same with these services.
fn go_over(
    alloc: Global,
    shared: &mut Service<TailNaming>,
    first: &mut Service<TailNaming>,
    second: &mut Service<TailNaming>,
    twins: &Twins,
) -> bool {
    let mut services = Services {
        shared,
        first,
        second,
    };
    services.go_as_alone(alloc, twins)
}

fn twins_go_as_alone(alloc: Global, twins: &Twins) -> bool {
    let mut shared = Service::new(alloc, TailNaming);
    let mut first = Service::new(alloc, TailNaming);
    let mut second = Service::new(alloc, TailNaming);
    let go = go_over(alloc, &mut shared, &mut first, &mut second, twins);
    drop(shared);
    drop(first);
    drop(second);
    go
}

// What the first pair of streams does for which a tenant is told something else.
fn first_otherwise(alloc: Global) -> Option<&'static str> {
    for twins in TWINS {
        if !twins_go_as_alone(alloc, twins) {
            return Some(twins.does);
        }
    }
    None
}

#[test]
fn each_tenant_is_told_what_it_is_told_alone(rt: HostRuntime) {
    assert_eq!(rt; first_otherwise(rt.alloc()), None);
}
