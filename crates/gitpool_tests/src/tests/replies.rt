//! A run of steps, and the reply to each.

use super::told::code_of;
use gitpool::{Reply, Service, Sha1Naming, Step};
use std::alloc::Global;

// Steps of two tenants, and one with a bad name.
const STEPS: &[Step<'static>] = &[
    Step::Open { tenant: b"a" },
    Step::Open { tenant: b"-" },
    Step::Open { tenant: b"b" },
    Step::Feed {
        tenant: b"a",
        bytes: b"blob\nmark :1\ndata 6\nhello\n",
    },
    Step::Feed {
        tenant: b"b",
        bytes: b"cat-blob ce013625030ba8dba906f756967f9e9ca394464a\n",
    },
    Step::Feed {
        tenant: b"a",
        bytes: b"get-mark :1\n",
    },
    Step::Restart,
    Step::End { tenant: b"a" },
];

// The replies to these steps: the number of the fault, or 0, and what is printed.
const TOLD: &[(u16, &[u8])] = &[
    (0, b""),
    (32, b""),
    (0, b""),
    (0, b""),
    (0, b"ce013625030ba8dba906f756967f9e9ca394464a missing\n"),
    (0, b"ce013625030ba8dba906f756967f9e9ca394464a\n"),
    (0, b""),
    (30, b""),
];

fn is_told(reply: &Reply, code: u16, bytes: &[u8]) -> bool {
    code_of(reply.answer) == code && reply.bytes.as_slice() == bytes
}

// Whether the replies are the expected ones.
fn are_told(replies: &[Reply]) -> bool {
    for (reply, (code, bytes)) in replies.iter().zip(TOLD.iter()) {
        if !is_told(reply, *code, bytes) {
            return false;
        }
    }
    replies.len() == TOLD.len()
}

// Whether the steps are carried out; their replies are appended.
fn run(alloc: Global, replies: &mut Vec<Reply>) -> bool {
    let mut service = Service::new(alloc, Sha1Naming);
    let ended = service.run(STEPS, replies);
    drop(service);
    ended.is_ok()
}

fn replies_as_told(alloc: Global) -> bool {
    let mut replies = Vec::new(alloc);
    let is_told = run(alloc, &mut replies) && are_told(&replies);
    drop(replies);
    is_told
}

#[test]
fn has_a_reply_for_each_step(rt: HostRuntime) {
    assert!(rt; replies_as_told(rt.alloc()));
}
