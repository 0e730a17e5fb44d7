//! Imports of streams, and the other ways in which an import ends. The frames of crate
//! gitpool_frames test what each worked stream prints.

use gitpool::{Counted, Naming, Sha1Naming, StepFault, TailNaming, import_one};
use std::alloc::Global;

// A stream of the folder `streams/`, by its name there, what it prints, and the fault that it gets.
struct Import {
    name: &'static str,
    stream: &'static [u8],
    replies: &'static [u8],
    fault: Option<StepFault>,
}

const IMPORTS: &[Import] = &[
    Import {
        name: "unknown_mark",
        stream: b"progress before\nget-mark :9\nprogress after\n",
        replies: b"progress before\n",
        fault: Some(StepFault::Refused(13)),
    },
    Import {
        name: "cut_off_in_data",
        stream: b"blob\ndata 5\nabcd",
        replies: b"",
        fault: Some(StepFault::Refused(6)),
    },
    Import {
        name: "feature_done_missing",
        stream: b"feature done\nblob\ndata 6\nhello\nprogress x\n",
        replies: b"progress x\n",
        fault: Some(StepFault::Refused(7)),
    },
    Import {
        name: "branch_moved_to_another_history",
        stream: b"commit refs/heads/m\nmark :1\ncommitter C O Mitter <c@example.com> 1700000000 +0100\ndata 5\nfirst\n\
            checkpoint\n\nreset refs/heads/m\n\n\
            commit refs/heads/m\nmark :2\ncommitter C O Mitter <c@example.com> 1700000000 +0100\ndata 5\napart\n\nget-mark :2\n",
        replies: b"5a6da374000244285e7ad78e5309bcc256cbfb0f\nkept refs/heads/m\n",
        fault: None,
    },
];

// The fault of a stream, and what was written.
fn run<N: Naming>(alloc: Global, naming: N, stream: &[u8], out: &mut Vec<u8>) -> Option<StepFault> {
    let mut writer = Counted::new(Vec::new(alloc));
    let ended = import_one(alloc, naming, &mut Counted::new(stream), &mut writer);
    *out = writer.into_inner();
    ended.err()
}

fn goes_so<N: Naming>(alloc: Global, naming: N, import: &Import) -> bool {
    let mut out = Vec::new(alloc);
    run(alloc, naming, import.stream, &mut out) == import.fault && out.as_slice() == import.replies
}

fn first_wrong(alloc: Global) -> Option<&'static str> {
    for import in IMPORTS {
        if !goes_so(alloc, Sha1Naming, import) {
            return Some(import.name);
        }
    }
    None
}

#[test]
fn prints_what_git_prints_and_refuses_by_number(rt: HostRuntime) {
    assert_eq!(rt; first_wrong(rt.alloc()), None);
}

// In the naming by a sum, `ab` and `ba` have the same name.
const SECOND_CONTENT: &Import = &Import {
    name: "second content",
    stream: b"blob\nmark :1\ndata 2\nabblob\ndata 2\nabcat-blob :1\nblob\ndata 2\nba",
    replies: b"abababababababababababababababababababb4 blob 2\nab\n",
    fault: Some(StepFault::Refused(24)),
};

#[test]
fn refuses_a_second_content_of_one_name(rt: HostRuntime) {
    assert!(rt; goes_so(rt.alloc(), TailNaming, SECOND_CONTENT));
}

#[test]
fn numbers_what_ends_an_import(rt: HostRuntime) {
    let codes = [StepFault::Refused(13), StepFault::Device, StepFault::Memory];
    assert_eq!(rt; codes.map(|fault| fault.code()), [13, 68, 90]);
}
