//! The examples that take no service: items, commands and commits.

use std::alloc::Global;
use stream_grammar::Fault;
use stream_lex::Item;
use uses::checking::check;
use uses::outlining::outline;
use uses::rewording::reword;

const STREAM: &[u8] = b"# a comment\nblob\nmark :1\ndata 6\nhello\n\n\nget-mark :1\n";

const LINES: &[u8] = b"blob\nmark :1\nget-mark :1\n";

// Two commits as `git commit-tree` makes them, with one message and with another.
const COMMIT: &[u8] = b"tree 10731d0b170b98481a00bdca161e874e0ab93377\n\
    author A <a@b> 0 +0000\n\
    committer A <a@b> 0 +0000\n\
    \n\
    x\n";

const REWORDED: &[u8] = b"tree 10731d0b170b98481a00bdca161e874e0ab93377\n\
    author A <a@b> 0 +0000\n\
    committer A <a@b> 0 +0000\n\
    \n\
    another\n";

fn has_lines(alloc: Global) -> bool {
    match outline(alloc, STREAM) {
        Ok(text) => text.as_slice() == LINES,
        Err(_) => false,
    }
}

fn are_commands(alloc: Global) -> bool {
    let items = [
        Item::Line(b"reset refs/heads/m"),
        Item::Line(b"from :1"),
        Item::Blank,
    ];
    check(alloc, &items) == Ok(())
}

fn lack_a_part(alloc: Global) -> bool {
    let items = [Item::Line(b"blob"), Item::Line(b"mark :1")];
    check(alloc, &items) == Err(Fault::MissingPart)
}

fn has_another_message(alloc: Global) -> bool {
    match reword(alloc, COMMIT, b"another\n") {
        Ok(Some(reworded)) => reworded.as_slice() == REWORDED,
        _ => false,
    }
}

#[test]
fn lists_the_lines_of_a_stream(rt: HostRuntime) {
    assert!(rt; has_lines(rt.alloc()));
}

#[test]
fn tells_whole_commands_from_others(rt: HostRuntime) {
    assert!(rt; are_commands(rt.alloc()) && lack_a_part(rt.alloc()));
}

#[test]
fn changes_the_message_of_a_commit_alone(rt: HostRuntime) {
    assert!(rt; has_another_message(rt.alloc()));
}
