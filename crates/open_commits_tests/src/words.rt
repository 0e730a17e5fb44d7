//! The words of a step.
//!
//! The steps of a case are one text, separated by `;`. The words of a step are separated by spaces,
//! and a word that is left out at the end is empty. The first word says what to do. CODE is the
//! number of the refusal that the step expects, 0 for none:
//!
//! ```text
//! blob MARK CONTENTS             begin MESSAGE LINE   from MARK
//! modify CODE MODE OBJECT PATH   go_on READ MESSAGE   merge CODE MARK
//! modify_long CODE COMPONENTS    delete PATH          merges TIMES MARK
//! inline CODE MODE PATH CONTENTS delete_all           shows MODE NAME PATH
//! copy CODE SOURCE PATH          close MARK NAME      shows_none PATH
//! rename CODE SOURCE PATH        stored OBJECTS
//! ```
//!
//! An OBJECT is a mark after `:`, or a name. `begin` begins a commit without files, whose header
//! has an author or an encoding if LINE is `author` or `encoding`. `go_on` begins a commit on the
//! files that the last one left, for which READ trees were read.

use git_names::{Ident, RefName};
use git_objects::{FileMode, Name, read_mode};
use git_paths::{Path, Place};
use numerals::read_number;
use open_commits::Header;
use std::alloc::Global;
use stream_grammar::{DataRef, Mark};

const AUTHOR: &[u8] = b"B C <b@c> 7 +0130";

const ENCODING: &[u8] = b"ISO-8859-1";

/// What a step does, as its first word says.
#[derive(Clone, Copy)]
pub enum Verb {
    Blob,
    Begin,
    GoOn,
    From,
    Modify,
    Inline,
    Delete,
    DeleteAll,
    Merge,
    Copy,
    Rename,
    Close,
    Shows,
    ShowsNone,
    Stored,
    Merges,
    ModifyLong,
}

const VERBS: &[(&[u8], Verb)] = &[
    (b"blob", Verb::Blob),
    (b"begin", Verb::Begin),
    (b"go_on", Verb::GoOn),
    (b"from", Verb::From),
    (b"modify", Verb::Modify),
    (b"inline", Verb::Inline),
    (b"delete", Verb::Delete),
    (b"delete_all", Verb::DeleteAll),
    (b"merge", Verb::Merge),
    (b"copy", Verb::Copy),
    (b"rename", Verb::Rename),
    (b"close", Verb::Close),
    (b"shows", Verb::Shows),
    (b"shows_none", Verb::ShowsNone),
    (b"stored", Verb::Stored),
    (b"merges", Verb::Merges),
    (b"modify_long", Verb::ModifyLong),
];

/// The word at this place of a step, counted from 0.
pub fn word(step: &[u8], place: usize) -> &[u8] {
    step.split(|byte| *byte == b' ').nth(place).unwrap_or(b"")
}

/// What a step does. A `match` over words would be proved byte by byte.
pub fn verb_of(step: &[u8]) -> Option<Verb> {
    let verb = word(step, 0);
    Some(VERBS.iter().find(|row| row.0 == verb)?.1)
}

pub fn number(step: &[u8], place: usize) -> Option<u64> {
    read_number(word(step, place))
}

pub fn mark_of(text: &[u8]) -> Option<Mark> {
    Mark::from_number(read_number(text)?)
}

pub fn mode(step: &[u8], place: usize) -> Option<FileMode> {
    read_mode(word(step, place))
}

pub fn object(step: &[u8], place: usize) -> Option<DataRef> {
    match word(step, place) {
        [b':', digits @ ..] => Some(DataRef::Mark(mark_of(digits)?)),
        digits => Some(DataRef::Name(Name::from_hex(digits)?)),
    }
}

/// The path of this word, if it is one.
pub fn path_of(alloc: Global, text: &[u8]) -> Option<Path> {
    match Path::read(alloc, text, Place::Last) {
        Ok((path, _)) => Some(path),
        Err(_) => None,
    }
}

/// The path of this many components, if there is memory for it.
pub fn long_path(alloc: Global, components: u64) -> Option<Path> {
    let mut path = Vec::new(alloc);
    if !takes_components(&mut path, components) {
        return None;
    }
    Path::from_canonical(alloc, &path).unwrap_or(None)
}

fn takes_components(path: &mut Vec<u8>, components: u64) -> bool {
    for position in 0..components {
        let before = if position > 0 { b'/' } else { b'a' };
        if path.extend_from_slice(&[before, b'a']).is_err() {
            return false;
        }
    }
    true
}

/// The header of a commit, with an author or an encoding if the line is `author` or `encoding`.
pub fn header_with(alloc: Global, line: &[u8]) -> Option<Header> {
    if line == b"author".as_slice() {
        header_of(alloc, Some(Ident::read(alloc, AUTHOR).ok()?), None)
    } else if line == b"encoding".as_slice() {
        header_of(alloc, None, Some(Vec::from_slice(alloc, ENCODING).ok()?))
    } else {
        header_of(alloc, None, None)
    }
}

fn header_of(alloc: Global, author: Option<Ident>, encoding: Option<Vec<u8>>) -> Option<Header> {
    let (ref_name, committer) = branch_and_committer(alloc)?;
    Some(Header {
        ref_name,
        mark: None,
        author,
        committer,
        encoding,
    })
}

fn branch_and_committer(alloc: Global) -> Option<(RefName, Ident)> {
    let branch = RefName::read(alloc, b"refs/heads/m").ok()?;
    let committer = Ident::read(alloc, b"A <a@b> 0 +0000").ok()?;
    Some((branch, committer))
}
