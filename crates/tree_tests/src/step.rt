//! The steps of a case, which are lines of a text.
//!
//! A line is words with a space between two of them: what is done to a branch or looked up in it,
//! and with what. Where a refusal is the answer, its number stands before them.
//!
//! ```text
//! put PATH NAME          graft PATH NAME                 mode PATH MODE
//! put-long COUNT LENGTH  graft-long COUNT LENGTH NAME    none PATH
//! put-many COUNT FILES   copy PATH PATH                  tree PATH NAME
//! put-line FILE          rename PATH PATH                store NAME
//! add-hello              drop PATH                       stored OBJECTS
//! clear                                                  reads TEXTS
//! put-round COUNT STEP FILES
//! drop-round COUNT STEP FILES
//! ```
//!
//! The path of the root is `/`. A long path has so many components, each of so many `a`; many files
//! are so many in each of so many directories; a file is a line of `git ls-tree -r`. `put-round` and
//! `drop-round` go round COUNT numbers, STEP numbers further each time, and put or drop a file of the
//! directory `d` at each of FILES numbers, from `d/f1000` for 0 on. A name is 40 digits, `hello` for the blob of `hello` and a line feed, which `add-hello` adds, or `empty` for
//! the empty tree. `mode`, `none` and `tree` look up what stands at a path, `store` says the name
//! under which the root is stored, `stored` how many objects there are then, and `reads` how many
//! trees were read, where the body counts them.

use git_objects::{FileMode, Name, read_mode};
use git_paths::Path;
use numerals::read_number;
use std::alloc::Global;

/// A blob of `hello` and a line feed, by the name that Git gives it.
pub const HELLO: &[u8] = b"ce013625030ba8dba906f756967f9e9ca394464a";

const EMPTY_TREE: &[u8] = b"4b825dc642cb6eb9a060e54bf8d69288fbee4904";

/// A step: what it does, the three words after that, all that follows it, and the number of the
/// refusal that it expects, 0 where there is none. A word that a line does not have is empty.
#[derive(Clone, Copy)]
pub struct Step<'a> {
    pub does: &'a [u8],
    pub first: &'a [u8],
    pub second: &'a [u8],
    pub third: &'a [u8],
    pub with: &'a [u8],
    pub code: u64,
}

/// The step of a line.
pub fn step_of(line: &[u8]) -> Step<'_> {
    match read_number(word(line, 0)) {
        Some(code) => step_with(code, after_word(line)),
        None => step_with(0, line),
    }
}

fn step_with(code: u64, words: &[u8]) -> Step<'_> {
    Step {
        does: word(words, 0),
        first: word(words, 1),
        second: word(words, 2),
        third: word(words, 3),
        with: after_word(words),
        code,
    }
}

fn word(line: &[u8], place: usize) -> &[u8] {
    line.split(|byte| *byte == b' ').nth(place).unwrap_or(b"")
}

// What stands after the first word and its space.
fn after_word(line: &[u8]) -> &[u8] {
    let first = word(line, 0);
    line.get(first.len() + 1..).unwrap_or(b"")
}

/// Whether a step does this. A `match` over words would be proved byte by byte.
pub fn is(step: &Step<'_>, verb: &[u8]) -> bool {
    step.does == verb
}

/// The text of the path that a word is: empty for `/`, the root.
pub fn path_in(word: &[u8]) -> &[u8] {
    if word == b"/".as_slice() {
        b"".as_slice()
    } else {
        word
    }
}

/// The digits of a name.
pub fn name_in(word: &[u8]) -> &[u8] {
    if word == b"hello".as_slice() {
        HELLO
    } else if word == b"empty".as_slice() {
        EMPTY_TREE
    } else {
        word
    }
}

/// Whether this name has these digits.
pub fn is_named(name: Option<Name>, digits: &[u8]) -> bool {
    match name {
        Some(name) => name.to_hex().as_slice() == digits,
        None => false,
    }
}

/// The number that a word writes, if it writes one.
pub fn number_in(word: &[u8]) -> Option<u64> {
    read_number(word)
}

/// The mode that a word writes in octal digits, if it writes one.
pub fn mode_in(word: &[u8]) -> Option<FileMode> {
    read_mode(word)
}

/// The long path of a step, if there was room for it.
pub fn long_path(alloc: Global, step: &Step<'_>) -> Option<Path> {
    let components = number_in(step.first)?;
    let length = number_in(step.second)?;
    path_with(alloc, components, length)
}

fn path_with(alloc: Global, components: u64, length: u64) -> Option<Path> {
    let mut text = Vec::new(alloc);
    if !takes_components(&mut text, components, length) {
        return None;
    }
    Path::from_canonical(alloc, &text).unwrap_or(None)
}

// Whether there was room for so many components of so many letters.
fn takes_components(text: &mut Vec<u8>, components: u64, length: u64) -> bool {
    for position in 0..components {
        if !takes_component(text, position > 0, length) {
            return false;
        }
    }
    true
}

fn takes_component(text: &mut Vec<u8>, is_after: bool, length: u64) -> bool {
    (!is_after || text.push(b'/').is_ok()) && takes_letters(text, length)
}

fn takes_letters(text: &mut Vec<u8>, count: u64) -> bool {
    for _ in 0..count {
        if text.push(b'a').is_err() {
            return false;
        }
    }
    true
}
