//! The words of a change: modes, datarefs and paths; git-fast-import(1), "filemodify" and after.

ghost use Rattle.std.specs.Prelude.{◌≡◌, ◌≢◌, ℕ, List, ◌++◌, codes, MatchOption, Ok};
ghost use Rattle.stream_grammar.specs.Faults.{Gives};
ghost use Rattle.stream_grammar.specs.Texts.{read, required, first_word, after_space};
ghost use Rattle.stream_grammar.specs.Changes as changes;

use crate::data_ref::DataRef;
use crate::fault::Fault;
use crate::text::{dataref_of, split_word};
use git_model::FileMode;
use git_paths::{Path, Place};
use std::alloc::Global;

/// Reads a mode: `100644`, `644`, `100755`, `755`, `120000`, `160000` or `040000`.
/// `Fault::BadMode` (23) for every other word.
#[tactic(auto, unfolding(crate::specs::Changes::mode_of))]
fn mode_of(word: &[u8]) -> Result<FileMode, Fault>
    ensures { result ≡ changes.mode_of word.now }
{
    if word == b"100644".as_slice() || word == b"644".as_slice() {
        Ok(FileMode::Regular)
    } else if word == b"100755".as_slice() || word == b"755".as_slice() {
        Ok(FileMode::Executable)
    } else if word == b"120000".as_slice() {
        Ok(FileMode::Symlink)
    } else if word == b"160000".as_slice() {
        Ok(FileMode::Gitlink)
    } else if word == b"040000".as_slice() {
        Ok(FileMode::Directory)
    } else {
        Err(Fault::BadMode)
    }
}

/// The text after `100644 `, if a text begins with it. Most lines of most streams have this mode,
/// that of a regular file.
#[tactic(auto, using(std::proofs::lemmas::Slice::Eq::strip_prefix_is))]
pub fn after_regular(text: &[u8]) -> Option<&[u8]>
    ensures { MatchOption result ((rest : List ℕ) → text.now ≢ codes "100644 " ++ rest)
        (λ rest. text.now ≡ codes "100644 " ++ rest.now) }
{
    text.strip_prefix(b"100644 ")
}

// Reads a mode and its space, and gives the text after them. Fault 23 for the mode, 3 without the
// space.
fn read_mode(text: &[u8]) -> Result<(FileMode, &[u8]), Fault>
    ensures { Gives {Y = FileMode × List ℕ} (λ found. (found.0, found.1.now)) result
        (read (changes.mode_of (first_word text.now)) (λ mode.
        read (required (after_space text.now)) (λ rest. Ok (mode, rest)))) }
{
    let (word, rest) = split_word(text);
    let mode = mode_of(word)?;
    match rest {
        Some(rest) => Ok((mode, rest)),
        None => Err(Fault::Malformed),
    }
}

// Reads what `read_mode` reads, but without a search for the end of the mode of a regular file.
fn split_mode(text: &[u8]) -> Result<(FileMode, &[u8]), Fault>
    ensures { Gives {Y = FileMode × List ℕ} (λ found. (found.0, found.1.now)) result
        (read (changes.mode_of (first_word text.now)) (λ mode.
        read (required (after_space text.now)) (λ rest. Ok (mode, rest)))) }
{
    match after_regular(text) {
        Some(rest) => Ok((FileMode::Regular, rest)),
        None => read_mode(text),
    }
}

// The mode of inline contents, which must be that of a file.
fn mode_inline(mode: FileMode) -> Result<FileMode, Fault>
    ensures { result ≡ changes.mode_inline mode }
{
    match mode {
        FileMode::Regular => Ok(FileMode::Regular),
        FileMode::Executable => Ok(FileMode::Executable),
        FileMode::Symlink => Ok(FileMode::Symlink),
        FileMode::Gitlink | FileMode::Directory => Err(Fault::Malformed),
    }
}

/// Reads the path that is the rest of a line. `Fault::BadPath` (10) if it is malformed, else
/// `Fault::Limit` (25) if it is too long.
pub fn last_path(alloc: Global, text: &[u8]) -> Result<Path, Fault>
    ensures { Gives (λ path. path) result (changes.last_path text.now) }
{
    match Path::read(alloc, text, Place::Last) {
        Ok((path, _)) => Ok(path),
        Err(git_paths::Fault::BadPath) => Err(Fault::BadPath),
        Err(git_paths::Fault::Limit) => Err(Fault::Limit),
        Err(git_paths::Fault::Memory) => Err(Fault::Memory),
    }
}

/// Reads a source and a path, each as `last_path` does. A fault of the source comes first.
pub fn paths_of(alloc: Global, text: &[u8]) -> Result<(Path, Path), Fault>
    ensures { Gives (λ paths. paths) result (changes.paths_of text.now) }
{
    match Path::read(alloc, text, Place::Source) {
        Ok((source, rest)) => {
            let path = last_path(alloc, rest)?;
            Ok((source, path))
        }
        Err(git_paths::Fault::BadPath) => Err(Fault::BadPath),
        Err(git_paths::Fault::Limit) => Err(Fault::Limit),
        Err(git_paths::Fault::Memory) => Err(Fault::Memory),
    }
}

/// Reads a dataref, a space and a path. Faults 3 and 12 for the dataref, 3 without the space, then
/// those of `last_path`.
pub fn object_and_path(alloc: Global, text: &[u8]) -> Result<(DataRef, Path), Fault>
    ensures { Gives (λ file. file) result (changes.object_and_path text.now) }
{
    let (word, rest) = split_word(text);
    let object = dataref_of(word)?;
    match rest {
        Some(rest) => {
            let path = last_path(alloc, rest)?;
            Ok((object, path))
        }
        None => Err(Fault::Malformed),
    }
}

/// Reads a mode, a space, and what `object_and_path` reads. Fault 23 for the mode, 3 without the
/// space, then those of `object_and_path`.
pub fn modified(alloc: Global, text: &[u8]) -> Result<(FileMode, DataRef, Path), Fault>
    ensures { Gives (λ file. file) result (changes.modified text.now) }
{
    let (mode, rest) = split_mode(text)?;
    let (object, path) = object_and_path(alloc, rest)?;
    Ok((mode, object, path))
}

// The path after `inline` and its space.
fn inline_path(alloc: Global, rest: &[u8]) -> Result<Path, Fault>
    ensures { Gives (λ path. path) result (changes.inline_path rest.now) }
{
    match split_word(rest).1 {
        Some(text) => last_path(alloc, text),
        None => Err(Fault::Malformed),
    }
}

/// Reads a mode, `inline` and a path. Fault 23 for the mode, 3 without a space or if the mode is
/// not that of a file, then those of `last_path`.
pub fn modified_inline(alloc: Global, text: &[u8]) -> Result<(FileMode, Path), Fault>
    ensures { Gives (λ file. file) result (changes.modified_inline text.now) }
{
    let (mode, rest) = read_mode(text)?;
    let mode = mode_inline(mode)?;
    let path = inline_path(alloc, rest)?;
    Ok((mode, path))
}

/// Whether a text begins with a quote.
pub fn is_quoted(text: &[u8]) -> bool
    ensures { result ≡ changes.is_quoted text.now }
{
    matches!(text, [b'"', ..])
}
