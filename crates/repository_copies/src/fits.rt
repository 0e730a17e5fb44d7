//! Whether objects fit into a stream: git-fast-import(1), "Input Format".

ghost use Rattle.std.specs.Prelude.{◌↔◌, ◌≤◌, ◌<◌, List, All, IfOk, IfSome, IsTrue, length};
ghost use Rattle.std.specs.Option.{option_copied};
ghost use Rattle.git_model.specs.{Commit.{Commit}, CommitReading.{commit_read}, Tag.{Tag}};
ghost use Rattle.git_model.specs.GoodRepository.{AreObjects, IsCommit, IsTag, IsValid};
ghost use Rattle.git_model.specs.{References.{object_at}, Repository.{Object}};
ghost use Rattle.git_model.specs.TagReading.{tag_read};
ghost use Rattle.git_objects.specs.Parts.{commit_of, tag_of};
ghost use Rattle.stream_lex.specs.Headers.{largest_data};
ghost use Rattle.export_text.specs.Limits.{FitsLine, FitsTag};
ghost use Rattle.export_laws.specs.Copies.{CommitFits, FitsStream};

use git_objects::{CommitParts, Kind, Memory, Naming, TagParts, read_commit, read_tag};
use std::alloc::Global;
use tenant_tables::Objects;

/// The most bytes of a line, without its line end.
const LONGEST_LINE: usize = 1_048_575;

/// The most bytes of one data.
const LARGEST_DATA: usize = 67_108_864;

// Whether a word and a text after it are no longer than a line.
fn fits_line(word: &[u8], text: &[u8]) -> bool
    ensures { IsTrue result ↔ FitsLine word.now text.now }
{
    word.len() + text.len() <= LONGEST_LINE
}

fn fits_if_any(word: &[u8], text: Option<&[u8]>) -> bool
    ensures { IsTrue result ↔ IfSome (option_copied text.entry) (FitsLine word.now) }
{
    match text {
        Some(text) => fits_line(word, text),
        None => true,
    }
}

fn fits_data(bytes: &[u8]) -> bool
    ensures { IsTrue result ↔ (length bytes.now ≤ largest_data) }
{
    bytes.len() <= LARGEST_DATA
}

fn commit_parts_fit(parts: &CommitParts<'_>) -> bool
    ensures { IsTrue result ↔ CommitFits (commit_of parts.now) }
{
    fits_line(b"author ", parts.author)
        && fits_line(b"committer ", parts.committer)
        && fits_if_any(b"encoding ", parts.encoding)
        && fits_data(parts.message)
}

fn tag_parts_fit(parts: &TagParts<'_>) -> bool
    ensures { IsTrue result ↔ FitsTag (tag_of parts.now) }
{
    fits_if_any(b"tagger ", parts.tagger) && fits_data(parts.message)
}

fn commit_fits(alloc: Global, contents: &[u8]) -> Result<bool, Memory>
    ensures { (c : Commit) → IsCommit contents.now c
        → IfOk result (λ fits. IsTrue fits ↔ CommitFits (commit_read contents.now)) }
{
    match read_commit(alloc, contents) {
        Ok(Some(parts)) => Ok(commit_parts_fit(&parts)),
        Ok(None) => Ok(false),
        Err(refused) => Err(refused),
    }
}

fn tag_fits(alloc: Global, contents: &[u8]) -> Result<bool, Memory>
    ensures { (t : Tag) → IsTag contents.now t
        → IfOk result (λ fits. IsTrue fits ↔ FitsTag (tag_read contents.now)) }
{
    match read_tag(alloc, contents) {
        Ok(Some(parts)) => Ok(tag_parts_fit(&parts)),
        Ok(None) => Ok(false),
        Err(refused) => Err(refused),
    }
}

// Whether an object of this kind with these contents fits, by its lines and its data.
fn fits_by_parts(alloc: Global, kind: Kind, contents: &[u8]) -> Result<bool, Memory>
    ensures { (os : List Object) → IsValid os kind contents.now
        → IfOk result (λ fits. IsTrue fits ↔ FitsStream kind contents.now) }
{
    match kind {
        Kind::Blob => Ok(fits_data(contents)),
        Kind::Tree => Ok(true),
        Kind::Commit => commit_fits(alloc, contents),
        Kind::Tag => tag_fits(alloc, contents),
    }
}

// The same. Contents that are no longer than one line need not be read.
fn fits(alloc: Global, kind: Kind, contents: &[u8]) -> Result<bool, Memory>
    ensures { (os : List Object) → IsValid os kind contents.now
        → IfOk result (λ fits. IsTrue fits ↔ FitsStream kind contents.now) }
{
    if contents.len() <= LONGEST_LINE {
        Ok(true)
    } else {
        fits_by_parts(alloc, kind, contents)
    }
}

fn fits_at<N: Naming>(alloc: Global, objects: &Objects<'_, N>, place: usize) -> Result<bool, Memory>
    ensures { AreObjects N.digest_of objects.now → place < length objects.now
        → IfOk result (λ fits. IsTrue fits ↔ FitsStream
        (object_at place objects.now).content.kind (object_at place objects.now).content.bytes) }
{
    match objects.at(place) {
        Some((_, kind, contents)) => fits(alloc, kind, contents),
        None => Ok(false),
    }
}

/// Whether each object fits into a stream. `Memory` (90) if there is no memory to read one.
pub fn all_fit<N: Naming>(alloc: Global, objects: &Objects<'_, N>) -> Result<bool, Memory>
    ensures { AreObjects N.digest_of objects.now → IfOk result (λ fit. IsTrue fit
        ↔ All (λ o. FitsStream o.content.kind o.content.bytes) objects.now) }
{
    for place in 0..objects.len() {
        if !fits_at(alloc, objects, place)? {
            return Ok(false);
        }
    }
    Ok(true)
}
