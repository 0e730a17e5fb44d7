//! The names in a line: refs, idents and commit-ishes.

ghost use Rattle.stream_grammar.specs.{Faults.{Gives}, Features.{head_of}, Shown.{commit_shown}};
ghost use Rattle.stream_grammar.specs.Names as names;

use crate::commit_ish::CommitIsh;
use crate::fault::Fault;
use crate::text::{after_colon, idnum_of};
use git_names::{Ident, RefName, RefNameFault};
use std::alloc::Global;

/// Reads a ref. `Fault::BadRefName` (11) if it is neither a ref name nor `HEAD`, else
/// `Fault::Limit` (25) if it has more than 1,024 bytes. Takes memory for the copy.
pub fn ref_of(alloc: Global, text: &[u8]) -> Result<RefName, Fault>
    ensures { Gives (λ name. name) result (names.ref_of text.now) }
{
    match RefName::read(alloc, text) {
        Ok(name) => Ok(name),
        Err(RefNameFault::BadRefName) => Err(Fault::BadRefName),
        Err(RefNameFault::Limit) => Err(Fault::Limit),
        Err(RefNameFault::Memory) => Err(Fault::Memory),
    }
}

/// Reads the name of a tag and answers its ref. The faults are those of `ref_of`. Takes memory for
/// the ref.
pub fn tag_ref_of(alloc: Global, name: &[u8]) -> Result<RefName, Fault>
    ensures { Gives (λ name. name) result (names.tag_ref_of name.now) }
{
    let mut text = Vec::from_slice(alloc, b"refs/tags/")?;
    text.extend_from_slice(name)?;
    ref_of(alloc, &text)
}

/// Reads the ref that HEAD shall point to, as `ref_of` does. `HEAD` itself is `Fault::BadRefName`
/// (11).
#[tactic(auto, unfolding(crate::specs::Features::head_of))]
pub fn head_of(alloc: Global, text: &[u8]) -> Result<RefName, Fault>
    ensures { Gives (λ name. name) result (head_of text.now) }
{
    if text == b"HEAD".as_slice() {
        Err(Fault::BadRefName)
    } else {
        ref_of(alloc, text)
    }
}

/// Reads an ident. `Fault::BadIdentity` (21) if the name or the email is malformed, else
/// `Fault::BadDate` (22) if the date is. Takes memory for the copy.
pub fn ident_of(alloc: Global, text: &[u8]) -> Result<Ident, Fault>
    ensures { Gives (λ ident. ident) result (names.ident_of text.now) }
{
    match Ident::read(alloc, text) {
        Ok(ident) => Ok(ident),
        Err(git_names::IdentFault::BadIdentity) => Err(Fault::BadIdentity),
        Err(git_names::IdentFault::BadDate) => Err(Fault::BadDate),
        Err(git_names::IdentFault::Memory) => Err(Fault::Memory),
    }
}

/// Reads a commit-ish. `Fault::BadMark` (12) for a colon that no number of a mark follows.
pub fn commit_ish_of(text: &[u8]) -> Result<CommitIsh<'_>, Fault>
    ensures { Gives commit_shown result (names.commit_ish_of text.now) }
{
    match after_colon(text) {
        Some(digits) => Ok(CommitIsh::Mark(idnum_of(digits)?)),
        None => Ok(CommitIsh::Expression(text)),
    }
}
