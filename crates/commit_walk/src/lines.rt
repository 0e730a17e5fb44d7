//! Single lines of the contents of a commit: "commit object" in gitglossary(7).
//!
//! `look_commit` of git_objects tells whether contents can be read as those of a commit, and reads
//! them whole. Here they are known to be readable, as in held objects, and only the lines that are
//! needed are read. The answer for other contents is not specified.

ghost use Rattle.std.specs.Prelude.{◌≡◌, ◌<◌, ◌++◌, ℕ, List, None, IfSome, IsSomeAnd, codes};
ghost use Rattle.std.specs.Prelude.{length, slice_get, IfOk};
ghost use Rattle.git_model.specs.declared.kind.Kind.TheVariants as kind;
ghost use Rattle.git_model.specs.{Bytes.{BeginsWith}, CommitReading.{commit_read}};
ghost use Rattle.git_model.specs.{Commit.{line}, HeaderReading.{id_of_digits}};
ghost use Rattle.git_model.specs.Readable.{AreNameDigits, CommitFront, commit_front, IsCommitFront};
ghost use Rattle.git_model.specs.Readable.{IsReadable};
ghost use Rattle.commit_walk.specs.HeaderLines.{after_tree};

use git_objects::{Memory, Name};
use std::alloc::Global;

// The length of a tree line, which is `tree `, forty digits and a line end; and of a parent line.
const TREE_LINE: usize = 46;

const PARENT_LINE: usize = 48;

// What follows the tree line; nothing if the contents are shorter than that line.
pub(crate) fn after_tree(contents: &[u8]) -> &[u8]
    ensures { (front : CommitFront) (rest : List ℕ) → IsCommitFront front rest
        → contents.now ≡ commit_front front ++ rest → result.now ≡ after_tree front rest }
{
    contents.split_at(TREE_LINE.min(contents.len())).1
}

// Takes a parent line from the beginning of a text. What follows the parents may begin with `p`
// too, but not with `parent `.
fn take_parent(text: &[u8]) -> Option<(Name, &[u8])>
    ensures there { (digits rest : List ℕ) → AreNameDigits digits
        → text.now ≡ line (codes "parent ") digits ++ rest
        → IsSomeAnd result (λ r. (r.0 ≡ id_of_digits digits) × (r.1.now ≡ rest)) }
    ensures shorter { IfSome result (λ r. length r.1.now < length text.now) }
    ensures none { ¬ BeginsWith text.now (codes "parent ") → result ≡ None }
{
    if text.len() < PARENT_LINE || !text.starts_with(b"parent ") {
        return None;
    }
    let (line, rest) = text.split_at(PARENT_LINE);
    let id = Name::from_hex(&line[7..47])?;
    Some((id, rest))
}

/// The first parent of the commit with these contents, if it has one. The answer is not specified
/// if the contents cannot be read as those of a commit. Takes no memory.
pub fn first_parent_in(contents: &[u8]) -> Option<Name>
    ensures { IsReadable kind.Commit contents.now
        → result ≡ slice_get (commit_read contents.now).parents 0 }
{
    match take_parent(after_tree(contents)) {
        Some(taken) => Some(taken.0),
        None => None,
    }
}

/// The parents of the commit with these contents. `Memory` (90) if there is no room for them.
pub(crate) fn parents_in(alloc: Global, contents: &[u8]) -> Result<Vec<Name>, Memory>
    ensures { IsReadable kind.Commit contents.now
        → IfOk result (λ parents. parents.items ≡ (commit_read contents.now).parents) }
{
    let mut parents = Vec::new(alloc);
    let mut rest = after_tree(contents);
    'line: while let Some(taken) = take_parent(rest) {
        parents.push(taken.0)?;
        rest = taken.1;
    }
    Ok(parents)
}
