//! The contents of commits: "commit object" in gitglossary(7).

ghost use Rattle.std.specs.Prelude.{◌≡◌, ◌≢◌, ℕ, List, ◌++◌, length, take, Some, IfSome, IfOk};
ghost use Rattle.std.specs.{Prelude.{IsNone, IsSomeAnd, OnOk, OnErr, codes}, List.{flat_map}};
ghost use Rattle.std.specs.Prelude.{◌↔◌, ◌≤◌, IsTrue, MatchOption};
ghost use Rattle.std.specs.Option.{option_map, option_copied};
ghost use Rattle.git_model.specs.{Readable.{AreNameDigits, IsReadable}, Limits.{parents_limit}};
ghost use Rattle.git_model.specs.declared.kind.Kind.TheVariants as kind;
ghost use Rattle.git_objects.specs.DigitParents.{AreDigitParents, IsAfterParents};
ghost use Rattle.git_model.specs.{ObjectName.{IsObjectName}, CommitReading.{commit_read}};
ghost use Rattle.git_model.specs.HeaderReading.{id_of_digits};
ghost use Rattle.git_model.specs.Commit.{Commit, CanWriteCommit, commit_contents, line, name_line};
ghost use Rattle.git_objects.specs.{Parts.{commit_of}, Fronts.{IsFront}, HeaderParts.{end_lines}};
ghost use Rattle.git_objects.specs.CommitParts.{AreParents, IsIdents, idents_text, IsEncoded};

use crate::header::{
    append_end, append_line, append_name_line, find_value, message_in, take_digits_line, take_end,
    take_ident_line, take_name_line, value_or_empty,
};
use git_names::{Memory, Name};
use std::alloc::Global;

// How long the line of a parent is.
const PARENT_LINE: usize = 48;

// How long the line of an encoding is without the encoding.
const ENCODING_LINE: usize = 10;

// How long the lines that each commit has are without author, committer and message.
const OTHER_LINES: usize = 66;

// How many parents a commit may have.
const PARENTS_LIMIT: usize = 1024;

/// The parts of a commit: "commit object" in gitglossary(7). Its texts are borrowed, for example
/// from the contents that were read. Author, committer and encoding are any texts on one line where
/// only `look_commit` reads the contents.
#[derive(Drop)]
pub struct CommitParts<'a> {
    /// The name of the commit's tree.
    pub tree: Name,
    /// The names of its parents, the first one first.
    pub ancestors: Vec<Name>,
    /// Who wrote the change and when: an ident, without the line end.
    pub author: &'a [u8],
    /// Who made the commit and when: an ident, without the line end.
    pub committer: &'a [u8],
    /// The encoding of the message, if it is not UTF-8.
    pub encoding: Option<&'a [u8]>,
    /// The message, usually with a line end at its end.
    pub message: &'a [u8],
}

fn append_parents(ancestors: &[Name], contents: &mut Vec<u8>) -> Result<(), Memory>
    ensures written { OnOk result (contents.new.items
        ≡ contents.old.items ++ flat_map (name_line (codes "parent ")) ancestors.now) }
    ensures kept { take (length contents.old.items) contents.new.items ≡ contents.old.items }
{
    for parent in ancestors {
        append_name_line(b"parent ", parent, contents)?;
    }
    Ok(())
}

fn append_commit(parts: &CommitParts<'_>, contents: &mut Vec<u8>) -> Result<(), Memory>
    ensures written { OnOk result (contents.new.items
        ≡ contents.old.items ++ commit_contents (commit_of parts.now)) }
    ensures kept { take (length contents.old.items) contents.new.items ≡ contents.old.items }
{
    append_name_line(b"tree ", &parts.tree, contents)?;
    append_parents(&parts.ancestors, contents)?;
    append_line(b"author ", parts.author, contents)?;
    append_line(b"committer ", parts.committer, contents)?;
    append_end(b"encoding ", parts.encoding, parts.message, contents)
}

// How many bytes the contents take, so that they are written into one allocation.
fn size_of(parts: &CommitParts<'_>) -> usize {
    let parents = parts.ancestors.len().saturating_mul(PARENT_LINE);
    let encoding = match parts.encoding {
        Some(text) => text.len().saturating_add(ENCODING_LINE),
        None => 0,
    };
    OTHER_LINES
        .saturating_add(parents)
        .saturating_add(parts.author.len())
        .saturating_add(parts.committer.len())
        .saturating_add(encoding)
        .saturating_add(parts.message.len())
}

/// Appends the contents of a commit: "commit object" in gitglossary(7).
///
/// Any parts can be written. `read_commit` reads the contents back if author and committer are
/// idents that do not begin with `<`, and the encoding, if there is one, is a text on one line that
/// is not empty. `Memory` (90) if there is no memory for all of it; `contents` is then unchanged.
pub fn write_commit(parts: &CommitParts<'_>, contents: &mut Vec<u8>) -> Result<(), Memory>
    ensures written { OnOk result (contents.new.items
        ≡ contents.old.items ++ commit_contents (commit_of parts.now)) }
    ensures same { OnErr result (contents.new.items ≡ contents.old.items) }
{
    contents.reserve(size_of(parts))?;
    let start = contents.len();
    let written = append_commit(parts, contents);
    if written.is_err() {
        contents.truncate(start);
    }
    written
}

fn take_parents(alloc: Global, bytes: &[u8]) -> Result<(Vec<Name>, &[u8]), Memory>
    ensures { IfOk result (λ r. AreParents bytes.now r.0.items r.1.now) }
{
    let mut ancestors = Vec::new(alloc);
    let mut rest = bytes;
    while let Some((parent, after)) = take_name_line(b"parent ", rest) {
        ancestors.push(parent)?;
        rest = after;
    }
    Ok((ancestors, rest))
}

fn take_idents(bytes: &[u8]) -> Option<((&[u8], &[u8]), &[u8])>
    ensures { IsFront IsIdents idents_text bytes.now
        (option_map (λ x. ((x.0.0.now, x.0.1.now), x.1.now)) result) }
{
    let (author, rest) = take_ident_line(b"author ", bytes)?;
    let (committer, rest) = take_ident_line(b"committer ", rest)?;
    Some(((author, committer), rest))
}

fn take_encoding(bytes: &[u8]) -> Option<(Option<&[u8]>, &[u8])>
    ensures { IsFront IsEncoded (end_lines (codes "encoding ")) bytes.now
        (option_map (λ x. (option_copied x.0, x.1.now)) result) }
{
    match take_end(b"encoding ", bytes)? {
        (Some(b""), _) => None,
        end => Some(end),
    }
}

/// Reads the contents of a commit: "commit object" in gitglossary(7). The texts of the parts are
/// borrowed from the contents.
///
/// `None` if no commit that can be written has these contents: a header line is missing, repeated
/// or out of place; a name is not 40 lowercase hexadecimal digits; the author or the committer is
/// not an ident or begins with `<`; or the encoding is empty. `Memory` (90) if there is no memory
/// for the names of the parents.
pub fn read_commit(alloc: Global, contents: &[u8]) -> Result<Option<CommitParts<'_>>, Memory>
    ensures found { IfOk result (λ r. IfSome r
        (λ parts. CanWriteCommit (commit_of parts)
        × (contents.now ≡ commit_contents (commit_of parts)))) }
    ensures only { (c : Commit) → CanWriteCommit c → contents.now ≡ commit_contents c
        → IfOk result (λ r. IsSomeAnd r (λ parts. commit_of parts ≡ c)) }
    ensures read { IfOk result (λ r. IfSome r (λ parts. commit_of parts
        ≡ commit_read contents.now)) }
    ensures exact { IfOk result (λ r. IsNone r → (c : Commit) → CanWriteCommit c
        → contents.now ≢ commit_contents c) }
{
    let Some(first) = take_name_line(b"tree ", contents) else {
        return Ok(None);
    };
    let (tree, rest) = first;
    let (ancestors, rest) = take_parents(alloc, rest)?;
    let Some(((author, committer), rest)) = take_idents(rest) else {
        return Ok(None);
    };
    let Some((encoding, message)) = take_encoding(rest) else {
        return Ok(None);
    };
    Ok(Some(CommitParts {
        tree,
        ancestors,
        author,
        committer,
        encoding,
        message,
    }))
}

/// Reads the first line of the contents of a commit, the name of its tree: "commit object" in
/// gitglossary(7). The other lines are not read. Takes no memory.
///
/// `None` if the contents do not begin with `tree`, a space, 40 lowercase hexadecimal digits and a
/// line end. The contents of a commit that can be written begin so.
pub fn read_commit_tree(contents: &[u8]) -> Option<Name>
    ensures found { IfSome result (λ tree. IsObjectName tree × ((rest : List ℕ)
        × (contents.now ≡ name_line (codes "tree ") tree ++ rest))) }
    ensures only { (tree rest : List ℕ) → IsObjectName tree
        → contents.now ≡ name_line (codes "tree ") tree ++ rest → result ≡ Some tree }
    ensures commit { (c : Commit) → CanWriteCommit c → contents.now ≡ commit_contents c
        → result ≡ Some c.tree }
{
    let Some(first) = take_name_line(b"tree ", contents) else {
        return None;
    };
    Some(first.0)
}

/// Reads the first line of the contents of any commit that Git can walk, the name of its tree, as
/// `look_commit` reads it. The other lines are not read. Takes no memory.
///
/// `None` if the contents do not begin with `tree`, a space, 40 hexadecimal digits of either case
/// and a line end.
pub fn look_commit_tree(contents: &[u8]) -> Option<Name>
    ensures first { MatchOption result ((digits rest : List ℕ) → AreNameDigits digits
        → contents.now ≢ line (codes "tree ") digits ++ rest)
        (λ tree. (digits : List ℕ) × (rest : List ℕ) × AreNameDigits digits
        × (contents.now ≡ line (codes "tree ") digits ++ rest)
        × (tree ≡ id_of_digits digits)) }
    ensures commit { IsReadable kind.Commit contents.now
        → result ≡ Some (commit_read contents.now).tree }
{
    let Some(first) = take_digits_line(b"tree ", contents) else {
        return None;
    };
    Some(first.0.0)
}

// As `take_parents`, for digits of either case.
fn take_digit_parents(alloc: Global, bytes: &[u8]) -> Result<(Vec<Name>, &[u8]), Memory>
    ensures { IfOk result (λ r. AreDigitParents bytes.now r.0.items r.1.now) }
{
    let mut ancestors = Vec::new(alloc);
    let mut rest = bytes;
    while let Some(taken) = take_digits_line(b"parent ", rest) {
        ancestors.push(taken.0.0)?;
        rest = taken.1;
    }
    Ok((ancestors, rest))
}

// Whether a text can follow the lines of so many parents, which are all.
fn is_after_parents(count: usize, rest: &[u8]) -> bool
    ensures { IsTrue result ↔ ((count ≤ parents_limit) × IsAfterParents rest.now) }
{
    count <= PARENTS_LIMIT && !rest.is_empty() && !rest.starts_with(b"parent ")
}

/// Reads the contents of any commit that Git can walk, whoever wrote it: git-cat-file(1), -p. The
/// texts of the parts are borrowed from the contents.
///
/// `None` if the contents do not begin with the line `tree` and any number of lines `parent`, up to
/// 1,024, each with 40 hexadecimal digits of either case; if another line that begins with `parent`
/// follows, or nothing. Author, committer and encoding are any texts, or empty where their lines
/// are missing. A commit that `read_commit` reads has the same parts here. `Memory` (90) if there
/// is no memory for the names of the parents.
pub fn look_commit(alloc: Global, contents: &[u8]) -> Result<Option<CommitParts<'_>>, Memory>
    ensures { IfOk result (λ r. MatchOption r (¬ IsReadable kind.Commit contents.now)
        (λ parts. IsReadable kind.Commit contents.now
        × (commit_of parts ≡ commit_read contents.now))) }
{
    let Some(first) = take_digits_line(b"tree ", contents) else {
        return Ok(None);
    };
    let ((tree, _digits), rest) = first;
    let (ancestors, rest) = take_digit_parents(alloc, rest)?;
    if !is_after_parents(ancestors.len(), rest) {
        return Ok(None);
    }
    let author = value_or_empty(b"author ", rest);
    let committer = value_or_empty(b"committer ", rest);
    let encoding = find_value(b"encoding ", rest);
    let message = message_in(rest);
    Ok(Some(CommitParts {
        tree,
        ancestors,
        author,
        committer,
        encoding,
        message,
    }))
}
