//! Which contents an object of each kind may have.

ghost use Rattle.std.specs.Prelude.{◌≡◌, ◌≢◌, ◌↔◌, IfOk, IsTrue, MatchOption};
ghost use Rattle.git_model.specs.{declared.kind.Kind.{Kind as Kinds}, Content.{content_from}};
ghost use Rattle.pool_file_checks.specs.Objects.{kind_byte, IsText, IsContent};

use git_objects::{Kind, Memory, read_commit, read_tag, read_tree};
use std::alloc::Global;

/// How many bytes an object may have.
pub const CONTENTS_LIMIT: usize = 134_217_728;

/// How many parents a commit may have.
pub const PARENTS_LIMIT: usize = 1024;

/// How many bytes the name of a tag may have. After `refs/tags/` it makes a ref name of 1,024.
pub const TAG_NAME_LIMIT: usize = 1014;

/// The kind of this byte of the file; `None` for a byte of no kind.
pub fn kind_from(byte: u8) -> Option<Kind>
    ensures { MatchOption result ((k : Kinds) → kind_byte k ≢ byte) (λ k. kind_byte k ≡ byte) }
{
    match byte {
        1 => Some(Kind::Commit),
        2 => Some(Kind::Tree),
        3 => Some(Kind::Blob),
        4 => Some(Kind::Tag),
        _ => None,
    }
}

fn is_tree(alloc: Global, bytes: &[u8]) -> Result<bool, Memory>
    ensures { IfOk result (λ b. IsTrue b ↔ IsText Kind.Tree bytes.now) }
{
    match read_tree(alloc, bytes) {
        Ok(Some(_)) => Ok(true),
        Ok(None) => Ok(false),
        Err(refused) => Err(refused),
    }
}

fn is_commit(alloc: Global, bytes: &[u8]) -> Result<bool, Memory>
    ensures { IfOk result (λ b. IsTrue b ↔ IsText Kind.Commit bytes.now) }
{
    match read_commit(alloc, bytes) {
        Ok(Some(parts)) => Ok(parts.ancestors.as_slice().len() <= PARENTS_LIMIT),
        Ok(None) => Ok(false),
        Err(refused) => Err(refused),
    }
}

fn is_tag(alloc: Global, bytes: &[u8]) -> Result<bool, Memory>
    ensures { IfOk result (λ b. IsTrue b ↔ IsText Kind.Tag bytes.now) }
{
    match read_tag(alloc, bytes) {
        Ok(Some(parts)) => Ok(parts.name.len() <= TAG_NAME_LIMIT),
        Ok(None) => Ok(false),
        Err(refused) => Err(refused),
    }
}

fn is_text(alloc: Global, kind: Kind, bytes: &[u8]) -> Result<bool, Memory>
    ensures { IfOk result (λ b. IsTrue b ↔ IsText kind bytes.now) }
{
    match kind {
        Kind::Blob => Ok(true),
        Kind::Tree => is_tree(alloc, bytes),
        Kind::Commit => is_commit(alloc, bytes),
        Kind::Tag => is_tag(alloc, bytes),
    }
}

/// Whether these are contents of this kind, within the limits.
///
/// `Memory` (90) if there is no memory to read them.
pub fn is_content(alloc: Global, kind: Kind, bytes: &[u8]) -> Result<bool, Memory>
    ensures { IfOk result (λ b. IsTrue b ↔ IsContent (content_from kind bytes.now)) }
{
    if bytes.len() > CONTENTS_LIMIT {
        return Ok(false);
    }
    is_text(alloc, kind, bytes)
}
