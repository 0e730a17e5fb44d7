//! A commit with another message.

ghost use Rattle.std.specs.Prelude.{◌≡◌, IfOk, IsSomeAnd};
ghost use Rattle.git_model.specs.Commit.{Commit, CanWriteCommit, commit_contents};

use git_objects::{Memory, read_commit, write_commit};
use std::alloc::Global;

/// The contents of a commit that says what another one says, but for its message. `None` where
/// `contents` are no commit's, `Memory` (90) where there is no room.
pub fn reword<'a>(
    alloc: Global,
    contents: &'a [u8],
    message: &'a [u8],
) -> Result<Option<Vec<u8>>, Memory>
    ensures { (commit : Commit) → CanWriteCommit commit → contents.now ≡ commit_contents commit
        → IfOk result (λ r. IsSomeAnd r (λ reworded.
        reworded.items ≡ commit_contents (record commit { message = message.now }))) }
{
    let Some(mut parts) = read_commit(alloc, contents)? else {
        return Ok(None);
    };
    parts.message = message;
    let mut reworded = Vec::new(alloc);
    write_commit(&parts, &mut reworded)?;
    Ok(Some(reworded))
}
