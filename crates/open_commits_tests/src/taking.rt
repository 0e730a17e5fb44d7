//! A test takes the open commit out of its place for a call, and puts it back afterwards.
//!
//! In each function at most one path drops the commit, so that its proof is short.

ghost use Rattle.std.specs.Prelude.{◌≡◌, ◌≢◌, List, None, Err, IsTrue, IfSome};
ghost use Rattle.git_model.specs.Repository.{Object as StoredObject};
ghost use Rattle.tree_build.specs.Branch.{IsBranch};
ghost use Rattle.open_commits.specs.OpenCommit.{IsCommitHeld};
ghost use Rattle.open_commits.specs.declared.fault.Fault.TheVariants as fault;

use open_commits::{Fault, Header, OpenCommit};
use std::alloc::Global;
use std::mem;
use tree_build::Files;

/// The number of an answer: 0 if nothing is refused, and 90 if memory ran out, which no step
/// expects.
pub fn code_of(answer: Result<(), Fault>) -> u64 {
    match answer {
        Ok(()) => 0,
        Err(fault) => u64::from(fault.code()),
    }
}

/// Takes the open commit out of its place. It is dropped unless it is put back.
pub fn taken(place: &mut Option<OpenCommit>) -> Option<OpenCommit>
    ensures held { (os : List StoredObject) → IfSome place.old (IsCommitHeld os)
        → IfSome result (IsCommitHeld os) }
    ensures none { place.new ≡ None }
{
    place.take()
}

/// Puts the commit back if it may go on, and drops it otherwise. This is a function of its own,
/// because each path that drops the commit makes a proof longer.
pub fn put_back(place: &mut Option<OpenCommit>, commit: OpenCommit, goes_on: bool)
    ensures { (os : List StoredObject) → (IsTrue goes_on → IsCommitHeld os commit)
        → IfSome place.new (IsCommitHeld os) }
{
    drop(mem::replace(place, goes_on.then_some(commit)));
}

// Whether a commit may go on after this answer: after `Memory` nothing is known of it.
fn goes_on_after(answer: &Result<(), Fault>) -> bool
    ensures { IsTrue result → answer.now ≢ Err fault.Memory }
{
    *answer != Err(Fault::Memory)
}

/// Puts the commit back, and returns whether the answer has this number.
pub fn answers(
    place: &mut Option<OpenCommit>,
    commit: OpenCommit,
    answer: Result<(), Fault>,
    code: u64,
) -> bool
    ensures { (os : List StoredObject) → (answer ≢ Err fault.Memory → IsCommitHeld os commit)
        → IfSome place.new (IsCommitHeld os) }
{
    put_back(place, commit, goes_on_after(&answer));
    code_of(answer) == code
}

/// Begins a commit on these files, and returns whether there was memory for it.
pub fn begin_on(
    place: &mut Option<OpenCommit>,
    header: Header,
    message: &[u8],
    files: Files,
    alloc: Global,
) -> bool
    requires { place.old ≡ None }
    ensures { (os : List StoredObject) → IsBranch os files → IfSome place.new (IsCommitHeld os) }
{
    let begun = OpenCommit::begin(alloc, header, message, files).ok();
    drop(mem::replace(place, begun));
    place.is_some()
}

/// The files of the open commit, which is taken out of its place and not put back.
pub fn files_left(place: &mut Option<OpenCommit>) -> Option<Files>
    ensures branch { (os : List StoredObject) → IfSome place.old (IsCommitHeld os)
        → IfSome result (IsBranch os) }
    ensures none { place.new ≡ None }
{
    Some(taken(place)?.into_files())
}
