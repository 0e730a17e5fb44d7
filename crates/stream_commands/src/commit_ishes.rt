//! Commit-ishes: git-fast-import(1), "from".
//!
//! A commit-ish is looked up among the stream's marks and branches, the given objects and the refs
//! as last saved. Nothing here changes them. The state keeps the commits of a walk for the next one.

ghost use Rattle.std.specs.Prelude.{◌≡◌, List, ℕ};
ghost use Rattle.git_model.specs.{HeldObjects.{AreHeld}, Repository.{Object}};
ghost use Rattle.stream_grammar.specs.{Names.{Expression}, Shown.{commit_shown}};
ghost use Rattle.stream_parts.specs.Faults.{Gives};
ghost use Rattle.stream_commands.specs.CommitIshes.{commit_in, is_branch, named_in, start_in};
ghost use Rattle.stream_commands.specs.{Held.{ChainStands}, State.{state_shown, workspace_over}};

use crate::state::StreamState;
use git_objects::{Kind, Name, Naming};
use stream_grammar::CommitIsh;
use stream_parts::branches::meant;
use stream_parts::commit_ishes::{commit_at, peel_with_chain, resolve_words};
use stream_parts::fault::Fault;
use stream_parts::marks;
use tenant_refs::{RefName, Refs};
use tenant_tables::Objects;

// What words stand for: the commit of a branch of the stream, or what an expression names.
fn words_named<N: Naming>(
    objects: &Objects<'_, N>,
    refs: &Refs,
    state: &mut StreamState,
    words: &[u8],
) -> Result<Name, Fault>
    requires chain { ChainStands N.digest_of objects.now state.old.chain }
    ensures named { (committed : ℕ) → AreHeld N.digest_of objects.now → Gives result
        (named_in (workspace_over (state_shown state.old) objects.now committed refs.now)
        (Expression words.now)) }
    ensures same { state_shown state.new
        ≡ record (state_shown state.old) { chain = state.new.chain } }
    ensures chain { ChainStands N.digest_of objects.now state.new.chain }
{
    let name = meant(&state.head, refs, words);
    match state.branches.tip_of(state.alloc, name)? {
        Some(tip) => commit_at(tip),
        None => { resolve_words(state.alloc, objects, refs, &mut state.chain, words) }
    }
}

/// The object that a commit-ish stands for: that of a mark, the commit of a branch of the stream,
/// or what an expression names among these objects and the refs as last saved.
///
/// `Fault::MarkUnknown` (13) if the mark is not set; `Fault::UnknownRevision` (16) if the branch is
/// at no commit. For an expression: `Fault::Malformed` (3) if it is none, `Fault::WrongKind` (15)
/// if a suffix asks for another kind, `Fault::UnknownRevision` (16) if it names nothing,
/// `Fault::Ambiguous` (17) if several object names begin with the abbreviation. `Fault::Memory`
/// (90) if an allocation fails. The contract says what the answer is if the objects are good.
pub fn named<N: Naming>(
    objects: &Objects<'_, N>,
    refs: &Refs,
    state: &mut StreamState,
    commit: &CommitIsh<'_>,
) -> Result<Name, Fault>
    requires chain { ChainStands N.digest_of objects.now state.old.chain }
    ensures named { (committed : ℕ) → AreHeld N.digest_of objects.now → Gives result
        (named_in (workspace_over (state_shown state.old) objects.now committed refs.now)
        (commit_shown commit.now)) }
    ensures same { state_shown state.new
        ≡ record (state_shown state.old) { chain = state.new.chain } }
    ensures chain { ChainStands N.digest_of objects.now state.new.chain }
{
    match commit {
        CommitIsh::Mark(mark) => marks::find(&state.marks, *mark),
        CommitIsh::Expression(words) => words_named(objects, refs, state, words),
    }
}

/// The commit that a commit-ish stands for: `named`, peeled to a commit.
///
/// The refusals are those of `named`, and `Fault::WrongKind` (15) if the object is no commit and no
/// tag of one.
pub fn commit_named<N: Naming>(
    objects: &Objects<'_, N>,
    refs: &Refs,
    state: &mut StreamState,
    commit: &CommitIsh<'_>,
) -> Result<Name, Fault>
    requires chain { ChainStands N.digest_of objects.now state.old.chain }
    ensures named { (committed : ℕ) → AreHeld N.digest_of objects.now → Gives result
        (commit_in (workspace_over (state_shown state.old) objects.now committed refs.now)
        (commit_shown commit.now)) }
    ensures same { state_shown state.new
        ≡ record (state_shown state.old) { chain = state.new.chain } }
    ensures chain { ChainStands N.digest_of objects.now state.new.chain }
{
    let id = named(objects, refs, state, commit)?;
    peel_with_chain(state.alloc, objects, &mut state.chain, Kind::Commit, id)
}

// Whether a commit-ish is the branch itself, perhaps as `HEAD`.
fn is_branch(state: &StreamState, refs: &Refs, ref_name: &RefName, commit: &CommitIsh<'_>) -> bool
    ensures { (os : List Object) (committed : ℕ) → result
        ≡ is_branch (workspace_over (state_shown state.now) os committed refs.now) ref_name.now
        (commit_shown commit.now) }
{
    match commit {
        CommitIsh::Mark(_) => false,
        CommitIsh::Expression(words) => meant(&state.head, refs, words) == ref_name.as_bytes(),
    }
}

/// The commit that a branch starts from.
///
/// `Fault::BranchFromItself` (19) if the commit-ish is the branch itself, perhaps as `HEAD`; this
/// is judged first. The other refusals are those of `commit_named`.
pub fn start_of<N: Naming>(
    objects: &Objects<'_, N>,
    refs: &Refs,
    state: &mut StreamState,
    ref_name: &RefName,
    from: &CommitIsh<'_>,
) -> Result<Name, Fault>
    requires chain { ChainStands N.digest_of objects.now state.old.chain }
    ensures started { (committed : ℕ) → AreHeld N.digest_of objects.now → Gives result
        (start_in (workspace_over (state_shown state.old) objects.now committed refs.now) ref_name.now
        (commit_shown from.now)) }
    ensures same { state_shown state.new
        ≡ record (state_shown state.old) { chain = state.new.chain } }
    ensures chain { ChainStands N.digest_of objects.now state.new.chain }
{
    if is_branch(state, refs, ref_name, from) {
        return Err(Fault::BranchFromItself);
    }
    commit_named(objects, refs, state, from)
}
