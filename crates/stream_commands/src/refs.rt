//! Resets and aliases: git-fast-import(1), "reset" and "alias".

ghost use Rattle.std.specs.Prelude.{◌≡◌, List, ℕ, OnOk};
ghost use Rattle.git_model.specs.{HeldObjects.{AreHeld}, Repository.{Object}};
ghost use Rattle.stream_grammar.specs.Acts.{Reset, ResetFrom, Alias};
ghost use Rattle.stream_grammar.specs.Shown.{commit_shown, ref_command_shown};
ghost use Rattle.stream_parts.specs.Faults.{Gives};
ghost use Rattle.stream_commands.specs.Refs.{branch_unborn, is_zeros, ref_set, tip_from};
ghost use Rattle.stream_commands.specs.Held.{ChainStands, HoldsFiles, KeepsBranchFiles};
ghost use Rattle.stream_commands.specs.State.{state_shown, workspace_over, CarriesOut};

use crate::commit_ishes::{commit_named, start_of};
use crate::open_command::OpenCommand;
use crate::state::StreamState;
use git_objects::{Kind, Naming};
use stream_grammar::{CommitIsh, Mark, RefCommand};
use stream_parts::branches::{Tip, copy_meant};
use stream_parts::fault::Fault;
use stream_parts::marks;
use tenant_refs::{RefName, Refs};
use tenant_tables::Objects;

// Makes a branch unborn, whatever it was, and begins its reset.
fn set_unborn(state: &mut StreamState, refs: &Refs, branch: RefName) -> Result<(), Fault>
    ensures done { (os : List Object) (committed : ℕ) (out : List ℕ) → CarriesOut
        (branch_unborn branch (workspace_over (state_shown state.old) os committed refs.now))
        (workspace_over (state_shown state.new) os committed refs.now) out out result }
    ensures files { KeepsBranchFiles (state_shown state.old) (state_shown state.new) }
{
    let reset = branch.try_clone(state.alloc)?;
    state.branches.set(branch, Tip::Unborn)?;
    state.command.open(OpenCommand::Reset(reset));
    Ok(())
}

// 'reset'.
#[tactic(auto, unfolding(crate::specs::Refs::ref_set))]
fn reset(state: &mut StreamState, refs: &Refs, ref_name: &RefName) -> Result<(), Fault>
    ensures done { (os : List Object) (committed : ℕ) (out : List ℕ) → CarriesOut
        (ref_set (Reset ref_name.now)
        (workspace_over (state_shown state.old) os committed refs.now))
        (workspace_over (state_shown state.new) os committed refs.now) out out result }
    ensures files { KeepsBranchFiles (state_shown state.old) (state_shown state.new) }
{
    let branch = copy_meant(state.alloc, &state.head, refs, ref_name)?;
    set_unborn(state, refs, branch)
}

// Whether these are forty zeros, which stand for no commit.
#[tactic(auto, unfolding(crate::specs::Refs::is_zeros))]
fn is_zeros(commit: &CommitIsh<'_>) -> bool
    ensures { result ≡ is_zeros (commit_shown commit.now) }
{
    match commit {
        CommitIsh::Mark(_) => false,
        CommitIsh::Expression(words) => *words == [b'0'; 40].as_slice(),
    }
}

// The tip of a branch that is reset to this: deleted, or at the commit.
fn tip_from<N: Naming>(
    objects: &Objects<'_, N>,
    refs: &Refs,
    state: &mut StreamState,
    ref_name: &RefName,
    from: &CommitIsh<'_>,
) -> Result<Tip, Fault>
    requires chain { ChainStands N.digest_of objects.now state.old.chain }
    ensures tip { (committed : ℕ) → AreHeld N.digest_of objects.now → Gives result
        (tip_from (workspace_over (state_shown state.old) objects.now committed refs.now) ref_name.now
        (commit_shown from.now)) }
    ensures same { state_shown state.new
        ≡ record (state_shown state.old) { chain = state.new.chain } }
    ensures chain { ChainStands N.digest_of objects.now state.new.chain }
{
    if is_zeros(from) {
        return Ok(Tip::Deleted);
    }
    let id = start_of(objects, refs, state, ref_name, from)?;
    Ok(Tip::At(id))
}

// 'from' in a reset.
#[tactic(auto, unfolding(crate::specs::Refs::ref_set))]
fn reset_to<N: Naming>(
    objects: &Objects<'_, N>,
    refs: &Refs,
    state: &mut StreamState,
    from: &CommitIsh<'_>,
) -> Result<(), Fault>
    requires held { HoldsFiles N.digest_of objects.now (state_shown state.old) }
    ensures done { (out : List ℕ) (committed : ℕ) → AreHeld N.digest_of objects.now
        → CarriesOut (ref_set (ResetFrom (commit_shown from.now))
        (workspace_over (state_shown state.old) objects.now committed refs.now))
        (workspace_over (state_shown state.new) objects.now committed refs.now) out out result }
    ensures held { OnOk result (HoldsFiles N.digest_of objects.now (state_shown state.new)) }
{
    let branch = match state.command.take() {
        OpenCommand::Reset(branch) => branch,
        other => return Err(other.refusal()),
    };
    let tip = tip_from(objects, refs, state, &branch, from)?;
    state.branches.place(branch, tip)?;
    Ok(())
}

// 'alias': the mark is set to the commit.
#[tactic(auto, unfolding(crate::specs::Refs::ref_set))]
fn alias<N: Naming>(
    objects: &Objects<'_, N>,
    refs: &Refs,
    state: &mut StreamState,
    mark: Mark,
    commit: &CommitIsh<'_>,
) -> Result<(), Fault>
    requires held { HoldsFiles N.digest_of objects.now (state_shown state.old) }
    ensures done { (out : List ℕ) (committed : ℕ) → AreHeld N.digest_of objects.now
        → CarriesOut (ref_set (Alias mark (commit_shown commit.now))
        (workspace_over (state_shown state.old) objects.now committed refs.now))
        (workspace_over (state_shown state.new) objects.now committed refs.now) out out result }
    ensures held { OnOk result (HoldsFiles N.digest_of objects.now (state_shown state.new)) }
{
    let id = commit_named(objects, refs, state, commit)?;
    marks::make_room(&mut state.marks, &Some(mark))?;
    marks::set(&mut state.marks, Some(mark), Kind::Commit, id);
    Ok(())
}

/// Carries out a line of a reset or of an alias: git-fast-import(1), "reset" and "alias".
///
/// `reset`: `Fault::Limit` (25) if there would be more than 262,144 branches. Its `from` is refused
/// as by `start_of`, unless it is forty zeros. `alias` is refused as by `commit_named`, and then
/// with `Fault::Limit` (25) if there would be more than 4,194,304 marks. `Fault::Memory` (90) if an
/// allocation fails. `Fault::Text` (2) if no reset is open; the parser lets no such line through.
/// Objects and refs stay in any case.
pub fn carry_out_ref<N: Naming>(
    objects: &Objects<'_, N>,
    refs: &Refs,
    state: &mut StreamState,
    command: &RefCommand<'_>,
) -> Result<(), Fault>
    requires held { HoldsFiles N.digest_of objects.now (state_shown state.old) }
    ensures done { (out : List ℕ) (committed : ℕ) → AreHeld N.digest_of objects.now
        → CarriesOut (ref_set (ref_command_shown command.now)
        (workspace_over (state_shown state.old) objects.now committed refs.now))
        (workspace_over (state_shown state.new) objects.now committed refs.now) out out result }
    ensures held { OnOk result (HoldsFiles N.digest_of objects.now (state_shown state.new)) }
{
    match command {
        RefCommand::Reset(ref_name) => reset(state, refs, ref_name),
        RefCommand::ResetFrom(from) => reset_to(objects, refs, state, from),
        RefCommand::Alias { mark, commit } => alias(objects, refs, state, *mark, commit),
    }
}
