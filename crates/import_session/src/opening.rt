//! How a commit opens, at its message: git-fast-import(1), "commit".

ghost use Rattle.std.specs.Prelude.{◌≡◌, ◌≢◌, List, ℕ, Ok, Err, IfOk, IfSome, OnOk, MatchResult};
ghost use Rattle.git_model.specs.{HeldObjects.{AreHeld}, RefStore.{RefStore}};
ghost use Rattle.git_model.specs.Repository.{Object};
ghost use Rattle.tenant_tables.specs.{Objects.{objects}, IsBackedBy.{IsBackedBy}};
ghost use Rattle.tree_build.specs.Branch.{IsBranch};
ghost use Rattle.kept_files.specs.KeptCommits.{AreBranches};
ghost use Rattle.stream_grammar.specs.Acts.{Message};
ghost use Rattle.open_commits.specs.OpenCommit.{begun, commit_held, header_shown, shown_in};
ghost use Rattle.open_commits.specs.OpenCommit.{IsCommitHeld};
ghost use Rattle.stream_parts.specs.Branches.{branch_set, tip_commit, tip_for};
ghost use Rattle.stream_parts.specs.OpenCommand.{Changes};
ghost use Rattle.stream_commands.specs.{Workspace.{quiet}, State.{CarriesOut}, Held.{FilesStand}};
ghost use Rattle.stream_commands.specs.State.{branched, state_shown, state_with, workspace_in};
ghost use Rattle.import_session.specs.Commits.{begun_from, commit_said, header_said};
ghost use Rattle.import_session.specs.Opening.{opened_with, started_or_cleared, IsTipCommit};
ghost use Rattle.import_session.specs.{Session.{Leaves}, Sound.{IsSound}};

use content_pool::Pool;
use git_objects::{Name, Naming};
use kept_files::KeptFiles;
use open_commits::{Header, OpenCommit};
use std::alloc::Global;
use stream_commands::fault::passed_on;
use stream_commands::open_command::{OpenCommand, not_open};
use stream_commands::state::{StreamState, keep_open};
use stream_grammar::Mark;
use stream_parts::branches::{tip_commit, tip_for};
use stream_parts::encoding::bytes_of;
use stream_parts::fault::Fault;
use stream_parts::headers::CommitHeader;
use tenant_refs::{RefName, Refs};
use tenant_tables::Table;
use tree_build::Files;

// The header that the lines before the message give. One of them must name a committer.
fn header_said(mark: Option<Mark>, said: CommitHeader) -> Result<Header, Fault>
    ensures { MatchResult result
        (λ header. header_said mark said ≡ Ok (header_shown header))
        (λ fault. header_said mark said ≡ Err fault) }
{
    let CommitHeader {
        ref_name,
        author,
        committer,
        encoding,
    } = said;
    let Some(committer) = committer else {
        return Err(not_open());
    };
    let encoding = bytes_of(encoding);
    Ok(Header {
        ref_name,
        mark,
        author,
        committer,
        encoding,
    })
}

// Takes the files that are kept for this commit, if it is one.
fn take_kept(kept: &mut KeptFiles, first: &Option<Name>) -> Option<Files>
    ensures { (os : List Object) → AreBranches os kept.old
        → AreBranches os kept.new × IfSome result (λ files. IsBranch os files) }
{
    match first {
        Some(id) => kept.take(id),
        None => None,
    }
}

// Takes the files that are kept for this commit, or no files if none are.
fn take_files(state: &mut StreamState, first: &Option<Name>) -> Files
    ensures branches { (os : List Object) → AreBranches os state.old.kept
        → AreBranches os state.new.kept × IsBranch os result }
    ensures state { state_shown state.new
        ≡ record (state_shown state.old) { kept = state.new.kept } }
{
    match take_kept(&mut state.kept, first) {
        Some(files) => files,
        None => Files::new(state.alloc),
    }
}

// Starts a new commit from the commit that its branch was at, or without files.
fn start<N: Naming>(
    pool: &Pool<N>,
    table: &Table,
    first: Option<Name>,
    commit: &mut OpenCommit,
) -> Result<(), Fault>
    requires stands { IsBackedBy N.digest_of pool.now table.now.entries }
    requires held { IsCommitHeld (objects pool.now table.now.entries) commit.old }
    ensures started { let os = objects pool.now table.now.entries in AreHeld N.digest_of os
        → IsTipCommit os first → Leaves (started_or_cleared os first (shown_in os commit.old))
        (shown_in os commit.new) result }
    ensures held { OnOk result (IsCommitHeld (objects pool.now table.now.entries) commit.new) }
{
    match first {
        Some(id) => passed_on(commit.start_from(pool, table, id)),
        None => {
            commit.delete_all();
            Ok(())
        }
    }
}

// Begins a commit whose first parent is the commit that its branch was at. Directories of that
// commit that are open in these files stay open.
fn begin<N: Naming>(
    pool: &Pool<N>,
    table: &Table,
    alloc: Global,
    header: Header,
    message: &[u8],
    first: Option<Name>,
    files: Files,
) -> Result<OpenCommit, Fault>
    requires stands { IsBackedBy N.digest_of pool.now table.now.entries }
    requires files { IsBranch (objects pool.now table.now.entries) files }
    ensures begun { let os = objects pool.now table.now.entries in AreHeld N.digest_of os
        → IsTipCommit os first → let new = begun (header_shown header) message.now in
        MatchResult result (λ commit. begun_from os first new ≡ Ok (shown_in os commit))
        (λ fault. fault ≢ Fault.Memory → begun_from os first new ≡ Err fault) }
    ensures held { IfOk result
        (λ commit. IsCommitHeld (objects pool.now table.now.entries) commit) }
{
    let mut commit = OpenCommit::begin(alloc, header, message, files)?;
    match start(pool, table, first, &mut commit) {
        Ok(()) => Ok(commit),
        Err(fault) => {
            drop(commit);
            Err(fault)
        }
    }
}

// Makes the branch one of the stream's, and returns the commit that it was at.
fn place_tip(state: &mut StreamState, ref_name: &RefName) -> Result<Option<Name>, Fault>
    ensures placed { let old = state_shown state.old in
        let first = tip_commit old.stream.branches ref_name.now in MatchResult result
        (λ stood. (stood ≡ first) × (state_shown state.new ≡ branched old state.new.branches)
        × (branch_set old.stream.branches ref_name.now (tip_for first) ≡ Ok state.new.branches))
        (λ fault. fault ≢ Fault.Memory
        → branch_set old.stream.branches ref_name.now (tip_for first) ≡ Err fault) }
{
    let first = tip_commit(&state.branches, ref_name);
    let branch = ref_name.try_clone(state.alloc)?;
    state.branches.set(branch, tip_for(&first))?;
    Ok(first)
}

// Opens a commit on a branch, and makes the branch one of the stream's.
fn open_with<N: Naming>(
    pool: &Pool<N>,
    table: &Table,
    state: &mut StreamState,
    header: Header,
    message: &[u8],
) -> Result<OpenCommit, Fault>
    requires stands { IsBackedBy N.digest_of pool.now table.now.entries }
    requires held { FilesStand N.digest_of (state_shown state.old) pool.now table.now }
    ensures opened { (refs : RefStore) → let old = state_shown state.old in
        let workspace = workspace_in old pool.now table.now refs in
        IsSound N.digest_of workspace → MatchResult result
        (λ commit. opened_with workspace message.now (header_shown header)
        ≡ quiet (workspace_in (state_with (branched old state.new.branches)
        (Changes (commit_held commit))) pool.now table.now refs))
        (λ fault. fault ≢ Fault.Memory
        → opened_with workspace message.now (header_shown header) ≡ Err fault) }
    ensures state { OnOk result (state_shown state.new
        ≡ record (branched (state_shown state.old) state.new.branches) { kept = state.new.kept }) }
    ensures kept { OnOk result (AreBranches (objects pool.now table.now.entries) state.new.kept) }
    ensures held { IfOk result
        (λ commit. IsCommitHeld (objects pool.now table.now.entries) commit) }
{
    let alloc = state.alloc;
    let first = match place_tip(state, &header.ref_name) {
        Ok(first) => first,
        Err(fault) => {
            drop(header);
            return Err(fault);
        }
    };
    let files = take_files(state, &first);
    begin(pool, table, alloc, header, message, first, files)
}

// Opens a commit, at its message.
#[tactic(auto, unfolding(crate::specs::Commits::commit_said))]
pub fn open_commit<N: Naming>(
    pool: &Pool<N>,
    table: &Table,
    refs: &Refs,
    state: &mut StreamState,
    mark: Option<Mark>,
    message: &[u8],
) -> Result<(), Fault>
    requires stands { IsBackedBy N.digest_of pool.now table.now.entries }
    requires held { FilesStand N.digest_of (state_shown state.old) pool.now table.now }
    ensures done { (out : List ℕ) → IsSound N.digest_of
        (workspace_in (state_shown state.old) pool.now table.now refs.now) → CarriesOut
        (commit_said (Message mark message.now)
        (workspace_in (state_shown state.old) pool.now table.now refs.now))
        (workspace_in (state_shown state.new) pool.now table.now refs.now) out out result }
    ensures held { OnOk result (FilesStand N.digest_of (state_shown state.new) pool.now table.now) }
{
    let said = match state.command.take() {
        OpenCommand::Commit(said) => said,
        other => return Err(other.refusal()),
    };
    let header = header_said(mark, said)?;
    let commit = open_with(pool, table, state, header, message)?;
    keep_open(state, commit);
    Ok(())
}
