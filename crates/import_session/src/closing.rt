//! How a commit ends: git-fast-import(1), "commit".

ghost use Rattle.std.specs.Prelude.{◌≡◌, ◌≢◌, List, Ok, Err, MatchResult, OnOk};
ghost use Rattle.git_model.specs.{RefStore.{RefStore}, Repository.{Object}};
ghost use Rattle.tenant_tables.specs.{Objects.{objects}, Room.{HasHoldsLeftBeside}};
ghost use Rattle.tenant_tables.specs.IsBackedBy.{IsBackedBy};
ghost use Rattle.kept_files.specs.KeptCommits.{AreBranches};
ghost use Rattle.open_commits.specs.OpenCommit.{shown_in, IsCommitHeld};
ghost use Rattle.stream_parts.specs.OpenCommand.{Nothing};
ghost use Rattle.stream_commands.specs.{Lent.{Keeps}, State.{KeepsCommitted}};
ghost use Rattle.stream_commands.specs.State.{command_shown, state_shown, workspace_in};
ghost use Rattle.stream_commands.specs.Held.{ChainStands, FilesStand};
ghost use Rattle.import_session.specs.Commits.{closed_where, commit_closed, open_closed};
ghost use Rattle.import_session.specs.Session.{Leaves};

use content_pool::Pool;
use git_objects::{Kind, Name, Naming};
use kept_files::KeptFiles;
use open_commits::OpenCommit;
use stream_commands::fault::fault_of;
use stream_commands::open_command::OpenCommand;
use stream_commands::state::StreamState;
use stream_parts::branches::Tip;
use stream_parts::fault::Fault;
use stream_parts::marks;
use tenant_tables::Table;

// Ends a commit, which is no longer the open one, and returns its name.
fn close_commit<N: Naming>(
    pool: &mut Pool<N>,
    table: &mut Table,
    state: &mut StreamState,
    commit: &mut OpenCommit,
) -> Result<Name, Fault>
    requires stands { IsBackedBy N.digest_of pool.old table.old.entries }
    requires room { HasHoldsLeftBeside pool.old table.old.entries }
    requires none { command_shown state.old.command ≡ Nothing }
    requires held { IsCommitHeld (objects pool.old table.old.entries) commit.old }
    ensures keeps { Keeps N.digest_of pool.old table.old pool.new table.new }
    ensures room { HasHoldsLeftBeside pool.new table.new.entries }
    ensures done { (refs : RefStore) → let wanted = commit_closed N.digest_of
        (workspace_in (state_shown state.old) pool.old table.old refs)
        (shown_in (objects pool.old table.old.entries) commit.old) in MatchResult result
        (λ _. wanted ≡ Ok (workspace_in (state_shown state.new) pool.new table.new refs))
        (λ fault. fault ≢ Fault.Memory → wanted ≡ Err fault) }
    ensures nothing { command_shown state.new.command ≡ Nothing }
    ensures kept { AreBranches (objects pool.old table.old.entries) state.old.kept
        → AreBranches (objects pool.new table.new.entries) state.new.kept }
    ensures chain { ChainStands N.digest_of (objects pool.old table.old.entries) state.old.chain
        → ChainStands N.digest_of (objects pool.new table.new.entries) state.new.chain }
    ensures held { OnOk result (IsCommitHeld (objects pool.new table.new.entries) commit.new) }
    ensures committed { KeepsCommitted pool.old table.old pool.new table.new }
{
    let _within = table.committed_len();
    let mark = commit.header.mark;
    marks::make_room(&mut state.marks, &mark)?;
    let branch = commit.header.ref_name.try_clone(state.alloc)?;
    let id = match commit.close(pool, table) {
        Ok(id) => id,
        Err(refusal) => {
            drop(branch);
            return Err(fault_of(refusal));
        }
    };
    marks::set(&mut state.marks, mark, Kind::Commit, id);
    state.branches.place(branch, Tip::At(id))?;
    Ok(id)
}

// Keeps the files of a commit that ended under its name. One that was refused is dropped.
fn keep_files(
    kept: &mut KeptFiles,
    commit: OpenCommit,
    closed: Result<Name, Fault>,
) -> Result<(), Fault>
    ensures answer { MatchResult closed (λ _. result ≡ Ok tt) (λ fault. result ≡ Err fault) }
    ensures branches { (os : List Object) → AreBranches os kept.old
        → OnOk closed (IsCommitHeld os commit) → AreBranches os kept.new }
{
    match closed {
        Ok(id) => {
            kept.keep(id, commit.into_files());
            Ok(())
        }
        Err(fault) => {
            drop(commit);
            Err(fault)
        }
    }
}

// Ends the open commit, if there is one, and keeps its files for commits that start from it.
fn close<N: Naming>(
    pool: &mut Pool<N>,
    table: &mut Table,
    state: &mut StreamState,
) -> Result<(), Fault>
    requires stands { IsBackedBy N.digest_of pool.old table.old.entries }
    requires room { HasHoldsLeftBeside pool.old table.old.entries }
    requires held { FilesStand N.digest_of (state_shown state.old) pool.old table.old }
    ensures keeps { Keeps N.digest_of pool.old table.old pool.new table.new }
    ensures room { HasHoldsLeftBeside pool.new table.new.entries }
    ensures done { (refs : RefStore) → Leaves
        (let old = workspace_in (state_shown state.old) pool.old table.old refs in
        open_closed N.digest_of old old.stream.command)
        (workspace_in (state_shown state.new) pool.new table.new refs) result }
    ensures committed { KeepsCommitted pool.old table.old pool.new table.new }
    ensures held { OnOk result (FilesStand N.digest_of (state_shown state.new) pool.new table.new) }
{
    match state.command.take() {
        OpenCommand::Changes(mut commit) => {
            let closed = close_commit(pool, table, state, &mut commit);
            keep_files(&mut state.kept, commit, closed)
        }
        other => {
            state.command.open(other);
            Ok(())
        }
    }
}

/// Ends the open commit if the item ends it (`ends`): stores its trees, children first, and then
/// the commit itself, sets its mark, and moves its branch to it: git-fast-import(1), "commit".
///
/// `Fault::Limit` (25) if there would be more than 4,194,304 marks, which is judged first. Then,
/// object by object, `Fault::Limit` (25) if the contents are too long or the table is full, else
/// `Fault::NameCollision` (24) if the table has another object of the name. `Fault::Memory` (90) if
/// an allocation fails. The objects up to the last checkpoint stay in any case.
pub fn close_where<N: Naming>(
    ends: bool,
    pool: &mut Pool<N>,
    table: &mut Table,
    state: &mut StreamState,
) -> Result<(), Fault>
    requires stands { IsBackedBy N.digest_of pool.old table.old.entries }
    requires room { HasHoldsLeftBeside pool.old table.old.entries }
    requires held { FilesStand N.digest_of (state_shown state.old) pool.old table.old }
    ensures keeps { Keeps N.digest_of pool.old table.old pool.new table.new }
    ensures room { HasHoldsLeftBeside pool.new table.new.entries }
    ensures done { (refs : RefStore) → Leaves (closed_where N.digest_of ends
        (workspace_in (state_shown state.old) pool.old table.old refs))
        (workspace_in (state_shown state.new) pool.new table.new refs) result }
    ensures committed { KeepsCommitted pool.old table.old pool.new table.new }
    ensures held { OnOk result (FilesStand N.digest_of (state_shown state.new) pool.new table.new) }
{
    if !ends {
        return Ok(());
    }
    close(pool, table, state)
}
