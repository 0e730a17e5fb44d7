//! The lines of a commit up to its changes: git-fast-import(1), "commit".

ghost use Rattle.std.specs.Prelude.{◌≡◌, List, ℕ, OnOk};
ghost use Rattle.content_pool.specs.Pool.{Cells};
ghost use Rattle.git_model.specs.HeldObjects.{AreHeld};
ghost use Rattle.tenant_tables.specs.{Objects.{objects}, IsBackedBy.{IsBackedBy}, View.{View}};
ghost use Rattle.stream_grammar.specs.Acts.{Begin, Author, Committer, Encoding, From, Merge};
ghost use Rattle.stream_grammar.specs.Shown.{commit_command_shown, commit_shown as said_shown};
ghost use Rattle.open_commits.specs.OpenCommit.{shown_in, IsCommitHeld};
ghost use Rattle.import_session.specs.Commits.{commit_merged, commit_said, commit_started};
ghost use Rattle.import_session.specs.{Sound.{IsSound}, Session.{Leaves}};
ghost use Rattle.stream_commands.specs.Held.{ChainStands, FilesStand, HoldsFiles, KeepsBranchFiles};
ghost use Rattle.stream_commands.specs.State.{state_shown, workspace_in, workspace_over};
ghost use Rattle.stream_commands.specs.State.{CarriesOut};

use crate::opening::open_commit;
use content_pool::Pool;
use git_objects::Naming;
use open_commits::OpenCommit;
use stream_commands::commit_ishes::{commit_named, start_of};
use stream_commands::fault::passed_on;
use stream_commands::open_command::{OpenCommand, not_open};
use stream_commands::state::{StreamState, keep_open};
use stream_grammar::{CommitCommand, CommitIsh, Ident};
use stream_parts::branches::copy_meant;
use stream_parts::fault::Fault;
use stream_parts::headers::{CommitHeader, set_encoding, set_ident};
use tenant_refs::{RefName, Refs};
use tenant_tables::{Objects, Sight, Table};

// 'commit'.
#[tactic(auto, unfolding(crate::specs::Commits::commit_said))]
fn begin_commit(state: &mut StreamState, refs: &Refs, ref_name: &RefName) -> Result<(), Fault>
    ensures done { (pool : Cells) (table : View) (out : List ℕ) → CarriesOut
        (commit_said (Begin ref_name.now)
        (workspace_in (state_shown state.old) pool table refs.now))
        (workspace_in (state_shown state.new) pool table refs.now) out out result }
    ensures files { KeepsBranchFiles (state_shown state.old) (state_shown state.new) }
{
    let branch = copy_meant(state.alloc, &state.head, refs, ref_name)?;
    state
        .command
        .open(OpenCommand::Commit(CommitHeader::new(branch)));
    Ok(())
}

// 'author'.
#[tactic(auto, unfolding(crate::specs::Commits::commit_said))]
fn say_author(state: &mut StreamState, refs: &Refs, ident: &Ident) -> Result<(), Fault>
    ensures done { (pool : Cells) (table : View) (out : List ℕ) → CarriesOut
        (commit_said (Author ident.now)
        (workspace_in (state_shown state.old) pool table refs.now))
        (workspace_in (state_shown state.new) pool table refs.now) out out result }
    ensures files { KeepsBranchFiles (state_shown state.old) (state_shown state.new) }
{
    match &mut state.command {
        OpenCommand::Commit(header) => set_ident(state.alloc, ident, &mut header.author),
        _ => Err(not_open()),
    }
}

// 'committer'.
#[tactic(auto, unfolding(crate::specs::Commits::commit_said))]
fn say_committer(state: &mut StreamState, refs: &Refs, ident: &Ident) -> Result<(), Fault>
    ensures done { (pool : Cells) (table : View) (out : List ℕ) → CarriesOut
        (commit_said (Committer ident.now)
        (workspace_in (state_shown state.old) pool table refs.now))
        (workspace_in (state_shown state.new) pool table refs.now) out out result }
    ensures files { KeepsBranchFiles (state_shown state.old) (state_shown state.new) }
{
    match &mut state.command {
        OpenCommand::Commit(header) => set_ident(state.alloc, ident, &mut header.committer),
        _ => Err(not_open()),
    }
}

// 'encoding'.
#[tactic(auto, unfolding(crate::specs::Commits::commit_said))]
fn say_encoding(state: &mut StreamState, refs: &Refs, encoding: &[u8]) -> Result<(), Fault>
    ensures done { (pool : Cells) (table : View) (out : List ℕ) → CarriesOut
        (commit_said (Encoding encoding.now)
        (workspace_in (state_shown state.old) pool table refs.now))
        (workspace_in (state_shown state.new) pool table refs.now) out out result }
    ensures files { KeepsBranchFiles (state_shown state.old) (state_shown state.new) }
{
    match &mut state.command {
        OpenCommand::Commit(header) => set_encoding(state.alloc, encoding, &mut header.encoding),
        _ => Err(not_open()),
    }
}

// 'from': the commit starts from another one.
fn start_from<N: Naming>(
    pool: &Pool<N>,
    table: &Table,
    refs: &Refs,
    state: &mut StreamState,
    commit: &mut OpenCommit,
    from: &CommitIsh<'_>,
) -> Result<(), Fault>
    requires stands { IsBackedBy N.digest_of pool.now table.now.entries }
    requires held { IsCommitHeld (objects pool.now table.now.entries) commit.old }
    requires chain { ChainStands N.digest_of (objects pool.now table.now.entries) state.old.chain }
    ensures done { let workspace = workspace_in (state_shown state.old) pool.now table.now refs.now
        in
        AreHeld N.digest_of workspace.objects → Leaves
        (commit_started workspace (said_shown from.now)
        (shown_in workspace.objects commit.old))
        (shown_in workspace.objects commit.new) result }
    ensures held { OnOk result (IsCommitHeld (objects pool.now table.now.entries) commit.new) }
    ensures same { state_shown state.new
        ≡ record (state_shown state.old) { chain = state.new.chain } }
    ensures chain { ChainStands N.digest_of (objects pool.now table.now.entries) state.new.chain }
{
    let objects = Objects::of(pool, table, Sight::All);
    let id = start_of(&objects, refs, state, &commit.header.ref_name, from)?;
    passed_on(commit.start_from(pool, table, id))
}

// 'merge': the commit merges another one.
fn merge<N: Naming>(
    objects: &Objects<'_, N>,
    refs: &Refs,
    state: &mut StreamState,
    commit: &mut OpenCommit,
    other: &CommitIsh<'_>,
) -> Result<(), Fault>
    requires held { IsCommitHeld objects.now commit.old }
    requires chain { ChainStands N.digest_of objects.now state.old.chain }
    ensures done { (committed : ℕ) → AreHeld N.digest_of objects.now → Leaves
        (commit_merged (workspace_over (state_shown state.old) objects.now committed refs.now)
        (said_shown other.now) (shown_in objects.now commit.old))
        (shown_in objects.now commit.new) result }
    ensures held { OnOk result (IsCommitHeld objects.now commit.new) }
    ensures same { state_shown state.new
        ≡ record (state_shown state.old) { chain = state.new.chain } }
    ensures chain { ChainStands N.digest_of objects.now state.new.chain }
{
    let id = commit_named(objects, refs, state, other)?;
    passed_on(commit.merge(id))
}

// Starts the open commit from another one.
#[tactic(auto, unfolding(crate::specs::Commits::commit_said))]
fn start_open<N: Naming>(
    pool: &Pool<N>,
    table: &Table,
    refs: &Refs,
    state: &mut StreamState,
    from: &CommitIsh<'_>,
) -> Result<(), Fault>
    requires stands { IsBackedBy N.digest_of pool.now table.now.entries }
    requires held { FilesStand N.digest_of (state_shown state.old) pool.now table.now }
    ensures done { (out : List ℕ) → AreHeld N.digest_of (objects pool.now table.now.entries)
        → CarriesOut (commit_said (From (said_shown from.now))
        (workspace_in (state_shown state.old) pool.now table.now refs.now))
        (workspace_in (state_shown state.new) pool.now table.now refs.now) out out result }
    ensures held { OnOk result (FilesStand N.digest_of (state_shown state.new) pool.now table.now) }
{
    let mut commit = state.command.take_changes()?;
    let changed = start_from(pool, table, refs, state, &mut commit, from);
    keep_open(state, commit);
    changed
}

// Merges another commit into the open one.
#[tactic(auto, unfolding(crate::specs::Commits::commit_said))]
fn merge_open<N: Naming>(
    objects: &Objects<'_, N>,
    refs: &Refs,
    state: &mut StreamState,
    other: &CommitIsh<'_>,
) -> Result<(), Fault>
    requires held { HoldsFiles N.digest_of objects.now (state_shown state.old) }
    ensures done { (out : List ℕ) (committed : ℕ) → AreHeld N.digest_of objects.now
        → CarriesOut (commit_said (Merge (said_shown other.now))
        (workspace_over (state_shown state.old) objects.now committed refs.now))
        (workspace_over (state_shown state.new) objects.now committed refs.now) out out result }
    ensures held { OnOk result (HoldsFiles N.digest_of objects.now (state_shown state.new)) }
{
    let mut commit = state.command.take_changes()?;
    let changed = merge(objects, refs, state, &mut commit, other);
    keep_open(state, commit);
    changed
}

// Carries out a line of a commit, up to its changes.
pub fn carry_out_commit<N: Naming>(
    pool: &Pool<N>,
    table: &Table,
    refs: &Refs,
    state: &mut StreamState,
    command: &CommitCommand<'_>,
) -> Result<(), Fault>
    requires stands { IsBackedBy N.digest_of pool.now table.now.entries }
    requires held { FilesStand N.digest_of (state_shown state.old) pool.now table.now }
    ensures done { (out : List ℕ) → IsSound N.digest_of
        (workspace_in (state_shown state.old) pool.now table.now refs.now) → CarriesOut
        (commit_said (commit_command_shown command.now)
        (workspace_in (state_shown state.old) pool.now table.now refs.now))
        (workspace_in (state_shown state.new) pool.now table.now refs.now) out out result }
    ensures held { OnOk result (FilesStand N.digest_of (state_shown state.new) pool.now table.now) }
{
    match command {
        CommitCommand::Begin(ref_name) => begin_commit(state, refs, ref_name),
        CommitCommand::Author(ident) => say_author(state, refs, ident),
        CommitCommand::Committer(ident) => say_committer(state, refs, ident),
        CommitCommand::Encoding(encoding) => say_encoding(state, refs, encoding),
        CommitCommand::Message { mark, message } => {
            open_commit(pool, table, refs, state, *mark, message)
        }
        CommitCommand::From(from) => start_open(pool, table, refs, state, from),
        CommitCommand::Merge(other) => {
            merge_open(&Objects::of(pool, table, Sight::All), refs, state, other)
        }
    }
}
