//! What changes in the files of the open commit: git-fast-import(1), "filemodify" to
//! "filedeleteall".

ghost use Rattle.std.specs.Prelude.{List, ℕ, OnOk};
ghost use Rattle.content_pool.specs.Pool.{Cells};
ghost use Rattle.git_model.specs.RefStore.{RefStore};
ghost use Rattle.git_model.specs.Repository.{Object};
ghost use Rattle.tenant_tables.specs.{Objects.{objects}, Room.{HasHoldsLeftBeside}, View.{View}};
ghost use Rattle.tenant_tables.specs.IsBackedBy.{IsBackedBy};
ghost use Rattle.stream_grammar.specs.Acts.{Modify, ModifyInline, InlineData, Delete, Copy, Rename};
ghost use Rattle.stream_grammar.specs.{Acts.{DeleteAll}, Shown.{change_shown}};
ghost use Rattle.stream_commands.specs.{Lent.{Keeps}, State.{KeepsCommitted}};
ghost use Rattle.stream_commands.specs.State.{state_shown, workspace_in, CarriesOut};
ghost use Rattle.stream_commands.specs.Held.{FilesStand, HoldsFiles, KeepsBranchFiles};
ghost use Rattle.import_session.specs.Changes.{files_changed};

use content_pool::Pool;
use git_model::FileMode;
use git_objects::Naming;
use git_paths::Path;
use stream_commands::fault::passed_on;
use stream_commands::open_command::{OpenCommand, not_open};
use stream_commands::state::{StreamState, keep_open};
use stream_grammar::{DataRef, FileChange};
use stream_parts::fault::Fault;
use stream_parts::headers::InlineFile;
use tenant_tables::Table;

// 'M'.
#[tactic(auto, unfolding(crate::specs::Changes::files_changed))]
fn modify<N: Naming>(
    pool: &Pool<N>,
    table: &Table,
    state: &mut StreamState,
    mode: FileMode,
    object: DataRef,
    path: &Path,
) -> Result<(), Fault>
    requires stands { IsBackedBy N.digest_of pool.now table.now.entries }
    requires held { FilesStand N.digest_of (state_shown state.old) pool.now table.now }
    ensures done { (refs : RefStore) (out : List ℕ) → CarriesOut
        (files_changed N.digest_of (Modify mode object path.now)
        (workspace_in (state_shown state.old) pool.now table.now refs))
        (workspace_in (state_shown state.new) pool.now table.now refs) out out result }
    ensures held { OnOk result (FilesStand N.digest_of (state_shown state.new) pool.now table.now) }
{
    let OpenCommand::Changes(commit) = &mut state.command else {
        return Err(not_open());
    };
    passed_on(commit.modify(pool, table, &state.marks, mode, object, path))
}

// 'M' with 'inline': the next data is the contents of this file.
#[tactic(auto, unfolding(crate::specs::Changes::files_changed))]
fn await_contents(state: &mut StreamState, mode: FileMode, path: &Path) -> Result<(), Fault>
    ensures done { (digest : List ℕ → List ℕ) (pool : Cells) (table : View)
        (refs : RefStore) (out : List ℕ) → CarriesOut
        (files_changed digest (ModifyInline mode path.now)
        (workspace_in (state_shown state.old) pool table refs))
        (workspace_in (state_shown state.new) pool table refs) out out result }
    ensures files { KeepsBranchFiles (state_shown state.old) (state_shown state.new) }
{
    let path = path.copied(state.alloc)?;
    let commit = state.command.take_changes()?;
    state
        .command
        .open(OpenCommand::Inline(commit, InlineFile { mode, path }));
    Ok(())
}

// 'data' of an 'inline' file: puts the file that the line before named.
#[tactic(auto, unfolding(crate::specs::Changes::files_changed))]
fn put_contents<N: Naming>(
    pool: &mut Pool<N>,
    table: &mut Table,
    state: &mut StreamState,
    bytes: &[u8],
) -> Result<(), Fault>
    requires stands { IsBackedBy N.digest_of pool.old table.old.entries }
    requires room { HasHoldsLeftBeside pool.old table.old.entries }
    requires held { FilesStand N.digest_of (state_shown state.old) pool.old table.old }
    ensures keeps { Keeps N.digest_of pool.old table.old pool.new table.new }
    ensures done { (refs : RefStore) (out : List ℕ) → CarriesOut
        (files_changed N.digest_of (InlineData bytes.now)
        (workspace_in (state_shown state.old) pool.old table.old refs))
        (workspace_in (state_shown state.new) pool.new table.new refs) out out result }
    ensures committed { KeepsCommitted pool.old table.old pool.new table.new }
    ensures held { OnOk result (FilesStand N.digest_of (state_shown state.new) pool.new table.new) }
{
    let (mut commit, file) = match state.command.take() {
        OpenCommand::Inline(commit, file) => (commit, file),
        other => return Err(other.refusal()),
    };
    let _within = table.committed_len();
    let put = passed_on(commit.put_contents(pool, table, file.mode, &file.path, bytes));
    keep_open(state, commit);
    put
}

// 'D'.
#[tactic(auto, unfolding(crate::specs::Changes::files_changed))]
fn delete<N: Naming>(
    pool: &Pool<N>,
    table: &Table,
    state: &mut StreamState,
    path: &Path,
) -> Result<(), Fault>
    requires stands { IsBackedBy N.digest_of pool.now table.now.entries }
    requires held { FilesStand N.digest_of (state_shown state.old) pool.now table.now }
    ensures done { (refs : RefStore) (out : List ℕ) → CarriesOut
        (files_changed N.digest_of (Delete path.now)
        (workspace_in (state_shown state.old) pool.now table.now refs))
        (workspace_in (state_shown state.new) pool.now table.now refs) out out result }
    ensures held { OnOk result (FilesStand N.digest_of (state_shown state.new) pool.now table.now) }
{
    let OpenCommand::Changes(commit) = &mut state.command else {
        return Err(not_open());
    };
    passed_on(commit.delete(pool, table, path))
}

// 'C'.
#[tactic(auto, unfolding(crate::specs::Changes::files_changed))]
fn copy<N: Naming>(
    pool: &Pool<N>,
    table: &Table,
    state: &mut StreamState,
    source: &Path,
    path: &Path,
) -> Result<(), Fault>
    requires stands { IsBackedBy N.digest_of pool.now table.now.entries }
    requires held { FilesStand N.digest_of (state_shown state.old) pool.now table.now }
    ensures done { (refs : RefStore) (out : List ℕ) → CarriesOut
        (files_changed N.digest_of (Copy source.now path.now)
        (workspace_in (state_shown state.old) pool.now table.now refs))
        (workspace_in (state_shown state.new) pool.now table.now refs) out out result }
    ensures held { OnOk result (FilesStand N.digest_of (state_shown state.new) pool.now table.now) }
{
    let OpenCommand::Changes(commit) = &mut state.command else {
        return Err(not_open());
    };
    passed_on(commit.copy(pool, table, source, path))
}

// 'R'.
#[tactic(auto, unfolding(crate::specs::Changes::files_changed))]
fn rename<N: Naming>(
    pool: &Pool<N>,
    table: &Table,
    state: &mut StreamState,
    source: &Path,
    path: &Path,
) -> Result<(), Fault>
    requires stands { IsBackedBy N.digest_of pool.now table.now.entries }
    requires held { FilesStand N.digest_of (state_shown state.old) pool.now table.now }
    ensures done { (refs : RefStore) (out : List ℕ) → CarriesOut
        (files_changed N.digest_of (Rename source.now path.now)
        (workspace_in (state_shown state.old) pool.now table.now refs))
        (workspace_in (state_shown state.new) pool.now table.now refs) out out result }
    ensures held { OnOk result (FilesStand N.digest_of (state_shown state.new) pool.now table.now) }
{
    let OpenCommand::Changes(commit) = &mut state.command else {
        return Err(not_open());
    };
    passed_on(commit.rename(pool, table, source, path))
}

// 'deleteall'.
#[tactic(auto, unfolding(crate::specs::Changes::files_changed))]
fn delete_all(state: &mut StreamState) -> Result<(), Fault>
    ensures done { (digest : List ℕ → List ℕ) (pool : Cells) (table : View) (refs : RefStore)
        (out : List ℕ) → CarriesOut
        (files_changed digest DeleteAll (workspace_in (state_shown state.old) pool table refs))
        (workspace_in (state_shown state.new) pool table refs) out out result }
    ensures held { (digest : List ℕ → List ℕ) (os : List Object)
        → HoldsFiles digest os (state_shown state.old)
        → OnOk result (HoldsFiles digest os (state_shown state.new)) }
{
    let OpenCommand::Changes(commit) = &mut state.command else {
        return Err(not_open());
    };
    commit.delete_all();
    Ok(())
}

// Carries out a change of files.
pub fn carry_out_change<N: Naming>(
    pool: &mut Pool<N>,
    table: &mut Table,
    state: &mut StreamState,
    change: &FileChange<'_>,
) -> Result<(), Fault>
    requires stands { IsBackedBy N.digest_of pool.old table.old.entries }
    requires room { HasHoldsLeftBeside pool.old table.old.entries }
    requires held { FilesStand N.digest_of (state_shown state.old) pool.old table.old }
    ensures keeps { Keeps N.digest_of pool.old table.old pool.new table.new }
    ensures done { (refs : RefStore) (out : List ℕ) → CarriesOut
        (files_changed N.digest_of (change_shown change.now)
        (workspace_in (state_shown state.old) pool.old table.old refs))
        (workspace_in (state_shown state.new) pool.new table.new refs) out out result }
    ensures committed { KeepsCommitted pool.old table.old pool.new table.new }
    ensures held { OnOk result (FilesStand N.digest_of (state_shown state.new) pool.new table.new) }
{
    match change {
        FileChange::Modify { mode, object, path } => {
            modify(pool, table, state, *mode, *object, path)
        }
        FileChange::ModifyInline { mode, path } => await_contents(state, *mode, path),
        FileChange::InlineData(bytes) => put_contents(pool, table, state, bytes),
        FileChange::Delete(path) => delete(pool, table, state, path),
        FileChange::Copy { source, path } => copy(pool, table, state, source, path),
        FileChange::Rename { source, path } => rename(pool, table, state, source, path),
        FileChange::DeleteAll => delete_all(state),
    }
}
