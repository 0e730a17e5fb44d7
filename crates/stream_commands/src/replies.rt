//! What is printed: git-fast-import(1), "get-mark", "cat-blob", "ls" and "progress".

ghost use Rattle.std.specs.Prelude.{◌≡◌, OnErr, OnOk};
ghost use Rattle.git_model.specs.{HeldObjects.{AreHeld}, RefStore.{RefStore}};
ghost use Rattle.tenant_tables.specs.{Objects.{objects}, Room.{HasHoldsLeftBeside}};
ghost use Rattle.tenant_tables.specs.IsBackedBy.{IsBackedBy};
ghost use Rattle.stream_grammar.specs.{Acts.{LsInCommit}, Shown.{reply_shown}};
ghost use Rattle.stream_commands.specs.{Replies.{replied}, Lent.{Keeps}, Held.{FilesStand}};
ghost use Rattle.stream_commands.specs.State.{state_shown, workspace_in, CarriesOut};
ghost use Rattle.stream_commands.specs.State.{KeepsCommitted};

use crate::fault::fault_of;
use crate::open_command::{OpenCommand, not_open};
use crate::print::print_entry;
use crate::state::StreamState;
use content_pool::Pool;
use git_objects::Naming;
use git_paths::Path;
use stream_grammar::ReplyCommand;
use stream_parts::entries::print_stored;
use stream_parts::fault::Fault;
use stream_parts::objects::{print_marked, print_referred};
use stream_parts::print::print_line;
use tenant_tables::{Objects, Sight, Table};

// 'ls' with a path alone: prints what is at the path in the open commit.
#[tactic(auto, unfolding(crate::specs::Replies::replied))]
fn show_entry<N: Naming>(
    pool: &mut Pool<N>,
    table: &mut Table,
    state: &mut StreamState,
    path: &Path,
    out: &mut Vec<u8>,
) -> Result<(), Fault>
    requires stands { IsBackedBy N.digest_of pool.old table.old.entries }
    requires room { HasHoldsLeftBeside pool.old table.old.entries }
    requires held { FilesStand N.digest_of (state_shown state.old) pool.old table.old }
    ensures keeps { Keeps N.digest_of pool.old table.old pool.new table.new }
    ensures done { (refs : RefStore) → CarriesOut
        (replied N.digest_of (LsInCommit path.now)
        (workspace_in (state_shown state.old) pool.old table.old refs))
        (workspace_in (state_shown state.new) pool.new table.new refs)
        out.old.items out.new.items result }
    ensures committed { KeepsCommitted pool.old table.old pool.new table.new }
    ensures printed { OnErr result (out.new.items ≡ out.old.items) }
    ensures held { OnOk result (FilesStand N.digest_of (state_shown state.new) pool.new table.new) }
{
    let OpenCommand::Changes(commit) = &mut state.command else {
        return Err(not_open());
    };
    let _within = table.committed_len();
    let entry = match commit.show_entry(pool, table, path) {
        Ok(entry) => entry,
        Err(refusal) => return Err(fault_of(refusal)),
    };
    print_entry(path, entry, out)?;
    Ok(())
}

/// Carries out a command that prints, and appends what it prints to `out`: git-fast-import(1),
/// "get-mark", "cat-blob", "ls" and "progress".
///
/// `Fault::MarkUnknown` (13) if the mark is not set, `Fault::ObjectUnknown` (14) if `ls` names no
/// object, `Fault::WrongKind` (15) if `cat-blob` names no blob, or `ls` what is peeled to no tree.
/// `ls` in the open commit stores trees: `Fault::Limit` (25) if one is too long or the table is
/// full, `Fault::NameCollision` (24) if the tenant has another content of its name. `Fault::Memory`
/// (90) if an allocation fails. `Fault::Text` (2) if no commit is open; the parser lets no such
/// line through. After a refusal `out` is unchanged, and so are the objects up to the last
/// checkpoint.
#[tactic(auto, unfolding(crate::specs::Replies::replied))]
pub fn carry_out_reply<N: Naming>(
    pool: &mut Pool<N>,
    table: &mut Table,
    state: &mut StreamState,
    command: &ReplyCommand<'_>,
    out: &mut Vec<u8>,
) -> Result<(), Fault>
    requires stands { IsBackedBy N.digest_of pool.old table.old.entries }
    requires room { HasHoldsLeftBeside pool.old table.old.entries }
    requires held { FilesStand N.digest_of (state_shown state.old) pool.old table.old }
    ensures keeps { Keeps N.digest_of pool.old table.old pool.new table.new }
    ensures done { (refs : RefStore) → AreHeld N.digest_of (objects pool.old table.old.entries)
        → CarriesOut (replied N.digest_of (reply_shown command.now)
        (workspace_in (state_shown state.old) pool.old table.old refs))
        (workspace_in (state_shown state.new) pool.new table.new refs)
        out.old.items out.new.items result }
    ensures committed { KeepsCommitted pool.old table.old pool.new table.new }
    ensures printed { OnErr result (out.new.items ≡ out.old.items) }
    ensures held { OnOk result (FilesStand N.digest_of (state_shown state.new) pool.new table.new) }
{
    match command {
        ReplyCommand::GetMark(mark) => print_marked(&state.marks, *mark, out),
        ReplyCommand::CatBlob(object) => {
            let objects = Objects::of(pool, table, Sight::All);
            print_referred(&objects, &state.marks, *object, out)
        }
        ReplyCommand::Ls { root, path } => {
            let objects = Objects::of(pool, table, Sight::All);
            print_stored(state.alloc, &objects, &state.marks, *root, path, out)
        }
        ReplyCommand::LsInCommit(path) => show_entry(pool, table, state, path, out),
        ReplyCommand::Progress(line) => Ok(print_line(line, out)?),
    }
}
