//! What the acts of a stream do: git-fast-import(1), "Commands". Each group of commands is a file.

ghost use Rattle.std.specs.Prelude.{◌≡◌, OnErr, OnOk};
ghost use Rattle.tenant_tables.specs.{Room.{HasHoldsLeftBeside}, IsBackedBy.{IsBackedBy}};
ghost use Rattle.stream_grammar.specs.Shown.{act_shown};
ghost use Rattle.import_session.specs.{Meaning.{after_act}, Sound.{IsSound}};
ghost use Rattle.stream_commands.specs.{Lent.{Keeps}, Held.{FilesStand}, State.{KeepsCommitted}};
ghost use Rattle.stream_commands.specs.State.{state_shown, workspace_in, CarriesOut};

use crate::changes::carry_out_change;
use crate::commits::carry_out_commit;
use content_pool::Pool;
use git_objects::Naming;
use stream_commands::controls::carry_out_control;
use stream_commands::objects::carry_out_object;
use stream_commands::refs::carry_out_ref;
use stream_commands::replies::carry_out_reply;
use stream_commands::state::StreamState;
use stream_grammar::Act;
use stream_parts::fault::Fault;
use tenant_refs::Refs;
use tenant_tables::{Objects, Sight, Table};

// Carries out an act, and appends what it prints to `out`. If the act is refused, the objects up to
// the last checkpoint stay.
#[tactic(auto, unfolding(crate::specs::Meaning::after_act))]
pub fn carry_out<N: Naming>(
    pool: &mut Pool<N>,
    table: &mut Table,
    refs: &mut Refs,
    state: &mut StreamState,
    act: &Act<'_>,
    out: &mut Vec<u8>,
) -> Result<(), Fault>
    requires stands { IsBackedBy N.digest_of pool.old table.old.entries }
    requires room { HasHoldsLeftBeside pool.old table.old.entries }
    requires held { FilesStand N.digest_of (state_shown state.old) pool.old table.old }
    ensures keeps { Keeps N.digest_of pool.old table.old pool.new table.new }
    ensures done { IsSound N.digest_of
        (workspace_in (state_shown state.old) pool.old table.old refs.old) → CarriesOut
        (after_act N.digest_of (act_shown act.now)
        (workspace_in (state_shown state.old) pool.old table.old refs.old))
        (workspace_in (state_shown state.new) pool.new table.new refs.new)
        out.old.items out.new.items result }
    ensures committed { OnErr result (KeepsCommitted pool.old table.old pool.new table.new) }
    ensures refs { OnErr result (refs.new ≡ refs.old) }
    ensures printed { OnErr result (out.new.items ≡ out.old.items) }
    ensures held { OnOk result (FilesStand N.digest_of (state_shown state.new) pool.new table.new) }
{
    match act {
        Act::Wait => Ok(()),
        Act::Object(command) => carry_out_object(pool, table, refs, state, command),
        Act::Commit(command) => carry_out_commit(pool, table, refs, state, command),
        Act::Change(change) => carry_out_change(pool, table, state, change),
        Act::Ref(command) => {
            carry_out_ref(&Objects::of(pool, table, Sight::All), refs, state, command)
        }
        Act::Reply(command) => carry_out_reply(pool, table, state, command, out),
        Act::Control(command) => carry_out_control(pool, table, refs, state, command, out),
    }
}
