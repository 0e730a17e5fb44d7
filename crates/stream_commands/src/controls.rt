//! The stream itself: git-fast-import(1), "checkpoint", "done", "feature" and "option".

ghost use Rattle.std.specs.Prelude.{◌≡◌, List, ℕ, OnErr};
ghost use Rattle.content_pool.specs.Pool.{Cells};
ghost use Rattle.git_model.specs.HeldObjects.{AreHeld};
ghost use Rattle.tenant_tables.specs.{Objects.{objects}, IsBackedBy.{IsBackedBy}, View.{View}};
ghost use Rattle.stream_commands.specs.Controls.{controlled, feature_set, head_set};
ghost use Rattle.stream_commands.specs.Held.{KeepsBranchFiles};
ghost use Rattle.stream_commands.specs.State.{state_shown, workspace_in, CarriesOut};

use crate::checkpoint::save;
use crate::state::StreamState;
use content_pool::Pool;
use git_objects::Naming;
use stream_grammar::{ControlCommand, Feature};
use stream_parts::fault::Fault;
use stream_parts::head::Head;
use tenant_refs::{RefName, Refs};
use tenant_tables::Table;

// 'feature'.
fn require(state: &mut StreamState, refs: &Refs, feature: Feature)
    ensures done { (pool : Cells) (table : View) →
        feature_set feature (workspace_in (state_shown state.old) pool table refs.now)
        ≡ workspace_in (state_shown state.new) pool table refs.now }
    ensures files { KeepsBranchFiles (state_shown state.old) (state_shown state.new) }
{
    match feature {
        Feature::Done => state.needs_done = true,
        Feature::Force => state.forces = true,
        _ => {}
    }
}

// 'option gitpool head'.
fn set_head(state: &mut StreamState, refs: &Refs, ref_name: &RefName) -> Result<(), Fault>
    ensures done { (pool : Cells) (table : View) (out : List ℕ) → CarriesOut
        (head_set ref_name.now (workspace_in (state_shown state.old) pool table refs.now))
        (workspace_in (state_shown state.new) pool table refs.now) out out result }
    ensures files { KeepsBranchFiles (state_shown state.old) (state_shown state.new) }
{
    state.head = Some(Head::copy_of(state.alloc, ref_name)?);
    Ok(())
}

/// Carries out a command of the stream itself, and appends what a checkpoint prints to `out`.
///
/// `checkpoint` and `done` are refused as by `save`. `Fault::Text` (11) if HEAD would name `HEAD`,
/// `Fault::Memory` (90) if an allocation fails. A refusal changes no object, no ref and no reply.
#[tactic(auto, unfolding(crate::specs::Controls::controlled))]
pub fn carry_out_control<N: Naming>(
    pool: &Pool<N>,
    table: &mut Table,
    refs: &mut Refs,
    state: &mut StreamState,
    command: &ControlCommand,
    out: &mut Vec<u8>,
) -> Result<(), Fault>
    requires { IsBackedBy N.digest_of pool.now table.old.entries }
    ensures entries { table.new.entries ≡ table.old.entries }
    ensures done { AreHeld N.digest_of (objects pool.now table.old.entries) → CarriesOut
        (controlled command.now
        (workspace_in (state_shown state.old) pool.now table.old refs.old))
        (workspace_in (state_shown state.new) pool.now table.new refs.new)
        out.old.items out.new.items result }
    ensures same { OnErr result ((table.new ≡ table.old) × (refs.new ≡ refs.old)) }
    ensures printed { OnErr result (out.new.items ≡ out.old.items) }
    ensures files { KeepsBranchFiles (state_shown state.old) (state_shown state.new) }
{
    match command {
        ControlCommand::Checkpoint | ControlCommand::Done => save(pool, table, refs, state, out),
        ControlCommand::Feature(feature) => {
            require(state, refs, *feature);
            Ok(())
        }
        ControlCommand::Head(ref_name) => set_head(state, refs, ref_name),
    }
}
