//! Checkpoints: git-fast-import(1), "checkpoint"; and "fast-forward" of gitglossary(7).

ghost use Rattle.std.specs.Prelude.{◌≡◌, ◌++◌, ℕ, IfOk, IfErr, OnOk, OnErr};
ghost use Rattle.git_model.specs.HeldObjects.{AreHeld};
ghost use Rattle.tenant_refs.specs.Changes.{with_changes};
ghost use Rattle.tenant_tables.specs.{Objects.{objects}, IsBackedBy.{IsBackedBy}};
ghost use Rattle.stream_parts.specs.Checkpoints.{by_tags};
ghost use Rattle.stream_commands.specs.Checkpoints.{by_branches, checkpoint, kept_by, kept_lines};
ghost use Rattle.stream_commands.specs.{Checkpoints.{moves, saved_by}, Held.{KeepsBranchFiles}};
ghost use Rattle.stream_commands.specs.State.{state_shown, workspace_in, workspace_over};
ghost use Rattle.stream_commands.specs.State.{CarriesOut};

use crate::state::StreamState;
use commit_walk::Ancestry;
use content_pool::Pool;
use git_objects::{Name, Naming};
use stream_parts::branches::Tip;
use stream_parts::checkpoint::{
    Saving, add_change, add_tags, carry_out, is_fast_forward, save_head,
};
use stream_parts::fault::Fault;
use stream_parts::print::print_kept;
use tenant_refs::{RefName, Refs};
use tenant_tables::{Objects, Sight, Table};

// Whether a branch may set its ref to a tip.
fn moves<N: Naming>(
    ancestry: &mut Ancestry<'_, N>,
    refs: &Refs,
    state: &StreamState,
    ref_name: &RefName,
    tip: &Name,
) -> Result<bool, Fault>
    ensures judged { (committed : ℕ) → AreHeld N.digest_of ancestry.old
        → IfOk result (λ yes. yes ≡ moves
        (workspace_over (state_shown state.now) ancestry.old committed refs.now) ref_name.now
        tip.now) }
    ensures refused { IfErr result (λ fault. fault ≡ Fault.Memory) }
    ensures same { ancestry.new ≡ ancestry.old }
{
    match refs.get(ref_name.as_bytes()) {
        Some(old) if !state.forces => is_fast_forward(state.alloc, ancestry, old, tip),
        _ => Ok(true),
    }
}

// Adds the change that one branch makes, or the line that its ref is kept.
fn add_branch<N: Naming>(
    ancestry: &mut Ancestry<'_, N>,
    refs: &Refs,
    state: &StreamState,
    branch: (&RefName, &Tip),
    saving: &mut Saving,
) -> Result<(), Fault>
    ensures saved { (committed : ℕ) → AreHeld N.digest_of ancestry.old → OnOk result
        (let workspace = workspace_over (state_shown state.now) ancestry.old committed refs.now in
        (with_changes refs.now saving.new.changes.items ≡ saved_by workspace
        (with_changes refs.now saving.old.changes.items) branch.entry.0.now branch.entry.1.now)
        × (saving.new.kept.items ≡ saving.old.kept.items
        ++ kept_by workspace branch.entry.0.now branch.entry.1.now)) }
    ensures refused { IfErr result (λ fault. fault ≡ Fault.Memory) }
    ensures same { ancestry.new ≡ ancestry.old }
{
    let (ref_name, tip) = branch;
    match tip {
        Tip::Unborn => Ok(()),
        Tip::Deleted => add_change(state.alloc, ref_name, None, &mut saving.changes),
        Tip::At(tip) => {
            if moves(ancestry, refs, state, ref_name, tip)? {
                return add_change(state.alloc, ref_name, Some(*tip), &mut saving.changes);
            }
            Ok(print_kept(ref_name, &mut saving.kept)?)
        }
    }
}

// Adds the change or the line of each branch.
fn add_branches<N: Naming>(
    ancestry: &mut Ancestry<'_, N>,
    refs: &Refs,
    state: &StreamState,
    saving: &mut Saving,
) -> Result<(), Fault>
    ensures saved { (committed : ℕ) → AreHeld N.digest_of ancestry.old → OnOk result
        (let workspace = workspace_over (state_shown state.now) ancestry.old committed refs.now in
        (with_changes refs.now saving.new.changes.items ≡ by_branches workspace
        (with_changes refs.now saving.old.changes.items) workspace.stream.branches)
        × (saving.new.kept.items
        ≡ saving.old.kept.items ++ kept_lines workspace workspace.stream.branches)) }
    ensures refused { IfErr result (λ fault. fault ≡ Fault.Memory) }
{
    for place in 0..state.branches.len() {
        let branch = state.branches.at(place).unwrap();
        add_branch(ancestry, refs, state, branch, saving)?;
    }
    Ok(())
}

// What a checkpoint is to do: first for the branches in order, and then for the tags.
fn saving_of<N: Naming>(
    objects: Objects<'_, N>,
    refs: &Refs,
    state: &StreamState,
) -> Result<Saving, Fault>
    ensures saved { (committed : ℕ) → AreHeld N.digest_of objects.entry → IfOk result (λ saving.
        let workspace = workspace_over (state_shown state.now) objects.entry committed refs.now in
        (with_changes refs.now saving.changes.items ≡ by_tags
        (by_branches workspace workspace.refs workspace.stream.branches) workspace.stream.tags)
        × (saving.kept.items ≡ kept_lines workspace workspace.stream.branches)) }
    ensures refused { IfErr result (λ fault. fault ≡ Fault.Memory) }
{
    let mut saving = Saving {
        changes: Vec::new(state.alloc),
        kept: Vec::new(state.alloc),
    };
    let mut ancestry = Ancestry::of(objects);
    add_branches(&mut ancestry, refs, state, &mut saving)?;
    add_tags(state.alloc, &state.tags, &mut saving.changes)?;
    Ok(saving)
}

/// Makes a checkpoint: saves the refs and HEAD, makes all objects so far committed, and appends a
/// line to `out` for each ref that is kept: git-fast-import(1), "checkpoint".
///
/// `Fault::Limit` (25) if there would be more than 65,536 refs, `Fault::Memory` (90) if an
/// allocation fails. Nothing fails after the first change, so a refusal changes nothing.
pub fn save<N: Naming>(
    pool: &Pool<N>,
    table: &mut Table,
    refs: &mut Refs,
    state: &mut StreamState,
    out: &mut Vec<u8>,
) -> Result<(), Fault>
    requires { IsBackedBy N.digest_of pool.now table.old.entries }
    ensures entries { table.new.entries ≡ table.old.entries }
    ensures saved { AreHeld N.digest_of (objects pool.now table.old.entries) → CarriesOut
        (checkpoint (workspace_in (state_shown state.old) pool.now table.old refs.old))
        (workspace_in (state_shown state.new) pool.now table.new refs.new)
        out.old.items out.new.items result }
    ensures same { OnErr result ((table.new ≡ table.old) × (refs.new ≡ refs.old)) }
    ensures printed { OnErr result (out.new.items ≡ out.old.items) }
    ensures files { KeepsBranchFiles (state_shown state.old) (state_shown state.new) }
{
    let saving = saving_of(Objects::of(pool, table, Sight::All), refs, state)?;
    carry_out(saving, refs, out)?;
    save_head(refs, state.head.take());
    state.tags.clear();
    table.commit();
    Ok(())
}
