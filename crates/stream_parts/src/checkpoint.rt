//! What a checkpoint does to refs: git-fast-import(1), "checkpoint"; and "fast-forward" of
//! gitglossary(7).

ghost use Rattle.std.specs.Prelude.{◌≡◌, ◌≢◌, ◌++◌, ◌∷◌, [], ◌≤◌, ◌<◌, length, IfOk, IfErr, OnOk};
ghost use Rattle.std.specs.Prelude.{OnErr, MatchResult};
ghost use Rattle.git_model.specs.{GoodRepository.{refs_limit}, HeldObjects.{AreHeld}};
ghost use Rattle.git_model.specs.RefStore.{listed_refs, RefStore};
ghost use Rattle.tenant_refs.specs.Changes.{with_changes};
ghost use Rattle.stream_parts.specs.Checkpoints.{by_head, by_tags, is_fast_forward};

use crate::fault::Fault;
use crate::head::Head;
use commit_walk::Ancestry;
use git_objects::{Kind, Name, Naming};
use revisions::peel;
use std::alloc::Global;
use tenant_refs::{ChangesFault, RefChange, RefName, Refs};

/// How many refs a repository may have.
pub const REFS_LIMIT: usize = 65_536;

/// What a checkpoint is to do: the changes of refs, in order, and the lines about the refs that are
/// kept.
#[derive(Drop)]
pub struct Saving {
    pub changes: Vec<RefChange>,
    pub kept: Vec<u8>,
}

/// Whether the new tip reaches the commit that the old value of a ref is peeled to.
///
/// `ancestry` remembers what was found, for the next question. `Fault::Memory` (90) if there is no
/// room for a walk.
pub fn is_fast_forward<N: Naming>(
    alloc: Global,
    ancestry: &mut Ancestry<'_, N>,
    old: Name,
    tip: &Name,
) -> Result<bool, Fault>
    ensures judged { AreHeld N.digest_of ancestry.old
        → IfOk result (λ yes. yes ≡ is_fast_forward ancestry.old old tip.now) }
    ensures refused { IfErr result (λ fault. fault ≡ Fault.Memory) }
    ensures same { ancestry.new ≡ ancestry.old }
{
    match peel(alloc, ancestry.objects(), Kind::Commit, old) {
        Ok(commit) => Ok(ancestry.reaches(alloc, tip, &commit)?),
        Err(revisions::Fault::Memory) => Err(Fault::Memory),
        Err(_) => Ok(false),
    }
}

/// Adds a change of one ref.
pub fn add_change(
    alloc: Global,
    ref_name: &RefName,
    target: Option<Name>,
    changes: &mut Vec<RefChange>,
) -> Result<(), Fault>
    ensures added { OnOk result (changes.new.items
        ≡ changes.old.items ++ record { ref_name = ref_name.now; target = target } ∷ []) }
    ensures refused { IfErr result (λ fault. fault ≡ Fault.Memory) }
{
    let ref_name = ref_name.try_clone(alloc)?;
    changes
        .push(RefChange { ref_name, target })
        .or(Err(Fault::Memory))?;
    Ok(())
}

/// Adds the change of each tag.
pub fn add_tags(
    alloc: Global,
    tags: &[(RefName, Name)],
    changes: &mut Vec<RefChange>,
) -> Result<(), Fault>
    ensures saved { (store : RefStore) → OnOk result (with_changes store changes.new.items
        ≡ by_tags (with_changes store changes.old.items) tags.now) }
    ensures refused { IfErr result (λ fault. fault ≡ Fault.Memory) }
{
    for (ref_name, target) in tags {
        add_change(alloc, ref_name, Some(*target), changes)?;
    }
    Ok(())
}

/// Carries out a saving, all of it or nothing.
pub fn carry_out(saving: Saving, refs: &mut Refs, out: &mut Vec<u8>) -> Result<(), Fault>
    ensures done { MatchResult result
        (λ _. (refs.new ≡ with_changes refs.old saving.changes.items)
        × (length (listed_refs refs.new) ≤ refs_limit)
        × (out.new.items ≡ out.old.items ++ saving.kept.items))
        (λ fault. fault ≢ Fault.Memory → (fault ≡ Fault.Limit)
        × (refs_limit < length (listed_refs (with_changes refs.old saving.changes.items)))) }
    ensures same { OnErr result ((refs.new ≡ refs.old) × (out.new.items ≡ out.old.items)) }
{
    let Saving { changes, kept } = saving;
    out.reserve(kept.len())?;
    match refs.change_all(changes, REFS_LIMIT) {
        Ok(()) => Ok(out.extend_from_slice(&kept).unwrap()),
        Err(ChangesFault::Limit) => Err(Fault::Limit),
        Err(ChangesFault::Memory) => Err(Fault::Memory),
    }
}

/// Saves the ref that HEAD is to name, if the stream set one.
pub fn save_head(refs: &mut Refs, head: Option<Head>)
    ensures { refs.new ≡ by_head refs.old head }
{
    if let Some(head) = head {
        refs.set_head(head.into_ref());
    }
}
