//! The branches of a stream, and its HEAD: git-fast-import(1), "reset".

ghost use Rattle.std.specs.Prelude.{◌≡◌, ◌≢◌, ◌↔◌, ◌<◌, [], length, slice_get, IsSome, Ok, Err};
ghost use Rattle.std.specs.{Prelude.{MatchResult, OnOk, OnErr, IfErr, IfOk}, Option.{option_map}};
ghost use Rattle.stream_parts.specs.Branches.{branch_set, has_branch_room, ref_meant, tip_of};
ghost use Rattle.stream_parts.specs.Branches.{with_branch, commit_at, tip_commit, tip_for};

use crate::fault::Fault;
use crate::head::Head;
use git_objects::{Memory, Name};
use indexmap::IndexMap;
use std::alloc::Global;
use std::marker::Model;
use tenant_refs::{RefName, RefNameFault, Refs};

/// How many branches a stream may have.
pub const BRANCHES_LIMIT: usize = 262_144;

/// Where a branch of a stream is.
#[derive(Clone, Copy)]
pub enum Tip {
    /// At no commit. A checkpoint leaves its stored ref.
    Unborn,
    /// At no commit. A checkpoint removes its stored ref.
    Deleted,
    /// At the commit of this name.
    At(Name),
}

/// The branches of a stream, in the order of their first appearance. Only ref names are names of
/// branches.
pub struct Branches {
    tips: IndexMap<RefName, Tip>,
}

// Not derived, so that crates above need not prove again how its parts are dropped.
impl Drop for Branches {
    fn drop(self) {
        let Branches { tips } = self;
        drop(tips);
    }
}

impl Model for Branches {
    ghost use Rattle.stream_parts.specs.Branches.{Branches, AreRefNames};

    ghost Value = { Branches };

    ghost view = { λ branches. branches.tips.entries };

    ghost invariant = { λ branches. AreRefNames branches.tips.entries };
}

impl Branches {
    /// No branches. Allocates nothing.
    pub fn new(alloc: Global) -> Branches
        ensures { result ≡ [] }
    {
        Branches {
            tips: IndexMap::new(alloc),
        }
    }

    /// How many branches there are.
    pub fn len(&self) -> usize
        ensures { result ≡ length self.now }
    {
        self.tips.len()
    }

    /// The branch at a position, counted from 0; `None` from `len` on.
    pub fn at(&self, position: usize) -> Option<(&RefName, &Tip)>
        ensures found { IsSome result ↔ (position < length self.now) }
        ensures branch { option_map (λ branch. (branch.0.now, branch.1.now)) result
            ≡ slice_get self.now position }
    {
        self.tips.get_index(position)
    }

    /// The tip of the branch of this name, or `None` if the stream has no such branch. `Memory`
    /// (90) if the name cannot be copied.
    pub fn tip_of(&self, alloc: Global, name: &[u8]) -> Result<Option<Tip>, Memory>
        ensures { IfOk result (λ tip. tip ≡ tip_of self.now name.now) }
    {
        match RefName::read(alloc, name) {
            Ok(ref_name) => Ok(self.tips.get(&ref_name).copied()),
            Err(RefNameFault::BadRefName) => Ok(None),
            Err(RefNameFault::Limit) => Ok(None),
            Err(RefNameFault::Memory) => Err(Memory),
        }
    }

    /// The tip of this branch, or `None` if it is not one of the stream's. Allocates nothing.
    pub fn tip(&self, ref_name: &RefName) -> Option<Tip>
        ensures { result ≡ tip_of self.now ref_name.now }
    {
        self.tips.get(ref_name).copied()
    }

    // Whether a branch may be set: it is there already, or there are fewer branches than the limit.
    #[tactic(auto, unfolding(crate::specs::Branches::has_branch_room))]
    fn has_room(&self, ref_name: &RefName) -> bool
        ensures { result ≡ has_branch_room self.now ref_name.now }
    {
        self.tips.contains_key(ref_name) || self.tips.len() < BRANCHES_LIMIT
    }

    /// Sets the tip of a branch. A branch that is new to the stream is added last. `Memory` (90) if
    /// there is no room for it; no branch has changed then.
    pub fn place(&mut self, ref_name: RefName, tip: Tip) -> Result<(), Memory>
        ensures placed { OnOk result (self.new ≡ with_branch self.old ref_name tip) }
        ensures same { OnErr result (self.new ≡ self.old) }
    {
        // The contract of `as_bytes` says that this is a ref name, which the invariant asks for.
        let _text = ref_name.as_bytes();
        self.tips.insert(ref_name, tip)?;
        Ok(())
    }

    /// The same within the limit: `Fault::Limit` (25) for a new branch if there are 262,144
    /// already. `Fault::Memory` (90) if there is no room for it. No branch has changed after either.
    pub fn set(&mut self, ref_name: RefName, tip: Tip) -> Result<(), Fault>
        ensures set { MatchResult result (λ _. branch_set self.old ref_name tip ≡ Ok self.new)
            (λ fault. fault ≢ Fault.Memory → branch_set self.old ref_name tip ≡ Err fault) }
        ensures same { OnErr result (self.new ≡ self.old) }
    {
        if !self.has_room(&ref_name) {
            return Err(Fault::Limit);
        }
        self.place(ref_name, tip)?;
        Ok(())
    }
}

/// The ref that a name means for the stream: `HEAD` means the ref that HEAD names.
#[tactic(auto, unfolding(crate::specs::Branches::ref_meant))]
pub fn meant<'a>(head: &'a Option<Head>, refs: &'a Refs, name: &'a [u8]) -> &'a [u8]
    ensures { result.now ≡ ref_meant head.now refs.now name.now }
{
    if name != b"HEAD".as_slice() {
        return name;
    }
    match head {
        Some(head) => head.ref_name().as_bytes(),
        None => refs.head(),
    }
}

// A copy of the ref that HEAD names in the repository. Only memory can run out, because HEAD names
// a ref name within the limit.
fn copy_head(alloc: Global, refs: &Refs) -> Result<RefName, Memory>
    ensures { IfOk result (λ head. head ≡ refs.now.head) }
{
    match RefName::read(alloc, refs.head()) {
        Ok(head) => Ok(head),
        Err(RefNameFault::BadRefName) => unreachable!(),
        Err(RefNameFault::Limit) => unreachable!(),
        Err(RefNameFault::Memory) => Err(Memory),
    }
}

/// A copy of the ref that a name means for the stream. `Memory` (90) if it cannot be allocated.
#[tactic(auto, unfolding(crate::specs::Branches::ref_meant))]
pub fn copy_meant(
    alloc: Global,
    head: &Option<Head>,
    refs: &Refs,
    ref_name: &RefName,
) -> Result<RefName, Fault>
    ensures meant { IfOk result (λ meant. meant ≡ ref_meant head.now refs.now ref_name.now) }
    ensures refused { IfErr result (λ fault. fault ≡ Fault.Memory) }
{
    if !ref_name.is_head() {
        return Ok(ref_name.try_clone(alloc)?);
    }
    match head {
        Some(head) => Ok(head.ref_name().try_clone(alloc)?),
        None => Ok(copy_head(alloc, refs)?),
    }
}

fn commit_at(tip: Tip) -> Option<Name>
    ensures { result ≡ commit_at tip }
{
    match tip {
        Tip::At(id) => Some(id),
        Tip::Unborn | Tip::Deleted => None,
    }
}

/// The commit that a branch of the stream is at.
pub fn tip_commit(branches: &Branches, ref_name: &RefName) -> Option<Name>
    ensures { result ≡ tip_commit branches.now ref_name.now }
{
    match branches.tip(ref_name) {
        Some(tip) => commit_at(tip),
        None => None,
    }
}

/// Where a branch is when a commit opens on it: at the commit that it was at, or unborn.
pub fn tip_for(first: &Option<Name>) -> Tip
    ensures { result ≡ tip_for first.now }
{
    match first {
        Some(id) => Tip::At(*id),
        None => Tip::Unborn,
    }
}
