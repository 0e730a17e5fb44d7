//! First parents: gitrevisions(7), `<rev>~<n>`. The commits of a walk are kept for the next one.

ghost use Rattle.std.specs.Prelude.{◌≡◌, ◌≢◌, ◌↔◌, ℕ, ◌^◌, ◌<◌, ◌≤◌, [], Some, Err, IsTrue, OnOk};
ghost use Rattle.std.specs.Prelude.{IfErr, IfSome, List, length, slice_get};
ghost use Rattle.git_model.specs.{Repository.{Object}, HeldObjects.{AreHeld}};
ghost use Rattle.revisions.specs.{Faults.{Gives}, FirstParents.{EndsOn, IsFirstParentChain}};
ghost use Rattle.revisions.specs.Resolution.{nth_ancestor};

use crate::fault::Fault;
use crate::parents::nth_parent;
use git_objects::{Memory, Name, Naming};
use std::alloc::Global;
use std::marker::Model;
use tenant_tables::Objects;

// A way of so many commits is soon walked again.
const SHORT_WAY: usize = 64;

/// The commits of a walk along first parents, from its start on. The next walk looks up those that
/// it comes to, and goes on after the last one.
#[derive(Drop)]
pub struct FirstParentCache {
    commits: Vec<Name>,
}

impl Model for FirstParentCache {
    ghost use Rattle.std.specs.Prelude.{ℕ, List};

    ghost Value = { List (List ℕ) };

    ghost view = { λ chain. chain.commits.items };
}

impl FirstParentCache {
    /// A chain of no commits. Takes no memory.
    pub fn new(alloc: Global) -> FirstParentCache
        ensures { result ≡ [] }
    {
        FirstParentCache {
            commits: Vec::new(alloc),
        }
    }

    /// Forgets the commits. Call this when the objects change. Takes no memory.
    pub fn clear(&mut self)
        ensures { self.new ≡ [] }
    {
        self.commits.clear();
    }

    // Whether this commit stands at a position of the chain.
    fn is_at(&self, at: usize, commit: &Name) -> bool
        ensures { IsTrue result ↔ (slice_get self.now at ≡ Some commit.now) }
    {
        match self.commits.get(at) {
            Some(found) => found == commit,
            None => false,
        }
    }

    // Lets the chain begin at this commit. A chain that does so already stays as it is.
    fn begin_at(&mut self, commit: Name) -> Result<(), Memory>
        ensures begun { OnOk result (slice_get self.new 0 ≡ Some commit) }
        ensures stays { slice_get self.old 0 ≡ Some commit → self.new ≡ self.old }
        ensures chain { (os : List Object) → IsFirstParentChain os self.old
            → IsFirstParentChain os self.new }
    {
        if !self.is_at(0, &commit) {
            self.clear();
            self.commits.push(commit)?;
        }
        Ok(())
    }

    // The position of the first commit that is not after a place among the objects. What a commit
    // refers to comes before it there, so the places fall along the chain.
    fn first_up_to<N: Naming>(&self, objects: &Objects<'_, N>, place: usize) -> usize
        ensures { result ≤ length self.now }
    {
        let mut low = 0;
        let mut high = self.commits.len();
        'halves: while low < high {
            let middle = low + (high - low) / 2;
            if objects.place(&self.commits[middle]).unwrap_or(0) > place {
                low = middle + 1;
            } else {
                high = middle;
            }
        }
        low
    }

    // The position of a commit in the chain.
    fn position<N: Naming>(&self, objects: &Objects<'_, N>, commit: &Name) -> Option<usize>
        ensures { IfSome result (λ at. slice_get self.now at ≡ Some commit.now) }
    {
        let Some(place) = objects.place(commit) else {
            return None;
        };
        let at = self.first_up_to(objects, place);
        if self.is_at(at, commit) {
            Some(at)
        } else {
            None
        }
    }

    // The position of the last of so many commits in the chain. It is looked for at each 16th step
    // alone, which costs little: what comes after a commit of the chain is in the chain too.
    fn meeting<N: Naming>(
        &self,
        objects: &Objects<'_, N>,
        steps: usize,
        commit: &Name,
    ) -> Option<usize>
        ensures { IfSome result (λ at. slice_get self.now at ≡ Some commit.now) }
    {
        if steps % 16 != 1 {
            return None;
        }
        self.position(objects, commit)
    }

    // Lets the chain begin at a commit, and goes on for n steps, or up to a commit that another
    // chain has: its position there.
    fn walk_to<N: Naming>(
        &mut self,
        alloc: Global,
        objects: &Objects<'_, N>,
        n: usize,
        commit: Name,
        other: &FirstParentCache,
    ) -> Result<Option<usize>, Fault>
        ensures ends { EndsOn other.now self.new n result }
        ensures begun { OnOk result (slice_get self.new 0 ≡ Some commit) }
        ensures refused { AreHeld N.digest_of objects.now
            → IsFirstParentChain objects.now self.old → IfErr result (λ fault.
            fault ≢ Fault.Memory → nth_ancestor objects.now n commit ≡ Err fault) }
        ensures chain { AreHeld N.digest_of objects.now → IsFirstParentChain objects.now self.old
            → IsFirstParentChain objects.now self.new }
    {
        self.begin_at(commit)?;
        'way: while self.commits.len() <= n {
            let last = self.commits[self.commits.len() - 1];
            if let Some(at) = other.meeting(objects, self.commits.len(), &last) {
                return Ok(Some(at));
            }
            let parent = nth_parent(alloc, objects, 1, last)?;
            self.commits.push(parent)?;
        }
        Ok(None)
    }

    // The commit n steps after the one at a position. The chain then has the commits on the way.
    fn along<N: Naming>(
        &mut self,
        alloc: Global,
        objects: &Objects<'_, N>,
        n: usize,
        at: usize,
    ) -> Result<Name, Fault>
        requires { at < length self.old }
        ensures found { (commit : List ℕ) → AreHeld N.digest_of objects.now
            → IsFirstParentChain objects.now self.old → slice_get self.old at ≡ Some commit
            → Gives result (nth_ancestor objects.now n commit) }
        ensures chain { AreHeld N.digest_of objects.now → IsFirstParentChain objects.now self.old
            → IsFirstParentChain objects.now self.new }
        ensures stays { (i : ℕ) (id : List ℕ) → slice_get self.old i ≡ Some id
            → slice_get self.new i ≡ Some id }
    {
        'way: while self.commits.len() - at <= n {
            let last = self.commits[self.commits.len() - 1];
            let parent = nth_parent(alloc, objects, 1, last)?;
            self.commits.push(parent)?;
        }
        Ok(self.commits[at + n])
    }

    // The commit n steps after the one that a way begins at.
    fn found<N: Naming>(
        &mut self,
        alloc: Global,
        objects: &Objects<'_, N>,
        n: usize,
        way: &FirstParentCache,
        met: Result<Option<usize>, Fault>,
    ) -> Result<Name, Fault>
        requires few { n < 2 ^ 32 }
        requires ends { EndsOn self.old way.now n met }
        ensures found { (commit : List ℕ) → AreHeld N.digest_of objects.now
            → IsFirstParentChain objects.now self.old → IsFirstParentChain objects.now way.now
            → OnOk met (slice_get way.now 0 ≡ Some commit)
            → IfErr met (λ fault.
            fault ≢ Fault.Memory → nth_ancestor objects.now n commit ≡ Err fault)
            → Gives result (nth_ancestor objects.now n commit) }
        ensures chain { AreHeld N.digest_of objects.now → IsFirstParentChain objects.now self.old
            → IsFirstParentChain objects.now self.new }
        ensures ends { EndsOn self.new way.now n met }
    {
        match met {
            Ok(Some(at)) => self.along(alloc, objects, n + 1 - way.commits.len(), at),
            Ok(None) => Ok(way.commits[n]),
            Err(fault) => Err(fault),
        }
    }

    // Lets a way be the chain, with what the chain has after the commit that they share. A way that
    // is soon walked again leaves the chain as it is.
    fn keep(
        &mut self,
        n: usize,
        way: FirstParentCache,
        met: Result<Option<usize>, Fault>,
    ) -> Result<(), Memory>
        requires { EndsOn self.old way n met }
        ensures { (os : List Object) → IsFirstParentChain os self.old → IsFirstParentChain os way
            → IsFirstParentChain os self.new }
    {
        let mut commits = way.commits;
        if commits.len() <= SHORT_WAY.min(self.commits.len()) {
            return Ok(());
        }
        if let Ok(Some(at)) = met {
            commits.extend_from_slice(&self.commits.as_slice()[at + 1..])?;
        }
        self.commits = commits;
        Ok(())
    }

    /// The commit after n steps to the first parent. A commit that the chain has is found by its
    /// place among the objects, and the answer is read from the chain. The chain then has the
    /// commits on the way, unless they are few.
    ///
    /// `Fault::UnknownRevision` (16) where a commit on the way has no parent; `Fault::Memory` (90)
    /// where there is no room to read a commit or to keep it.
    pub(crate) fn ancestor<N: Naming>(
        &mut self,
        alloc: Global,
        objects: &Objects<'_, N>,
        n: u32,
        commit: Name,
    ) -> Result<Name, Fault>
        ensures found { AreHeld N.digest_of objects.now → IsFirstParentChain objects.now self.old
            → Gives result (nth_ancestor objects.now n commit) }
        ensures chain { AreHeld N.digest_of objects.now → IsFirstParentChain objects.now self.old
            → IsFirstParentChain objects.now self.new }
    {
        let n = n as usize;
        let mut way = FirstParentCache::new(alloc);
        let met = way.walk_to(alloc, objects, n, commit, self);
        let found = self.found(alloc, objects, n, &way, met);
        self.keep(n, way, met)?;
        found
    }
}
