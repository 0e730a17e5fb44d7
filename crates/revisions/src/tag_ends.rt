//! Ways along tags: gitrevisions(7), `<rev>^{}`. The end of a long way is kept for the next one.

ghost use Rattle.std.specs.{Prelude.{◌≡◌, [], List, ℕ, IfOk, IfSome}, Map.{lookup}, Str.{bytes_eq}};
ghost use Rattle.git_model.specs.{Repository.{Object}, HeldObjects.{AreHeld}};
ghost use Rattle.revisions.specs.{Faults.{Gives}, Resolution.{peeled, peeled_untagged}};
ghost use Rattle.revisions.specs.TagEnds.{AreTagEnds, EndsAt};

use crate::fault::Fault;
use crate::first_parents::FirstParentCache;
use crate::peeling::{is_there_untagged, next_to, peel, peel_tags};
use git_objects::{Kind, Memory, Name, Naming};
use indexmap::IndexMap;
use std::alloc::Global;
use std::marker::Model;
use tenant_tables::Objects;

// A way of so many tags is soon walked again. Of a longer one each tag after so many is kept.
const SHORT_WAY: usize = 16;

/// The ends of ways along tags: for a tag the first object on its way that is no tag.
pub struct TagCache {
    ends: IndexMap<Name, Name>,
}

// Not derived, so that crates above need not prove again how its parts are dropped.
impl Drop for TagCache {
    fn drop(self) {
        let TagCache { ends } = self;
        drop(ends);
    }
}

impl Model for TagCache {
    ghost use Rattle.std.specs.Prelude.{ℕ, List};

    ghost Value = { List (List ℕ × List ℕ) };

    ghost view = { λ tags. tags.ends.entries };
}

impl TagCache {
    /// The end of no way. Takes no memory.
    pub fn new(alloc: Global) -> TagCache
        ensures { result ≡ [] }
    {
        TagCache {
            ends: IndexMap::new(alloc),
        }
    }

    // The end that is kept for a tag.
    fn kept(&self, tag: &Name) -> Option<Name>
        ensures { result ≡ lookup (bytes_eq tag.now) self.now }
    {
        self.ends.get(tag).copied()
    }

    // Keeps the end of a way from a tag. False where there is no room.
    fn put(&mut self, tag: Name, end: Name) -> bool
        ensures { (os : List Object) → EndsAt os tag end → AreTagEnds os self.old
            → AreTagEnds os self.new }
    {
        match self.ends.insert(tag, end) {
            Ok(_) => true,
            Err(_) => false,
        }
    }

    // The end of the way from an object, and how many tags were passed. There is none where the way
    // breaks off: among held objects where it begins at none.
    fn walk<N: Naming>(
        &self,
        alloc: Global,
        objects: &Objects<'_, N>,
        id: Name,
    ) -> Result<(Option<Name>, usize), Memory>
        ensures { AreHeld N.digest_of objects.now → AreTagEnds objects.now self.now
            → IfOk result (λ found. IfSome found.0 (EndsAt objects.now id)) }
    {
        let mut at = id;
        let mut passed = 0;
        'way: while !is_there_untagged(objects, &at) {
            if let Some(end) = self.kept(&at) {
                return Ok((Some(end), passed));
            }
            if passed >= objects.len() {
                return Ok((None, passed));
            }
            let Some(next) = next_to(alloc, objects, Kind::Blob, &at)? else {
                return Ok((None, passed));
            };
            at = next;
            passed += 1;
        }
        Ok((Some(at), passed))
    }

    // Keeps the end of a way of so many tags for the first of them and for each after `SHORT_WAY`
    // more. Where there is no room it keeps fewer.
    fn keep<N: Naming>(
        &mut self,
        alloc: Global,
        objects: &Objects<'_, N>,
        id: Name,
        passed: usize,
        end: Name,
    )
        ensures { AreHeld N.digest_of objects.now → EndsAt objects.now id end
            → AreTagEnds objects.now self.old → AreTagEnds objects.now self.new }
    {
        let mut at = id;
        for i in 0..passed {
            if i % SHORT_WAY == 0 && !self.put(at, end) {
                return;
            }
            let Ok(Some(next)) = next_to(alloc, objects, Kind::Blob, &at) else {
                return;
            };
            at = next;
        }
    }

    // The end of the way from an object, which is kept if the way is long.
    fn end_of<N: Naming>(
        &mut self,
        alloc: Global,
        objects: &Objects<'_, N>,
        id: Name,
    ) -> Result<Option<Name>, Memory>
        ensures found { AreHeld N.digest_of objects.now → AreTagEnds objects.now self.old
            → IfOk result (λ end. IfSome end (EndsAt objects.now id)) }
        ensures tags { AreHeld N.digest_of objects.now → AreTagEnds objects.now self.old
            → AreTagEnds objects.now self.new }
    {
        let (end, passed) = self.walk(alloc, objects, id)?;
        if let Some(end) = end {
            if passed > SHORT_WAY {
                self.keep(alloc, objects, id, passed, end);
            }
        }
        Ok(end)
    }
}

/// What is kept of walks for the next ones: commits along first parents, and ends of tags.
pub struct ChainCache {
    pub first_parents: FirstParentCache,
    pub tags: TagCache,
}

// Not derived, so that crates above need not prove again how its parts are dropped.
impl Drop for ChainCache {
    fn drop(self) {
        let ChainCache {
            first_parents,
            tags,
        } = self;
        drop(first_parents);
        drop(tags);
    }
}

impl ChainCache {
    /// Nothing is kept yet. Takes no memory.
    pub fn new(alloc: Global) -> ChainCache
        ensures commits { result.first_parents ≡ [] }
        ensures tags { result.tags ≡ [] }
    {
        ChainCache {
            first_parents: FirstParentCache::new(alloc),
            tags: TagCache::new(alloc),
        }
    }
}

/// `peel`, with the ends of tags of these objects. The answer is the same; a long way along tags is
/// not walked twice.
pub fn peel_along<N: Naming>(
    alloc: Global,
    objects: &Objects<'_, N>,
    tags: &mut TagCache,
    wanted: Kind,
    id: Name,
) -> Result<Name, Fault>
    ensures found { AreHeld N.digest_of objects.now → AreTagEnds objects.now tags.old
        → Gives result (peeled objects.now wanted id) }
    ensures tags { AreHeld N.digest_of objects.now → AreTagEnds objects.now tags.old
        → AreTagEnds objects.now tags.new }
{
    match wanted {
        Kind::Tag => peel(alloc, objects, wanted, id),
        Kind::Commit | Kind::Tree | Kind::Blob => {
            match tags.end_of(alloc, objects, id)? {
                Some(end) => peel(alloc, objects, wanted, end),
                None => peel(alloc, objects, wanted, id),
            }
        }
    }
}

/// `peel_tags`, in the same way.
pub fn peel_tags_along<N: Naming>(
    alloc: Global,
    objects: &Objects<'_, N>,
    tags: &mut TagCache,
    id: Name,
) -> Result<Name, Fault>
    ensures found { AreHeld N.digest_of objects.now → AreTagEnds objects.now tags.old
        → Gives result (peeled_untagged objects.now id) }
    ensures tags { AreHeld N.digest_of objects.now → AreTagEnds objects.now tags.old
        → AreTagEnds objects.now tags.new }
{
    match tags.end_of(alloc, objects, id)? {
        Some(end) => Ok(end),
        None => peel_tags(alloc, objects, id),
    }
}
