//! The log of a set of commits: git-log(1), from new to old.

ghost use Rattle.std.specs.Prelude.{◌≡◌, ◌++◌, ◌∷◌, [], ℕ, ◌<◌, ◌↔◌, List, Bool, length, map};
ghost use Rattle.std.specs.Prelude.{filter, IfOk, OnOk, IsTrue};
ghost use Rattle.git_model.specs.{CommitReading.{time_of}, Repository.{Object}};
ghost use Rattle.git_model.specs.{References.{object_at}, HeldObjects.{AreHeld}};
ghost use Rattle.git_model.specs.Peeling.{is_of};
ghost use Rattle.commit_walk.specs.Logs.{log_key, log_of, in_log_order, IsLogOf};

use crate::log_key::LogKey;
use git_objects::{Kind, Memory, Name, Naming, time_of};
use std::alloc::Global;
use std::cmp::Reverse;
use tenant_tables::Objects;

/// The log of the flagged commits: their names by the committer's time from new to old, and commits
/// of one time by rising name. `flags` has one flag for each object, the oldest object first.
///
/// The answer is right if the objects are held (`AreHeld` of git_model) and only commits are
/// flagged. `Memory` (90) if there is no room for the log.
pub fn log_of<N: Naming>(
    alloc: Global,
    objects: &Objects<'_, N>,
    flags: &[bool],
) -> Result<Vec<Name>, Memory>
    ensures { (set : List ℕ → Bool) → AreHeld N.digest_of objects.now
        → flags.now ≡ map (λ o. set o.id) objects.now
        → ((id : List ℕ) → IsTrue (set id) → IsTrue (is_of objects.now Kind.Commit id))
        → IfOk result (λ ids. ids.items ≡ log_of objects.now set) }
{
    let keys = keys_of(alloc, objects, flags)?;
    let ids = ids_in_order(alloc, keys)?;
    Ok(ids)
}

/// The names of the commits with these keys, in the order of a log and each once. `Memory` (90) if
/// there is no room for them.
pub(crate) fn ids_in_order(alloc: Global, mut keys: Vec<LogKey>) -> Result<Vec<Name>, Memory>
    ensures { IfOk result (λ ids. ids.items ≡ map (λ k. k.id) (in_log_order keys.items)) }
{
    keys.sort_unstable();
    keys.dedup();
    let ids = ids_of(alloc, &keys)?;
    Ok(ids)
}

fn ids_of(alloc: Global, keys: &[LogKey]) -> Result<Vec<Name>, Memory>
    ensures { IfOk result (λ ids. ids.items ≡ map (λ k. k.id) keys.now) }
{
    let ids = keys.iter().map(|key| key.id).collect(alloc)?;
    Ok(ids)
}

// The keys of the flagged commits.
fn keys_of<N: Naming>(
    alloc: Global,
    objects: &Objects<'_, N>,
    flags: &[bool],
) -> Result<Vec<LogKey>, Memory>
    ensures { (set : List ℕ → Bool) → AreHeld N.digest_of objects.now
        → flags.now ≡ map (λ o. set o.id) objects.now
        → ((id : List ℕ) → IsTrue (set id) → IsTrue (is_of objects.now Kind.Commit id))
        → IfOk result (λ keys. keys.items
        ≡ map (λ o. log_key objects.now o.id) (filter (λ o. set o.id) objects.now)) }
{
    let count = flags.iter().filter(|flag| **flag).count();
    let mut keys = Vec::with_capacity(alloc, count)?;
    for (place, flag) in flags.iter().enumerate() {
        if *flag {
            push_key(objects, place, &mut keys)?;
        }
    }
    Ok(keys)
}

/// Appends the key of the commit at a position.
pub(crate) fn push_key<N: Naming>(
    objects: &Objects<'_, N>,
    place: usize,
    keys: &mut Vec<LogKey>,
) -> Result<(), Memory>
    ensures { AreHeld N.digest_of objects.now → place < length objects.now
        → IsTrue (is_of objects.now Kind.Commit (object_at place objects.now).id)
        → OnOk result (keys.new.items
        ≡ keys.old.items ++ log_key objects.now (object_at place objects.now).id ∷ []) }
{
    let Some(found) = objects.at(place) else {
        return Ok(());
    };
    let (id, _, contents) = found;
    keys.push(key_in(id, contents))?;
    Ok(())
}

// The key of the commit with this name and these contents.
fn key_in(id: Name, contents: &[u8]) -> LogKey
    ensures { result ≡ record { time = time_of contents.now; id = id } }
{
    LogKey {
        newest: Reverse(time_of(contents)),
        id,
    }
}

/// The log of a set of commits is a single list: a list that has the members of the set, in the
/// order of a log and each once, is the one that `log_of` answers.
pub fn a_log_is_one_list()
    ensures { (os : List Object) (set : List ℕ → Bool) (log : List (List ℕ))
        → IsLogOf os set log ↔ (log ≡ log_of os set) }
{}
