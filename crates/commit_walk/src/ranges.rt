//! Logs of ranges: gitrevisions(7), "Dotted Range Notations".
//!
//! What a commit refers to comes before it in the list. So one walk from the later of two commits
//! to early positions settles which of them reaches a commit. It stops where no commit that only
//! one of them reaches is left, so it costs what the range names and not the whole history.

ghost use Rattle.std.specs.Prelude.{◌≡◌, ◌≤◌, ◌<◌, ◌&&◌, ◌||◌, not, [], ◌∷◌, true, false, All};
ghost use Rattle.std.specs.Prelude.{get_or, length, replicate, IfOk};
ghost use Rattle.git_model.specs.{References.{place_of}, HeldObjects.{AreHeld}};
ghost use Rattle.git_model.specs.{Peeling.{is_of}, Reach.{reaches}};
ghost use Rattle.commit_walk.specs.{Logs.{log_of, AreKeysOf}, Marks.{MarksIf}};
ghost use Rattle.commit_walk.specs.Ranges.{is_apart, is_apart_in};

use crate::commits::{commit_place, parents_at};
use crate::log::{ids_in_order, push_key};
use crate::log_key::LogKey;
use crate::marks::mark_all;
use git_objects::{Kind, Memory, Name, Naming};
use std::alloc::Global;
use tenant_tables::Objects;

/// The log of the commits that are reachable from `tip` and not from `old`, `OLD..TIP`: their names
/// in the order of `log_of`. A name that is not that of a commit reaches nothing.
///
/// The answer is right if the objects are held (`AreHeld` of git_model). `Memory` (90) if there
/// is no room for the walk or for the log.
pub fn log_between<N: Naming>(
    alloc: Global,
    objects: &Objects<'_, N>,
    old: &Name,
    tip: &Name,
) -> Result<Vec<Name>, Memory>
    ensures { AreHeld N.digest_of objects.now → IfOk result (λ ids. ids.items
        ≡ log_of objects.now (λ id.
        reaches objects.now tip.now id && not (reaches objects.now old.now id))) }
{
    log_apart(alloc, objects, false, old, tip)
}

/// The log of the commits that are reachable from one of two commits and not from both,
/// `LEFT...RIGHT`, the symmetric difference: their names in the order of `log_of`. A name that is
/// not that of a commit reaches nothing.
///
/// The answer is right if the objects are held (`AreHeld` of git_model). `Memory` (90) if there
/// is no room for the walk or for the log.
pub fn log_of_either<N: Naming>(
    alloc: Global,
    objects: &Objects<'_, N>,
    left: &Name,
    right: &Name,
) -> Result<Vec<Name>, Memory>
    ensures { AreHeld N.digest_of objects.now → IfOk result (λ ids. ids.items
        ≡ log_of objects.now (λ id.
        (reaches objects.now left.now id && not (reaches objects.now right.now id))
        || (reaches objects.now right.now id && not (reaches objects.now left.now id)))) }
{
    log_apart(alloc, objects, true, left, right)
}

fn log_apart<N: Naming>(
    alloc: Global,
    objects: &Objects<'_, N>,
    symmetric: bool,
    left: &Name,
    right: &Name,
) -> Result<Vec<Name>, Memory>
    ensures { AreHeld N.digest_of objects.now → IfOk result (λ ids. ids.items
        ≡ log_of objects.now (is_apart_in objects.now symmetric left.now right.now)) }
{
    let mut left_flags = vec![in alloc; false; objects.len()]?;
    let mut right_flags = vec![in alloc; false; objects.len()]?;
    let keys = keys_apart(
        alloc,
        objects,
        symmetric,
        left,
        right,
        &mut left_flags,
        &mut right_flags,
    )?;
    let ids = ids_in_order(alloc, keys)?;
    Ok(ids)
}

// Whether only the right side reaches a commit, or only one of the two if the range is symmetric.
fn is_apart(symmetric: bool, left: bool, right: bool) -> bool
    ensures { result ≡ is_apart symmetric left right }
{
    (symmetric && (left && !right)) || (right && !left)
}

// The keys of the commits that the two sides do not both reach. The flags are those of the sides.
fn keys_apart<N: Naming>(
    alloc: Global,
    objects: &Objects<'_, N>,
    symmetric: bool,
    left: &Name,
    right: &Name,
    left_flags: &mut [bool],
    right_flags: &mut [bool],
) -> Result<Vec<LogKey>, Memory>
    requires blank_left { left_flags.old ≡ replicate (length objects.now) false }
    requires blank_right { right_flags.old ≡ replicate (length objects.now) false }
    ensures { AreHeld N.digest_of objects.now → IfOk result (λ keys. AreKeysOf objects.now
        (is_apart_in objects.now symmetric left.now right.now) keys.items) }
{
    let left_top = flag_tip(objects, left, left_flags);
    let right_top = flag_tip(objects, right, right_flags);
    let top = left_top.max(right_top);
    let tips = [*left, *right];
    let mut low = lowest_apart(objects, &tips, symmetric, left_flags, right_flags, top);
    let mut keys = Vec::new(alloc);
    let mut place = top;
    while place > low {
        place -= 1;
        let by_left = left_flags[place];
        let by_right = right_flags[place];
        if is_apart(symmetric, by_left, by_right) {
            push_key(objects, place, &mut keys)?;
        }
        if by_left || by_right {
            let parents = parents_at(alloc, objects, place)?;
            mark_if(objects, by_left, &parents, left_flags);
            mark_if(objects, by_right, &parents, right_flags);
            low = lowest_apart(objects, &parents, symmetric, left_flags, right_flags, low);
        }
    }
    Ok(keys)
}

// Flags a commit, and answers the position after it; 0 if the name is not that of a commit.
fn flag_tip<N: Naming>(objects: &Objects<'_, N>, tip: &Name, flags: &mut [bool]) -> usize
    ensures flagged { MarksIf (is_of objects.now Kind.Commit tip.now) objects.now flags.old
        flags.new (tip.now ∷ []) }
    ensures above { is_of objects.now Kind.Commit tip.now ≡ true
        → place_of tip.now objects.now < result }
    ensures within { result ≤ length objects.now }
{
    let Some(place) = commit_place(objects, tip) else {
        return 0;
    };
    mark_all(objects, 0, &[*tip], flags);
    let count = objects.len();
    prove!(place < count);
    place + 1
}

// Marks the objects of these names, or none.
fn mark_if<N: Naming>(objects: &Objects<'_, N>, marks: bool, ids: &[Name], flags: &mut [bool])
    ensures { MarksIf marks objects.now flags.old flags.new ids.now }
{
    if marks {
        mark_all(objects, 0, ids, flags);
    }
}

// The lowest of a position and those of these names whose objects the two sides do not both reach.
fn lowest_apart<N: Naming>(
    objects: &Objects<'_, N>,
    ids: &[Name],
    symmetric: bool,
    left: &[bool],
    right: &[bool],
    low: usize,
) -> usize
    requires left { length left.now ≡ length objects.now }
    requires right { length right.now ≡ length objects.now }
    ensures below { result ≤ low }
    ensures lowest { All (λ id. place_of id objects.now < length objects.now
        → is_apart symmetric (get_or left.now (place_of id objects.now) false)
        (get_or right.now (place_of id objects.now) false) ≡ true
        → result ≤ place_of id objects.now) ids.now }
{
    let mut lowest = low;
    for id in ids {
        if let Some(place) = objects.place(id) {
            if is_apart(symmetric, left[place], right[place]) {
                lowest = lowest.min(place);
            }
        }
    }
    lowest
}
