//! Whether a tree has the entries of an earlier one, some of them with other object names.

ghost use Rattle.std.specs.Prelude.{◌≡◌, ◌++◌, ◌<◌, ◌≤◌, ℕ, List, drop, false, length, IfSome};
ghost use Rattle.std.specs.{Prelude.{MatchOption, slice_get}, Bool.{OnTrue}};
ghost use Rattle.git_model.specs.{Modes.{kind_of_mode}, References.{is_reference}};
ghost use Rattle.git_model.specs.Tree.{TreeEntry, entry_text};
ghost use Rattle.pool_file_checks.specs.Alike.{Agree, BeginsAlike, IsAlike, MayName};
ghost use Rattle.pool_file_checks.specs.Own.{objects_in};
ghost use Rattle.pool_file_format.specs.Shown.{objects_of};

use crate::standing::place_before;
use git_names::Name;
use git_objects::Kind;
use indexmap::IndexMap;
use memchr::memchr;
use pool_file_format::RawObject;
use tenant_tables::Summary;

// How many bytes two texts have in common at their front. They are compared in steps of some bytes.
fn equal_by(first: &[u8], second: &[u8], start: usize, step: usize) -> usize
    requires least { 1 ≤ step }
    requires most { step ≤ 64 }
    requires start { Agree start first.now second.now }
    ensures { Agree result first.now second.now }
{
    let most = first.len().min(second.len());
    let mut equal = start;
    while equal + step <= most && first[equal..equal + step] == second[equal..equal + step] {
        equal += step;
    }
    equal
}

// How many bytes two texts have in common at their front.
fn equal_front(first: &[u8], second: &[u8]) -> usize
    ensures { Agree result first.now second.now }
{
    let far = equal_by(first, second, 0, 64);
    let near = equal_by(first, second, far, 8);
    equal_by(first, second, near, 1)
}

fn are_same(first: Summary, second: Summary) -> bool
    ensures { OnTrue result (first ≡ second) }
{
    first.files == second.files && first.depth == second.depth && first.longest == second.longest
}

// Whether the summaries at both places are the same.
fn have_one_sum(sums: &[Summary], first: usize, second: usize) -> bool
    ensures { OnTrue result (slice_get sums.now first ≡ slice_get sums.now second) }
{
    match (sums.get(first), sums.get(second)) {
        (Some(first), Some(second)) => are_same(*first, *second),
        _ => false,
    }
}

// The kind of object that the first entry of a tree asks for; `None` for a gitlink.
fn asked_kind(contents: &[u8]) -> Option<Kind>
    ensures { (e : TreeEntry) (rest : List ℕ) → contents.now ≡ entry_text e ++ rest
        → MatchOption result (is_reference e.mode ≡ false) (λ kind. kind_of_mode e.mode ≡ kind) }
{
    if contents.starts_with(b"160000 ") {
        return None;
    }
    if contents.starts_with(b"40000 ") {
        return Some(Kind::Tree);
    }
    Some(Kind::Blob)
}

// Whether an entry that asks for this kind may name another object. A directory may name another
// tree if both have the same summary.
fn may_name(
    objects: &[RawObject],
    index: &IndexMap<Name, usize>,
    place: usize,
    sums: &[Summary],
    kind: Kind,
    old: &Name,
    new: &Name,
) -> bool
    ensures { (e : TreeEntry) → kind_of_mode e.mode ≡ kind → e.id ≡ old.now → OnTrue result
        (MayName (objects_in (objects_of objects.now) index.now.entries) place sums.now e new.now) }
{
    let Some(now) = place_before(objects, index, place, new, kind) else {
        return false;
    };
    if kind != Kind::Tree {
        return true;
    }
    match place_before(objects, index, place, old, kind) {
        Some(before) => have_one_sum(sums, now, before),
        None => false,
    }
}

// The size of the first entry of two trees that have `equal` bytes in common, and how many bytes
// they have in common after it; `None` if the entry of the second tree is not that of the first with
// an object name that it may have instead.
fn next_entry(
    objects: &[RawObject],
    index: &IndexMap<Name, usize>,
    place: usize,
    sums: &[Summary],
    old: &[u8],
    new: &[u8],
    equal: usize,
) -> Option<(usize, usize)>
    requires { Agree equal old.now new.now }
    ensures size { IfSome result (λ r. 0 < r.0) }
    ensures old { IfSome result (λ r. r.0 ≤ length old.now) }
    ensures new { IfSome result (λ r. r.0 ≤ length new.now) }
    ensures equal { IfSome result (λ r. Agree r.1 (drop r.0 old.now) (drop r.0 new.now)) }
    ensures alike { IfSome result (λ r. BeginsAlike (objects_in (objects_of objects.now)
        index.now.entries) place sums.now old.now new.now r.0) }
{
    let nul = memchr(0, old)?;
    let size = nul + 21;
    if size <= equal {
        return Some((size, equal - size));
    }
    if nul >= equal {
        return None;
    }
    let (old_id, old_rest) = old.split_at(nul + 1).1.split_first_chunk::<20>()?;
    let (new_id, new_rest) = new.split_at(nul + 1).1.split_first_chunk::<20>()?;
    let kind = asked_kind(old)?;
    let (was, now) = (Name::from_bytes(*old_id), Name::from_bytes(*new_id));
    if !may_name(objects, index, place, sums, kind, &was, &now) {
        return None;
    }
    Some((size, equal_front(old_rest, new_rest)))
}

/// Whether a tree has the entries of an earlier one, some of them with other object names. Each of
/// these stands before the place, with the kind that the entry asks for. The tree of a directory has
/// the summary of the one before. `sums` are the summaries of the objects before the place.
///
/// `old` and `new` are the contents of the two trees. `false` says nothing.
pub fn is_alike(
    objects: &[RawObject],
    index: &IndexMap<Name, usize>,
    place: usize,
    sums: &[Summary],
    old: &[u8],
    new: &[u8],
) -> bool
    ensures { OnTrue result (IsAlike (objects_in (objects_of objects.now) index.now.entries) place
        sums.now old.now new.now) }
{
    if old.len() != new.len() {
        return false;
    }
    let (mut left, mut right) = (old, new);
    let mut equal = equal_front(left, right);
    while equal < left.len() {
        let Some((size, after)) = next_entry(objects, index, place, sums, left, right, equal) else {
            return false;
        };
        left = left.split_at(size).1;
        right = right.split_at(size).1;
        equal = after;
    }
    true
}
