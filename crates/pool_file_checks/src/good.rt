//! A tenant's objects, each read once: whether all of them are good.

ghost use Rattle.std.specs.Prelude.{◌≡◌, ◌≢◌, ◌≤◌, length, IfOk, IfSome, IsSomeAnd, All};
ghost use Rattle.std.specs.{Bool.{OnTrue}, Map.{lookup}, Str.{bytes_eq}};
ghost use Rattle.git_model.specs.References.{reference, references_of, object_at};
ghost use Rattle.git_model.specs.GoodRepository.{StandsBefore};
ghost use Rattle.git_objects.specs.Parts.{entry_of, entries_of};
ghost use Rattle.tenant_tables.specs.Trees.{below as below_of, one_file as one_file_of};
ghost use Rattle.pool_file_checks.specs.{Connecting.{EntryStands}, Objects.{IsText, IsContent}};
ghost use Rattle.pool_file_checks.specs.{Own.{objects_in}, Quick.{Joins}, Sums.{sum_of_tree}};
ghost use Rattle.pool_file_checks.specs.Quick.{AreGoodBefore, AreGoodFirst, AreKept, IsGoodAt};
ghost use Rattle.pool_file_checks.specs.Sums.{FitsAfter, HasFiles, IsWithin, Sums, sum_of_entry};
ghost use Rattle.pool_file_format.specs.Shown.{objects_of};

use crate::alike::is_alike;
use crate::contents::{CONTENTS_LIMIT, PARENTS_LIMIT, TAG_NAME_LIMIT};
use crate::last_trees::LastTrees;
use crate::naming::content_at;
use crate::standing::{commit_stands, entry_stands, is_kind, place_before, stands_before};
use crate::sums::{below, both, no_files, one_file};
use git_names::Name;
use git_objects::{FileMode, Kind, Memory, TreeEntry, read_commit, read_tag, read_tree};
use indexmap::IndexMap;
use pool_file_format::RawObject;
use std::alloc::Global;
use tenant_tables::Summary;

// What a directory adds under its name; `None` if its tree does not stand before the place, or if
// it does not fit. `sums` are those of the objects before the place.
fn directory_sum(
    objects: &[RawObject],
    index: &IndexMap<Name, usize>,
    place: usize,
    sums: &[Summary],
    name: &[u8],
    id: &Name,
) -> Option<Summary>
    ensures stands { IfSome result (λ _. StandsBefore
        (objects_in (objects_of objects.now) index.now.entries) place
        (reference Kind.Tree id.now)) }
    ensures within { IfSome result IsWithin }
    ensures sum { (noted : Sums) → AreKept (objects_in (objects_of objects.now)
        index.now.entries) place sums.now noted → IfSome result (λ sum.
        IsSomeAnd (lookup (bytes_eq id.now) noted)
        (λ s. (s.files ≢ 0) × (sum ≡ below_of name.now s))) }
{
    let earlier = place_before(objects, index, place, id, Kind::Tree)?;
    below(name, *sums.get(earlier)?)
}

// The same for an entry that is a file.
fn file_sum(
    objects: &[RawObject],
    index: &IndexMap<Name, usize>,
    place: usize,
    entry: &TreeEntry<'_>,
) -> Option<Summary>
    ensures stands { IfSome result (λ _. EntryStands
        (objects_in (objects_of objects.now) index.now.entries) place (entry_of entry.now)) }
    ensures within { IfSome result IsWithin }
    ensures sum { IfSome result (λ sum. sum ≡ one_file_of (entry_of entry.now).name) }
{
    if !entry_stands(objects, index, place, entry) {
        return None;
    }
    one_file(entry.name)
}

fn entry_sum(
    objects: &[RawObject],
    index: &IndexMap<Name, usize>,
    place: usize,
    sums: &[Summary],
    entry: &TreeEntry<'_>,
) -> Option<Summary>
    ensures stands { IfSome result (λ _. EntryStands
        (objects_in (objects_of objects.now) index.now.entries) place (entry_of entry.now)) }
    ensures within { IfSome result IsWithin }
    ensures sum { (noted : Sums) → AreKept (objects_in (objects_of objects.now)
        index.now.entries) place sums.now noted → IfSome result (λ sum.
        HasFiles noted (entry_of entry.now) × (sum ≡ sum_of_entry noted (entry_of entry.now))) }
{
    match entry.mode {
        FileMode::Directory => { directory_sum(objects, index, place, sums, entry.name, &entry.id) }
        _ => file_sum(objects, index, place, entry),
    }
}

// The sum of a tree with these entries; `None` if what one of them names does not stand before the
// place, or if the tree does not fit after the trees so far.
fn entries_sum(
    objects: &[RawObject],
    index: &IndexMap<Name, usize>,
    place: usize,
    sums: &[Summary],
    entries: &[TreeEntry<'_>],
) -> Option<Summary>
    ensures stands { IfSome result (λ _. All (EntryStands (objects_in (objects_of objects.now)
        index.now.entries) place) (entries_of entries.now)) }
    ensures sum { (noted : Sums) → AreKept (objects_in (objects_of objects.now)
        index.now.entries) place sums.now noted → IfSome result (λ sum.
        FitsAfter noted (entries_of entries.now)
        × (sum ≡ sum_of_tree noted (entries_of entries.now))) }
{
    let mut sum = no_files();
    for entry in entries {
        sum = both(sum, entry_sum(objects, index, place, sums, entry)?)?;
    }
    Some(sum)
}

// The same of the tree with these contents; also `None` if no tree has them.
fn read_sum(
    alloc: Global,
    objects: &[RawObject],
    index: &IndexMap<Name, usize>,
    place: usize,
    sums: &[Summary],
    bytes: &[u8],
) -> Result<Option<Summary>, Memory>
    ensures { IfOk result (λ r. IfSome r (IsGoodAt (objects_in (objects_of objects.now)
        index.now.entries) place sums.now Kind.Tree bytes.now)) }
{
    match read_tree(alloc, bytes)? {
        Some(entries) => Ok(entries_sum(objects, index, place, sums, &entries)),
        None => Ok(None),
    }
}

// The summary of the tree at an earlier place, if the tree with these contents has its entries, some
// of them with other object names.
fn earlier_sum(
    objects: &[RawObject],
    index: &IndexMap<Name, usize>,
    place: usize,
    sums: &[Summary],
    earlier: usize,
    bytes: &[u8],
) -> Option<Summary>
    ensures { AreGoodBefore (objects_in (objects_of objects.now) index.now.entries) place sums.now
        → IfSome result (IsGoodAt (objects_in (objects_of objects.now) index.now.entries) place
        sums.now Kind.Tree bytes.now) }
{
    let sum = sums.get(earlier)?;
    let (_, number) = index.get_index(earlier)?;
    if !is_kind(objects, *number, Kind::Tree) {
        return None;
    }
    let (_, old) = content_at(objects, *number);
    if !is_alike(objects, index, place, sums, old, bytes) {
        return None;
    }
    Some(*sum)
}

// The summary of the tree with these contents, if it is good. A tree that is like an earlier one is
// not read.
fn contents_sum(
    alloc: Global,
    objects: &[RawObject],
    index: &IndexMap<Name, usize>,
    place: usize,
    sums: &[Summary],
    last: &mut LastTrees,
    bytes: &[u8],
) -> Result<Option<Summary>, Memory>
    ensures { AreGoodBefore (objects_in (objects_of objects.now) index.now.entries) place sums.now
        → IfOk result (λ r. IfSome r (IsGoodAt (objects_in (objects_of objects.now)
        index.now.entries) place sums.now Kind.Tree bytes.now)) }
{
    let earlier = last.replace(bytes, place);
    match earlier_sum(objects, index, place, sums, earlier, bytes) {
        Some(sum) => Ok(Some(sum)),
        None => read_sum(alloc, objects, index, place, sums, bytes),
    }
}

fn is_good_commit(
    alloc: Global,
    objects: &[RawObject],
    index: &IndexMap<Name, usize>,
    place: usize,
    bytes: &[u8],
) -> Result<bool, Memory>
    ensures text { IfOk result (λ b. OnTrue b (IsText Kind.Commit bytes.now)) }
    ensures stands { IfOk result (λ b. OnTrue b (All (StandsBefore
        (objects_in (objects_of objects.now) index.now.entries) place)
        (references_of Kind.Commit bytes.now))) }
{
    match read_commit(alloc, bytes) {
        Ok(Some(parts)) => {
            if parts.ancestors.as_slice().len() > PARENTS_LIMIT {
                return Ok(false);
            }
            Ok(commit_stands(objects, index, place, &parts))
        }
        Ok(None) => Ok(false),
        Err(refused) => Err(refused),
    }
}

fn is_good_tag(
    alloc: Global,
    objects: &[RawObject],
    index: &IndexMap<Name, usize>,
    place: usize,
    bytes: &[u8],
) -> Result<bool, Memory>
    ensures text { IfOk result (λ b. OnTrue b (IsText Kind.Tag bytes.now)) }
    ensures stands { IfOk result (λ b. OnTrue b (All (StandsBefore
        (objects_in (objects_of objects.now) index.now.entries) place)
        (references_of Kind.Tag bytes.now))) }
{
    match read_tag(alloc, bytes) {
        Ok(Some(parts)) => {
            if parts.name.len() > TAG_NAME_LIMIT {
                return Ok(false);
            }
            Ok(stands_before(objects, index, place, &parts.target, parts.kind))
        }
        Ok(None) => Ok(false),
        Err(refused) => Err(refused),
    }
}

// The summary of an object that is good at a place; `None` if it is not. An object that is no tree
// has no files.
fn text_sum(
    alloc: Global,
    objects: &[RawObject],
    index: &IndexMap<Name, usize>,
    place: usize,
    sums: &[Summary],
    last: &mut LastTrees,
    kind: Kind,
    bytes: &[u8],
) -> Result<Option<Summary>, Memory>
    ensures { AreGoodBefore (objects_in (objects_of objects.now) index.now.entries) place sums.now
        → IfOk result (λ r. IfSome r (IsGoodAt (objects_in (objects_of objects.now)
        index.now.entries) place sums.now kind bytes.now)) }
{
    match kind {
        Kind::Blob => Ok(Some(no_files())),
        Kind::Tree => contents_sum(alloc, objects, index, place, sums, last, bytes),
        Kind::Commit => {
            let good = is_good_commit(alloc, objects, index, place, bytes)?;
            Ok(if good { Some(no_files()) } else { None })
        }
        Kind::Tag => {
            let good = is_good_tag(alloc, objects, index, place, bytes)?;
            Ok(if good { Some(no_files()) } else { None })
        }
    }
}

// Whether the object at a place is good. Its summary is then added.
fn add_at(
    alloc: Global,
    objects: &[RawObject],
    index: &IndexMap<Name, usize>,
    place: usize,
    sums: &mut Vec<Summary>,
    last: &mut LastTrees,
) -> Result<bool, Memory>
    ensures content { AreGoodBefore (objects_in (objects_of objects.now) index.now.entries) place
        sums.old.items → IfOk result (λ b. OnTrue b (IsContent (object_at place
        (objects_in (objects_of objects.now) index.now.entries)).content)) }
    ensures joins { AreGoodBefore (objects_in (objects_of objects.now) index.now.entries) place
        sums.old.items → IfOk result (λ b. OnTrue b (
        let os = objects_in (objects_of objects.now) index.now.entries in
        let o = object_at place os in Joins os place o.content.kind o.content.bytes
        sums.old.items sums.new.items)) }
{
    let Some((_, number)) = index.get_index(place) else {
        return Ok(false);
    };
    let (kind, bytes) = content_at(objects, *number);
    if bytes.len() > CONTENTS_LIMIT {
        return Ok(false);
    }
    let Some(sum) = text_sum(alloc, objects, index, place, sums, last, kind, bytes)? else {
        return Ok(false);
    };
    sums.push(sum)?;
    Ok(true)
}

/// Adds the summaries of a tenant's other objects to those of its first ones, if all are good: each
/// has contents of its kind within the limits, what it refers to stands before it, and each tree
/// fits after those before it. `index` has the numbers of the tenant's objects under their names, in
/// the tenant's order, and `objects` are all objects of the file.
///
/// `false` says nothing. `Memory` (90) if there is no memory to read an object or for the summary of
/// each object. Some summaries may then have been added.
pub fn add_sums(
    alloc: Global,
    objects: &[RawObject],
    index: &IndexMap<Name, usize>,
    sums: &mut Vec<Summary>,
    last: &mut LastTrees,
) -> Result<bool, Memory>
    ensures { AreGoodFirst (objects_in (objects_of objects.now) index.now.entries) sums.old.items
        → length sums.old.items ≤ length index.now.entries → IfOk result (λ b. OnTrue b
        (AreGoodFirst (objects_in (objects_of objects.now) index.now.entries) sums.new.items
        × (length sums.new.items ≡ length index.now.entries))) }
{
    for place in sums.len()..index.len() {
        if !add_at(alloc, objects, index, place, sums, last)? {
            return Ok(false);
        }
    }
    Ok(true)
}
