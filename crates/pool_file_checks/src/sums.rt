//! The sizes of a tenant's trees: how many files, how deep, how long a path.

ghost use Rattle.std.specs.Prelude.{◌≡◌, ◌≢◌, ◌↔◌, [], ◌∷◌, IfOk, IsTrue};
ghost use Rattle.git_model.specs.TreeReading.{tree_read};
ghost use Rattle.git_objects.specs.Parts.{entry_of, entries_of};
ghost use Rattle.tenant_tables.specs.Trees.{no_files, below, one_file, both};
ghost use Rattle.pool_file_checks.specs.{Checks.{Checked}, Own.{objects_in}};
ghost use Rattle.pool_file_checks.specs.Sums.{AddsSum, EntryFits, Fits, FitsAfter, IsWithin};
ghost use Rattle.pool_file_checks.specs.Sums.{SumWhere, TreesFit, sum_of_entry, sum_of_tree};
ghost use Rattle.pool_file_format.specs.Shown.{objects_of};

use crate::naming::content_at;
use git_names::Name;
use git_objects::{FileMode, Kind, Memory, TreeEntry, read_tree};
use indexmap::IndexMap;
use pool_file_format::{Fault, RawObject, Refusal};
use std::alloc::Global;
use tenant_tables::Summary;

// How many files a tree may have.
const FILES_LIMIT: u32 = 1_048_576;

// How many components a path may have.
const DEPTH_LIMIT: u32 = 256;

// How many bytes a path may have.
const PATH_LIMIT: u32 = 16_383;

fn is_within(sum: Summary) -> bool
    ensures { IsTrue result ↔ IsWithin sum }
{
    sum.files <= FILES_LIMIT && sum.depth <= DEPTH_LIMIT && sum.longest <= PATH_LIMIT
}

// The sum, if it is within the limits.
fn kept(sum: Summary) -> Option<Summary>
    ensures { SumWhere (IsWithin sum) sum result }
{
    if is_within(sum) { Some(sum) } else { None }
}

/// The sum of no files.
pub fn no_files() -> Summary
    ensures { result ≡ no_files }
{
    Summary {
        files: 0,
        depth: 0,
        longest: 0,
    }
}

/// The sum of one file of this name, if it is within the limits.
pub fn one_file(name: &[u8]) -> Option<Summary>
    ensures { SumWhere (IsWithin (one_file name.now)) (one_file name.now) result }
{
    if name.len() > PATH_LIMIT as usize {
        return None;
    }
    Some(Summary {
        files: 1,
        depth: 1,
        longest: name.len() as u32,
    })
}

/// The sum of a directory's tree with the directory's name before each path; `None` if the tree has
/// no files or a limit is passed. A sum past a limit is not added to, so that nothing wraps.
pub fn below(name: &[u8], tree: Summary) -> Option<Summary>
    ensures { SumWhere ((tree.files ≢ 0) × IsWithin (below name.now tree))
        (below name.now tree) result }
{
    if tree.files == 0 || !is_within(tree) || name.len() > PATH_LIMIT as usize {
        return None;
    }
    kept(Summary {
        files: tree.files,
        depth: 1 + tree.depth,
        longest: name.len() as u32 + 1 + tree.longest,
    })
}

/// The sum of both, if it is within the limits.
pub fn both(first: Summary, second: Summary) -> Option<Summary>
    requires first { IsWithin first }
    requires second { IsWithin second }
    ensures { SumWhere (IsWithin (both first second)) (both first second) result }
{
    kept(Summary {
        files: first.files + second.files,
        depth: first.depth.max(second.depth),
        longest: first.longest.max(second.longest),
    })
}

// What an entry adds. The tree of a directory is looked up among the sums so far.
fn entry_sum(sums: &IndexMap<Name, Summary>, entry: &TreeEntry<'_>) -> Option<Summary>
    ensures { SumWhere (EntryFits sums.now.entries (entry_of entry.now))
        (sum_of_entry sums.now.entries (entry_of entry.now)) result }
{
    match entry.mode {
        FileMode::Directory => below(entry.name, *sums.get(&entry.id)?),
        _ => one_file(entry.name),
    }
}

fn tree_sum(sums: &IndexMap<Name, Summary>, entries: &[TreeEntry<'_>]) -> Option<Summary>
    ensures { SumWhere (FitsAfter sums.now.entries (entries_of entries.now))
        (sum_of_tree sums.now.entries (entries_of entries.now)) result }
{
    let mut sum = no_files();
    for entry in entries {
        sum = both(sum, entry_sum(sums, entry)?)?;
    }
    Some(sum)
}

// The sum of the tree with these contents.
fn contents_sum(
    alloc: Global,
    sums: &IndexMap<Name, Summary>,
    bytes: &[u8],
) -> Result<Option<Summary>, Memory>
    ensures { IfOk result (SumWhere (Fits Kind.Tree bytes.now sums.now.entries)
        (sum_of_tree sums.now.entries (tree_read bytes.now))) }
{
    match read_tree(alloc, bytes)? {
        Some(entries) => Ok(tree_sum(sums, &entries)),
        None => Ok(None),
    }
}

// Adds the sum of a tree.
fn add_tree(
    alloc: Global,
    sums: &mut IndexMap<Name, Summary>,
    id: Name,
    bytes: &[u8],
) -> Result<(), Fault>
    ensures { AddsSum Kind.Tree id bytes.now sums.old.entries result sums.new.entries }
{
    let Some(sum) = contents_sum(alloc, sums, bytes)? else {
        return Err(Fault::Refused(Refusal::BadObject));
    };
    sums.insert(id, sum)?;
    Ok(())
}

/// Adds the sum of an object to `sums` if the object is a tree. `sums` are those of the trees
/// before it, under their names.
///
/// `Refused` with `BadObject` (65) if `check_sums` would refuse the tree after these. `Memory` (90)
/// if there is no memory to read it or to note its sum.
pub fn add_object(
    alloc: Global,
    sums: &mut IndexMap<Name, Summary>,
    id: Name,
    kind: Kind,
    bytes: &[u8],
) -> Result<(), Fault>
    ensures { AddsSum kind id bytes.now sums.old.entries result sums.new.entries }
{
    match kind {
        Kind::Tree => add_tree(alloc, sums, id, bytes),
        Kind::Blob => Ok(()),
        Kind::Commit => Ok(()),
        Kind::Tag => Ok(()),
    }
}

/// Judges the sizes of a tenant's trees in turn.
///
/// `objects` are all objects of the file, and `index` has the numbers of the tenant's objects under
/// their names, in the tenant's order.
///
/// `Refused` with `BadObject` (65) if no tree has the contents, if the tree of a directory does not
/// stand before or has no files, or if a tree is past a limit: 1,048,576 files, and 256 components
/// and 16,383 bytes of a path. `Memory` (90) if there is no memory to read a tree or to note its
/// sum.
pub fn check_sums(
    alloc: Global,
    objects: &[RawObject],
    index: &IndexMap<Name, usize>,
) -> Result<(), Fault>
    ensures { Checked ((
      TreesFit [] (objects_in (objects_of objects.now) index.now.entries),
      Refusal.BadObject,
    ) ∷ []) result }
{
    let mut sums = IndexMap::new(alloc);
    for (id, number) in index {
        let (kind, bytes) = content_at(objects, *number);
        add_object(alloc, &mut sums, *id, kind, bytes)?;
    }
    Ok(())
}
