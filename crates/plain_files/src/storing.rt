//! Storing the trees that files make, children first.

ghost use Rattle.std.specs.Prelude.{◌≡◌, ◌≤◌, None, Some, OnOk};
ghost use Rattle.tenant_tables.specs.{IsBackedBy.{IsBackedBy}, View.{summary_of}};
ghost use Rattle.file_maps.specs.{declared.entry.Entry.{Entry}, Below.{group_trees}};
ghost use Rattle.file_maps.specs.Trees.{entries_within, trees_within, nested_trees, tree_id};
ghost use Rattle.file_maps.specs.Trees.{tree_name, depth_of, file_of, grouped};
ghost use Rattle.file_maps.specs.Storing.{StoresTrees, HasHoldsLeftBeside};
ghost use Rattle.file_maps.specs.Storable.{files_summary, longest_of, AreStorable};
ghost use Rattle.plain_files.specs.Below.{files_below, group_of, groups_of, id_of};
ghost use Rattle.plain_files.specs.Storable.{IsStorableGroup, IsKnownGroup};

use crate::below::{Below, Group, depth_of, file_of, grouped};
use crate::naming::entry_by;
use content_pool::Pool;
use file_maps::{Fault, add_entries};
use git_objects::{Name, Naming, has_twenty_bytes};
use std::alloc::Global;
use tenant_tables::{Summary, Table};

// The most components of a path, and the most bytes.
fn extent_of(files: &[Below<'_>]) -> (usize, usize)
    ensures depth { result.0 ≡ depth_of (files_below files.now) }
    ensures longest { result.1 ≡ longest_of (files_below files.now) }
{
    let mut depth = 0;
    let mut longest = 0;
    for file in files {
        depth = depth.max(file.path.len());
        longest = longest.max(file.path.as_bytes().len());
    }
    (depth, longest)
}

/// The summary of the tree of these files.
fn summary_of(files: &[Below<'_>]) -> Summary
    requires { AreStorable (files_below files.now) }
    ensures { result ≡ files_summary (files_below files.now) }
{
    let (depth, longest) = extent_of(files);
    Summary {
        files: files.len() as u32,
        depth: depth as u32,
        longest: longest as u32,
    }
}

/// Stores the trees of files whose paths have at most `deep` components, and answers the name of
/// the last one, which is the tree of all.
#[cycle(storing)]
pub(crate) fn store_trees<N: Naming>(
    alloc: Global,
    pool: &mut Pool<N>,
    table: &mut Table,
    deep: usize,
    files: &[Below<'_>],
) -> Result<Name, Fault>
    requires deep { depth_of (files_below files.now) ≤ deep }
    requires files { AreStorable (files_below files.now) }
    requires stands { IsBackedBy N.digest_of pool.old table.old.entries }
    requires room { HasHoldsLeftBeside pool.old table.old.entries }
    ensures stores { StoresTrees result N.digest_of pool.old table.old pool.new table.new
        (trees_within N.digest_of deep (files_below files.now))
        (tree_name N.digest_of (entries_within N.digest_of deep (files_below files.now))) }
    ensures known { OnOk result (summary_of
        (tree_name N.digest_of (entries_within N.digest_of deep (files_below files.now)))
        table.new.entries ≡ Some (files_summary (files_below files.now))) }
{
    let groups = match grouped(alloc, files) {
        Ok(groups) => groups,
        Err(_) => return Err(Fault::Memory),
    };
    store_groups(alloc, pool, table, deep, files, &groups)
}

// Stores the trees of these files, which make these groups.
#[cycle(storing)]
fn store_groups<N: Naming>(
    alloc: Global,
    pool: &mut Pool<N>,
    table: &mut Table,
    deep: usize,
    files: &[Below<'_>],
    groups: &[Group<'_>],
) -> Result<Name, Fault>
    requires deep { depth_of (files_below files.now) ≤ deep }
    requires files { AreStorable (files_below files.now) }
    requires groups { groups_of groups.now ≡ grouped (files_below files.now) }
    requires stands { IsBackedBy N.digest_of pool.old table.old.entries }
    requires room { HasHoldsLeftBeside pool.old table.old.entries }
    ensures stores { StoresTrees result N.digest_of pool.old table.old pool.new table.new
        (trees_within N.digest_of deep (files_below files.now))
        (tree_name N.digest_of (entries_within N.digest_of deep (files_below files.now))) }
    ensures known { OnOk result (summary_of
        (tree_name N.digest_of (entries_within N.digest_of deep (files_below files.now)))
        table.new.entries ≡ Some (files_summary (files_below files.now))) }
{
    let mut entries = Vec::new(alloc);
    for group in groups {
        let id = match store_group(alloc, pool, table, deep - 1, group) {
            Ok(id) => id,
            Err(refusal) => return Err(refusal),
        };
        has_twenty_bytes(&id);
        if entries.push(entry_by(group, id)).is_err() {
            return Err(Fault::Memory);
        }
    }
    add_entries(alloc, pool, table, &entries, summary_of(files))
}

// Stores the trees of a group, and answers the name of its object.
#[cycle(storing)]
fn store_group<N: Naming>(
    alloc: Global,
    pool: &mut Pool<N>,
    table: &mut Table,
    deep: usize,
    group: &Group<'_>,
) -> Result<Name, Fault>
    requires group { IsStorableGroup deep (group_of group.now) }
    requires stands { IsBackedBy N.digest_of pool.old table.old.entries }
    requires room { HasHoldsLeftBeside pool.old table.old.entries }
    ensures stores { StoresTrees result N.digest_of pool.old table.old pool.new table.new
        (group_trees N.digest_of deep (group_of group.now))
        (id_of N.digest_of deep (group_of group.now)) }
    ensures known { OnOk result (IsKnownGroup N.digest_of deep table.new.entries
        (group_of group.now)) }
{
    match file_of(&group.below) {
        Some(file) => Ok(file.name),
        None => store_trees(alloc, pool, table, deep, &group.below),
    }
}

/// Stores the trees of files below a directory, and answers the name of the last one. Where the
/// only file is at the path itself, that is the empty tree.
pub(crate) fn store_files<N: Naming>(
    alloc: Global,
    pool: &mut Pool<N>,
    table: &mut Table,
    files: &[Below<'_>],
) -> Result<Name, Fault>
    requires files { file_of (files_below files.now) ≡ None → AreStorable (files_below files.now) }
    requires file { (e : Entry) → file_of (files_below files.now) ≡ Some e
        → depth_of (files_below files.now) ≡ 0 }
    requires stands { IsBackedBy N.digest_of pool.old table.old.entries }
    requires room { HasHoldsLeftBeside pool.old table.old.entries }
    ensures { StoresTrees result N.digest_of pool.old table.old pool.new table.new
        (nested_trees N.digest_of (files_below files.now))
        (tree_id N.digest_of (files_below files.now)) }
{
    match file_of(files) {
        Some(_) => store_trees(alloc, pool, table, 0, &[]),
        None => store_trees(alloc, pool, table, depth_of(files), files),
    }
}
