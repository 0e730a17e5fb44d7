//! The names of the trees that files make, without storing them.

ghost use Rattle.std.specs.Prelude.{◌≡◌, [], map, IfOk, OnOk};
ghost use Rattle.git_objects.specs.Parts.{entry_of, entries_of};
ghost use Rattle.file_maps.specs.{Edits.{is_root}, Below.{direct_of}};
ghost use Rattle.file_maps.specs.Trees.{entries_within, tree_name, file_of, entry_or};
ghost use Rattle.plain_files.specs.Below.{files_below, group_of, groups_of, entry_by, id_of};

use crate::below::{Below, Group, depth_of, file_of, grouped, is_nowhere};
use content_pool::Pool;
use file_maps::{Entry, contents_of};
use git_objects::{FileMode, Kind, Memory, Name, Naming, TreeEntry};
use git_paths::Path;
use std::alloc::Global;

/// The entry of a group, with the name of its object.
pub(crate) fn entry_by<'a>(group: &Group<'a>, id: Name) -> TreeEntry<'a>
    ensures { entry_of result ≡ entry_by (group_of group.now) id }
{
    let name = group.name;
    match file_of(&group.below) {
        Some(file) => TreeEntry {
            mode: file.mode,
            name,
            id,
        },
        None => TreeEntry {
            mode: FileMode::Directory,
            name,
            id,
        },
    }
}

// The name of the tree with these entries.
fn name_of_entries<N: Naming>(
    alloc: Global,
    pool: &Pool<N>,
    entries: &[TreeEntry<'_>],
) -> Result<Name, Memory>
    ensures { IfOk result (λ id. id ≡ tree_name N.digest_of (entries_of entries.now)) }
{
    let contents = contents_of(alloc, entries)?;
    pool.name_of(Kind::Tree, &contents)
}

/// The name of the tree of these files, whose paths have at most `deep` components.
#[cycle(naming)]
pub(crate) fn tree_id<N: Naming>(
    alloc: Global,
    pool: &Pool<N>,
    deep: usize,
    files: &[Below<'_>],
) -> Result<Name, Memory>
    ensures { IfOk result (λ id. id
        ≡ tree_name N.digest_of (entries_within N.digest_of deep (files_below files.now))) }
{
    if deep == 0 {
        return pool.name_of(Kind::Tree, &[]);
    }
    match grouped(alloc, files) {
        Ok(groups) => tree_of_groups(alloc, pool, deep - 1, &groups),
        Err(_) => Err(Memory),
    }
}

// The name of the tree of these groups.
#[cycle(naming)]
fn tree_of_groups<N: Naming>(
    alloc: Global,
    pool: &Pool<N>,
    deep: usize,
    groups: &[Group<'_>],
) -> Result<Name, Memory>
    ensures { IfOk result (λ id. id
        ≡ tree_name N.digest_of (map (direct_of N.digest_of deep) (groups_of groups.now))) }
{
    let mut entries = Vec::new(alloc);
    match push_entries(alloc, pool, deep, groups, &mut entries) {
        Ok(()) => name_of_entries(alloc, pool, &entries),
        Err(_) => Err(Memory),
    }
}

// Fills an empty list with the entries of these groups.
#[cycle(naming)]
fn push_entries<'a, N: Naming>(
    alloc: Global,
    pool: &Pool<N>,
    deep: usize,
    groups: &[Group<'a>],
    entries: &mut Vec<TreeEntry<'a>>,
) -> Result<(), Memory>
    requires { entries.old.items ≡ [] }
    ensures { OnOk result (entries_of entries.new.items
        ≡ map (direct_of N.digest_of deep) (groups_of groups.now)) }
{
    for group in groups {
        let id = id_of(alloc, pool, deep, group)?;
        if entries.push(entry_by(group, id)).is_err() {
            return Err(Memory);
        }
    }
    Ok(())
}

#[cycle(naming)]
fn id_of<N: Naming>(
    alloc: Global,
    pool: &Pool<N>,
    deep: usize,
    group: &Group<'_>,
) -> Result<Name, Memory>
    ensures { IfOk result (λ id. id ≡ id_of N.digest_of deep (group_of group.now)) }
{
    match file_of(&group.below) {
        Some(file) => Ok(file.name),
        None => tree_id(alloc, pool, deep, &group.below),
    }
}

/// What is at a path, given the files at or below it with their paths from there.
pub(crate) fn entry_of<N: Naming>(
    alloc: Global,
    pool: &Pool<N>,
    path: &Path,
    files: &[Below<'_>],
) -> Result<Option<Entry>, Memory>
    ensures { let files = files_below files.now in
        IfOk result (λ o. o ≡ entry_or N.digest_of (is_root path.now) files (file_of files)) }
{
    match file_of(files) {
        Some(file) => Ok(Some(file)),
        None => {
            if is_nowhere(path, files) {
                return Ok(None);
            }
            let name = tree_id(alloc, pool, depth_of(files), files)?;
            let mode = FileMode::Directory;
            Ok(Some(Entry { mode, name }))
        }
    }
}
