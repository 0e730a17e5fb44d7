//! Files below a directory, and the groups that they make by their first components.

ghost use Rattle.std.specs.Prelude.{◌≡◌, ◌≤◌, [], ◌∷◌, length, IfOk, MatchOption, ◌&&◌, not};
ghost use Rattle.std.specs.{List.{prefix_len}, Option.{option_map}};
ghost use Rattle.file_maps.specs.Edits.{cut, is_root, is_empty};
ghost use Rattle.file_maps.specs.Trees.{grouped, file_of, depth_of};
ghost use Rattle.plain_files.specs.Below.{file_below, files_below, groups_of, split_first};
ghost use Rattle.plain_files.specs.Below.{next_name, goes_with, group_of, IsNextGroup};
ghost use Rattle.git_paths.specs.Paths.{strip_prefix};

use crate::map::Entries;
use file_maps::Entry;
use git_paths::{Components, Path};
use std::alloc::{AllocError, Global};

/// A file below a directory, with the part of its path that follows the directory's path.
#[derive(Drop)]
pub(crate) struct Below<'a> {
    pub path: Components<'a>,
    pub entry: Entry,
}

/// The files of a directory whose paths have the same first component, with that component cut off.
#[derive(Drop)]
pub(crate) struct Group<'a> {
    pub name: &'a [u8],
    pub below: Vec<Below<'a>>,
}

fn split_first<'a>(file: &Below<'a>) -> Option<(&'a [u8], Below<'a>)>
    ensures { option_map (λ r. (r.0.now, file_below r.1)) result
        ≡ split_first (file_below file.now) }
{
    let (name, path) = file.path.split_first()?;
    let entry = file.entry;
    Some((name, Below { path, entry }))
}

fn next_name<'a>(files: &[Below<'a>]) -> Option<&'a [u8]>
    ensures { option_map (λ name. name.now) result ≡ next_name (files_below files.now) }
{
    for file in files {
        match split_first(file) {
            Some((name, _)) => return Some(name),
            None => {}
        }
    }
    None
}

fn goes_with(name: &[u8], file: &Below<'_>) -> bool
    ensures { result ≡ goes_with name.now file.now.path }
{
    match split_first(file) {
        Some((first, _)) => name == first,
        None => true,
    }
}

fn run_length(name: &[u8], files: &[Below<'_>]) -> usize
    ensures len { result ≡ prefix_len (λ f. goes_with name.now f.path) files.now }
    ensures within { result ≤ length files.now }
{
    files
        .iter()
        .take_while(|file| goes_with(name, file))
        .count()
}

fn cut_off<'a>(name: &[u8], file: &Below<'a>) -> Option<Below<'a>>
    ensures { option_map file_below result
        ≡ option_map (λ rest. (rest, file.now.entry)) (strip_prefix (name.now ∷ []) file.now.path) }
{
    let (first, rest) = split_first(file)?;
    if name == first { Some(rest) } else { None }
}

fn cut_run<'a>(
    alloc: Global,
    name: &[u8],
    files: &[Below<'a>],
) -> Result<Vec<Below<'a>>, AllocError>
    ensures { IfOk result (λ v. files_below v.items
        ≡ cut (name.now ∷ []) (files_below files.now)) }
{
    let mut below = Vec::new(alloc);
    for file in files {
        match cut_off(name, file) {
            Some(rest) => below.push(rest)?,
            None => {}
        }
    }
    Ok(below)
}

// The first group of these files, and how many of the first files it covers.
fn next_group<'a>(
    alloc: Global,
    files: &[Below<'a>],
) -> Result<Option<(Group<'a>, usize)>, AllocError>
    ensures { IfOk result (λ o. MatchOption o (grouped (files_below files.now) ≡ [])
        (λ r. IsNextGroup files.now (group_of r.0) r.1)) }
{
    match next_name(files) {
        Some(name) => {
            let length = run_length(name, files);
            let below = cut_run(alloc, name, files.split_at(length).0)?;
            Ok(Some((Group { name, below }, length)))
        }
        None => Ok(None),
    }
}

/// Groups files, in the order of their paths, by their first components.
pub(crate) fn grouped<'a>(alloc: Global, files: &[Below<'a>]) -> Result<Vec<Group<'a>>, AllocError>
    ensures { IfOk result (λ groups. groups_of groups.items ≡ grouped (files_below files.now)) }
{
    let mut groups = Vec::new(alloc);
    let mut start = 0;
    while start < files.len() {
        match next_group(alloc, files.split_at(start).1)? {
            Some((group, length)) => {
                groups.push(group)?;
                start += length;
            }
            None => start = files.len(),
        }
    }
    Ok(groups)
}

/// The entry of a group that is a file; `None` where it is a directory.
pub(crate) fn file_of(files: &[Below<'_>]) -> Option<Entry>
    ensures { result ≡ file_of (files_below files.now) }
{
    match files {
        [] => None,
        [first, ..] => match split_first(first) {
            Some(_) => None,
            None => Some(first.entry),
        },
    }
}

/// The most components of any of these paths; 0 where there are none.
pub(crate) fn depth_of(files: &[Below<'_>]) -> usize
    ensures { result ≡ depth_of (files_below files.now) }
{
    let mut deep = 0;
    for file in files {
        deep = deep.max(file.path.len());
    }
    deep
}

/// The files of a map at or below a path.
pub(crate) fn files_at<'a>(
    alloc: Global,
    map: &'a Entries,
    top: &Path,
) -> Result<Vec<Below<'a>>, AllocError>
    ensures { IfOk result (λ v. files_below v.items ≡ cut top.now map.now.entries) }
{
    let mut files = Vec::new(alloc);
    for (path, entry) in map {
        match path.strip_prefix(top) {
            Some(path) => files.push(Below {
                path,
                entry: *entry,
            })?,
            None => {}
        }
    }
    Ok(files)
}

/// Whether a path has no files and is not the root.
#[tactic(auto, using(crate::proofs::Empty::empties))]
pub(crate) fn is_nowhere(path: &Path, files: &[Below<'_>]) -> bool
    ensures { result ≡ (is_empty (files_below files.now) && not (is_root path.now)) }
{
    files.is_empty() && !path.is_root()
}
