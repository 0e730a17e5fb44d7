//! Maps from whole paths to entries, and how an edit of a file map changes one.

ghost use Rattle.std.specs.Prelude.{◌≡◌, [], ◌∷◌, ◌++◌, length, filter, IfOk, OnOk};
ghost use Rattle.std.specs.{Map.{keys_of}, Option.{option_copied}};
ghost use Rattle.file_maps.specs.{FileMap.{is_apart}, Edits.{cut, moved, is_outside}};
ghost use Rattle.file_maps.specs.Kept.{stays, put_all};

use file_maps::Entry;
use git_objects::Memory;
use git_paths::{Components, Path};
use std::alloc::Global;
use std::collections::BTreeMap;

/// Entries under their whole paths, in the order of the paths' bytes.
pub(crate) type Entries = BTreeMap<Path, Entry>;

fn is_outside(top: &Path, path: &Path) -> bool
    ensures { result ≡ is_outside top.now path.now }
{
    !path.is_at_or_below(top)
}

fn is_apart(top: &Path, path: &Path) -> bool
    ensures { result ≡ is_apart top.now path.now }
{
    !path.is_at_or_below(top) && !top.is_at_or_below(path)
}

/// Whether a path stays when `to` is replaced and `from`, if there is one, is removed.
pub(crate) fn stays(from: Option<&Path>, to: &Path, path: &Path) -> bool
    ensures { result ≡ stays (option_copied from.entry) to.now path.now }
{
    match from {
        Some(from) => is_outside(from, path) && is_apart(to, path),
        None => is_apart(to, path),
    }
}

/// How many paths stay.
pub(crate) fn count_staying(map: &Entries, from: Option<&Path>, to: &Path) -> usize
    ensures { result ≡ length (filter (stays (option_copied from.entry) to.now)
        (keys_of map.now.entries)) }
{
    map.keys().filter(|path| stays(from, to, path)).count()
}

/// Removes what does not stay.
pub(crate) fn retain_staying(map: &mut Entries, from: Option<&Path>, to: &Path)
    ensures { map.new.entries
        ≡ filter (λ f. stays (option_copied from.entry) to.now f.0) map.old.entries }
{
    map.retain(|path, _| stays(from, to, path));
}

/// Removes what is at or below a path.
pub(crate) fn drop_below(map: &mut Entries, top: &Path)
    ensures { map.new.entries ≡ filter (λ f. is_outside top.now f.0) map.old.entries }
{
    map.retain(|path, _| is_outside(top, path));
}

// Appends a file at the path `to` joined with `rest`.
fn push_joined(
    alloc: Global,
    to: &Path,
    rest: &Components<'_>,
    entry: Entry,
    files: &mut Vec<(Path, Entry)>,
) -> Result<(), Memory>
    ensures { OnOk result
        (files.new.items ≡ files.old.items ++ (to.now ++ rest.now, entry) ∷ []) }
{
    let path = to.join(alloc, rest)?;
    files.push((path, entry))?;
    Ok(())
}

// Fills an empty list with the files at or below `from`, at their paths at or below `to`.
fn push_moved(
    alloc: Global,
    map: &Entries,
    from: &Path,
    to: &Path,
    files: &mut Vec<(Path, Entry)>,
) -> Result<(), Memory>
    requires { files.old.items ≡ [] }
    ensures { OnOk result (files.new.items ≡ moved to.now (cut from.now map.now.entries)) }
{
    for (path, entry) in map {
        match path.strip_prefix(from) {
            Some(rest) => push_joined(alloc, to, &rest, *entry, files)?,
            None => {}
        }
    }
    Ok(())
}

/// The files at or below `from`, at their paths at or below `to`.
pub(crate) fn moved(
    alloc: Global,
    map: &Entries,
    from: &Path,
    to: &Path,
) -> Result<Vec<(Path, Entry)>, Memory>
    ensures { IfOk result (λ files. files.items ≡ moved to.now (cut from.now map.now.entries)) }
{
    let mut files = Vec::new(alloc);
    push_moved(alloc, map, from, to, &mut files)?;
    Ok(files)
}

/// One file at a path.
pub(crate) fn one_file(
    alloc: Global,
    path: &Path,
    entry: Entry,
) -> Result<Vec<(Path, Entry)>, Memory>
    ensures { IfOk result (λ files. files.items ≡ (path.now, entry) ∷ []) }
{
    let mut files = Vec::with_capacity(alloc, 1)?;
    files.push((path.copied(alloc)?, entry))?;
    Ok(files)
}

/// Puts files into a map, the last one first.
pub(crate) fn insert_all(map: &mut Entries, mut files: Vec<(Path, Entry)>) -> Result<(), Memory>
    ensures { OnOk result (map.new.entries ≡ put_all map.old.entries files.items) }
{
    while let Some((path, entry)) = files.pop() {
        map.insert(path, entry)?;
    }
    Ok(())
}
