//! What stands at a path of a stored tree: gitrevisions(7), `<rev>:<path>`. Only the trees along
//! the path are read.

ghost use Rattle.std.specs.{Prelude.{◌≡◌, IfOk, find}, Option.{option_map}, Str.{bytes_eq}};
ghost use Rattle.git_model.specs.{HeldObjects.{AreHeld}, Readable.{IsReadable}};
ghost use Rattle.git_model.specs.StoredPath.{entries_in, entries_of, entries_below, entry_below};
ghost use Rattle.git_objects.specs.Parts.{entry_of};

use crate::contents::entry_in;
use git_objects::{FileMode, Kind, Memory, Name, Naming, TreeEntry};
use git_paths::Path;
use std::alloc::Global;
use tenant_tables::Objects;

// The entry of this name in an object of this kind with these contents.
fn entry_from<'a>(
    alloc: Global,
    kind: Kind,
    contents: &'a [u8],
    name: &[u8],
) -> Result<Option<TreeEntry<'a>>, Memory>
    ensures { IsReadable kind contents.now
        → IfOk result (λ r. option_map entry_of r
        ≡ find (λ inner. bytes_eq inner.name name.now) (entries_in kind contents.now)) }
{
    match kind {
        Kind::Tree => entry_in(alloc, contents, name),
        _ => Ok(None),
    }
}

// The direct entry of this name of a tree; no other object has any.
fn entry_named<'a, N: Naming>(
    alloc: Global,
    objects: &Objects<'a, N>,
    tree: &Name,
    name: &[u8],
) -> Result<Option<TreeEntry<'a>>, Memory>
    ensures { AreHeld N.digest_of objects.now
        → IfOk result (λ r. option_map entry_of r
        ≡ find (λ inner. bytes_eq inner.name name.now) (entries_of objects.now tree.now)) }
{
    match objects.get(tree) {
        Some((kind, contents)) => entry_from(alloc, kind, contents, name),
        None => Ok(None),
    }
}

// The entry of this name directly below an entry.
fn inner_entry<'a, N: Naming>(
    alloc: Global,
    objects: &Objects<'a, N>,
    entry: &TreeEntry<'a>,
    name: &[u8],
) -> Result<Option<TreeEntry<'a>>, Memory>
    ensures { AreHeld N.digest_of objects.now
        → IfOk result (λ r. option_map entry_of r
        ≡ find (λ inner. bytes_eq inner.name name.now)
        (entries_below objects.now entry.now.mode entry.now.id)) }
{
    match entry.mode {
        FileMode::Directory => entry_named(alloc, objects, &entry.id, name),
        _ => Ok(None),
    }
}

/// What is at a path below an entry: the entry itself at the empty path; `None` where nothing is
/// there.
///
/// `Memory` (90) where there is no room to read a tree on the way. The objects are held; among
/// others the answer is not specified.
pub fn entry_below<'a, N: Naming>(
    alloc: Global,
    objects: &Objects<'a, N>,
    path: &Path,
    entry: &TreeEntry<'a>,
) -> Result<Option<TreeEntry<'a>>, Memory>
    ensures { AreHeld N.digest_of objects.now
        → IfOk result (λ r. option_map entry_of r
        ≡ entry_below objects.now path.now (entry_of entry.now)) }
{
    let TreeEntry { mode, name, id } = *entry;
    let mut at = TreeEntry { mode, name, id };
    let mut rest = path.components();
    'way: while let Some((name, after)) = rest.split_first() {
        match inner_entry(alloc, objects, &at, name) {
            Ok(Some(inner)) => at = inner,
            Ok(None) => return Ok(None),
            Err(refused) => return Err(refused),
        }
        rest = after;
    }
    Ok(Some(at))
}
