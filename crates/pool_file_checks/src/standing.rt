//! Whether the objects to which an object refers stand before it, with the right kind.

ghost use Rattle.std.specs.Prelude.{◌≡◌, ◌↔◌, IfSome, IsSome, IsTrue, All};
ghost use Rattle.git_model.specs.References.{reference, commit_references, place_of};
ghost use Rattle.git_model.specs.GoodRepository.{StandsBefore};
ghost use Rattle.git_objects.specs.Parts.{entry_of, entries_of, commit_of};
ghost use Rattle.pool_file_checks.specs.{Connecting.{EntryStands}, Own.{content_at, objects_in}};
ghost use Rattle.pool_file_format.specs.Shown.{objects_of};
ghost use Rattle.git_model.specs.declared.kind.Kind.TheVariants as kind;

use crate::naming::content_at;
use git_names::Name;
use git_objects::{CommitParts, FileMode, Kind, TreeEntry, kind_of_mode};
use indexmap::IndexMap;
use pool_file_format::RawObject;

/// Whether the object with this number has this kind.
pub fn is_kind(objects: &[RawObject], number: usize, kind: Kind) -> bool
    ensures { IsTrue result ↔ ((content_at (objects_of objects.now) number).kind ≡ kind) }
{
    content_at(objects, number).0 == kind
}

/// The place of the object with this name, if it stands before a place and has this kind.
pub fn place_before(
    objects: &[RawObject],
    index: &IndexMap<Name, usize>,
    place: usize,
    id: &Name,
    kind: Kind,
) -> Option<usize>
    ensures stands { IsSome result ↔ StandsBefore
        (objects_in (objects_of objects.now) index.now.entries) place (reference kind id.now) }
    ensures earlier { IfSome result (λ earlier. place_of id.now
        (objects_in (objects_of objects.now) index.now.entries) ≡ earlier) }
{
    let Some((earlier, _, number)) = index.get_full(id) else {
        return None;
    };
    if place <= earlier {
        return None;
    }
    if !is_kind(objects, *number, kind) {
        return None;
    }
    Some(earlier)
}

/// Whether an object with this name stands before a place, and has this kind.
pub fn stands_before(
    objects: &[RawObject],
    index: &IndexMap<Name, usize>,
    place: usize,
    id: &Name,
    kind: Kind,
) -> bool
    ensures { IsTrue result ↔ StandsBefore (objects_in (objects_of objects.now) index.now.entries)
        place (reference kind id.now) }
{
    place_before(objects, index, place, id, kind).is_some()
}

/// Whether what an entry names stands before a place. A gitlink names nothing here.
pub fn entry_stands(
    objects: &[RawObject],
    index: &IndexMap<Name, usize>,
    place: usize,
    entry: &TreeEntry<'_>,
) -> bool
    ensures { IsTrue result ↔ EntryStands (objects_in (objects_of objects.now) index.now.entries)
        place (entry_of entry.now) }
{
    match entry.mode {
        FileMode::Gitlink => true,
        mode => stands_before(objects, index, place, &entry.id, kind_of_mode(mode)),
    }
}

/// Whether the objects that the entries of a tree name stand before a place. Gitlinks are skipped.
pub fn entries_stand(
    objects: &[RawObject],
    index: &IndexMap<Name, usize>,
    place: usize,
    entries: &[TreeEntry<'_>],
) -> bool
    ensures { IsTrue result
        ↔ All (EntryStands (objects_in (objects_of objects.now) index.now.entries)
        place) (entries_of entries.now) }
{
    for entry in entries {
        if !entry_stands(objects, index, place, entry) {
            return false;
        }
    }
    true
}

fn parents_stand(
    objects: &[RawObject],
    index: &IndexMap<Name, usize>,
    place: usize,
    parents: &[Name],
) -> bool
    ensures { IsTrue result ↔ All (λ id. StandsBefore (objects_in (objects_of objects.now)
        index.now.entries) place (reference kind.Commit id)) parents.now }
{
    for parent in parents {
        if !stands_before(objects, index, place, parent, Kind::Commit) {
            return false;
        }
    }
    true
}

/// Whether the tree and the parents of a commit stand before a place.
pub fn commit_stands(
    objects: &[RawObject],
    index: &IndexMap<Name, usize>,
    place: usize,
    parts: &CommitParts<'_>,
) -> bool
    ensures { IsTrue result ↔ All (StandsBefore (objects_in (objects_of objects.now)
        index.now.entries) place) (commit_references (commit_of parts.now)) }
{
    if !stands_before(objects, index, place, &parts.tree, Kind::Tree) {
        return false;
    }
    parents_stand(objects, index, place, &parts.ancestors)
}
