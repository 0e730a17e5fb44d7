//! What the datarefs of a change stand for: git-fast-import(1), "filemodify".

ghost use Rattle.std.specs.Prelude.{◌≡◌};
ghost use Rattle.open_commits.specs.Changes.{blob_of, held_as, link_of, marked_as, tree_of};

use crate::fault::Fault;
use git_objects::{Kind, Name, Naming};
use stream_grammar::{DataRef, Mark};
use stream_marks::Marks;
use tenant_tables::Objects;

// The object of this mark must be of this kind.
fn marked_as(marks: &Marks, wanted: Kind, mark: Mark) -> Result<Name, Fault>
    ensures { result ≡ marked_as marks.now.entries wanted mark }
{
    let Some(object) = marks.get(mark) else {
        return Err(Fault::MarkUnknown);
    };
    if object.kind == wanted {
        Ok(object.name)
    } else {
        Err(Fault::WrongKind)
    }
}

// There must be an object of this name, and it must be of this kind.
fn held_as<N: Naming>(objects: &Objects<N>, wanted: Kind, id: Name) -> Result<Name, Fault>
    ensures { result ≡ held_as objects.now wanted id }
{
    match objects.get(&id) {
        Some((kind, _)) if kind == wanted => Ok(id),
        Some(_) => Err(Fault::WrongKind),
        None => Err(Fault::ObjectUnknown),
    }
}

// The blob of a file, by its mark or its name.
pub fn blob_of<N: Naming>(
    objects: &Objects<N>,
    marks: &Marks,
    object: DataRef,
) -> Result<Name, Fault>
    ensures { result ≡ blob_of objects.now marks.now.entries object }
{
    match object {
        DataRef::Mark(mark) => marked_as(marks, Kind::Blob, mark),
        DataRef::Name(id) => held_as(objects, Kind::Blob, id),
    }
}

// The object of a gitlink: a commit by its mark, or any name.
pub fn link_of(marks: &Marks, object: DataRef) -> Result<Name, Fault>
    ensures { result ≡ link_of marks.now.entries object }
{
    match object {
        DataRef::Mark(mark) => marked_as(marks, Kind::Commit, mark),
        DataRef::Name(id) => Ok(id),
    }
}

// The tree of a directory, by its name alone.
pub fn tree_of<N: Naming>(
    objects: &Objects<N>,
    marks: &Marks,
    object: DataRef,
) -> Result<Name, Fault>
    ensures { result ≡ tree_of objects.now marks.now.entries object }
{
    match object {
        DataRef::Mark(mark) => {
            if marks.contains(mark) {
                Err(Fault::WrongKind)
            } else {
                Err(Fault::MarkUnknown)
            }
        }
        DataRef::Name(id) => held_as(objects, Kind::Tree, id),
    }
}
