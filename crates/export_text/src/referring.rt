//! What objects refer to, by name: "tree object", "commit object" and "tag object" of
//! gitglossary(7).

ghost use Rattle.std.specs.Prelude.{◌≡◌, ◌<◌, length, IfOk};
ghost use Rattle.git_model.specs.{HeldObjects.{AreHeld}, Readable.{IsReadable}};
ghost use Rattle.git_model.specs.References.{is_reference, object_at, references_of, referred_by};
ghost use Rattle.git_model.specs.References.{tree_references};
ghost use Rattle.git_objects.specs.Parts.{entries_of};
ghost use Rattle.export_text.specs.Marking.{names_in};
ghost use Rattle.git_model.specs.declared.kind.Kind.TheVariants as kind;

use git_objects::{
    FileMode, Kind, Memory, Name, Naming, TreeEntry, look_commit, look_tag, look_tree,
};
use std::alloc::Global;
use tenant_tables::Objects;

// A gitlink refers to no object of this repository.
fn is_reference(mode: FileMode) -> bool
    ensures { result ≡ is_reference mode }
{
    mode != FileMode::Gitlink
}

fn names_of_entries(alloc: Global, entries: &[TreeEntry<'_>]) -> Result<Vec<Name>, Memory>
    ensures { IfOk result (λ ids. ids.items
        ≡ names_in (tree_references (entries_of entries.now))) }
{
    let mut ids = Vec::new(alloc);
    for entry in entries {
        if is_reference(entry.mode) {
            ids.push(entry.id)?;
        }
    }
    Ok(ids)
}

fn names_in_tree(alloc: Global, contents: &[u8]) -> Result<Vec<Name>, Memory>
    ensures { IsReadable kind.Tree contents.now
        → IfOk result (λ ids. ids.items ≡ names_in (references_of kind.Tree contents.now)) }
{
    match look_tree(alloc, contents)? {
        Some(entries) => names_of_entries(alloc, &entries),
        None => Ok(Vec::new(alloc)),
    }
}

fn names_in_commit(alloc: Global, contents: &[u8]) -> Result<Vec<Name>, Memory>
    ensures { IsReadable kind.Commit contents.now
        → IfOk result (λ ids. ids.items ≡ names_in (references_of kind.Commit contents.now)) }
{
    let mut ids = Vec::new(alloc);
    let Some(parts) = look_commit(alloc, contents)? else {
        return Ok(ids);
    };
    ids.push(parts.tree)?;
    ids.extend_from_slice(&parts.ancestors)?;
    Ok(ids)
}

fn names_in_tag(alloc: Global, contents: &[u8]) -> Result<Vec<Name>, Memory>
    ensures { IsReadable kind.Tag contents.now
        → IfOk result (λ ids. ids.items ≡ names_in (references_of kind.Tag contents.now)) }
{
    let mut ids = Vec::new(alloc);
    if let Some(parts) = look_tag(contents) {
        ids.push(parts.target)?;
    }
    Ok(ids)
}

// What an object of this kind with these contents refers to.
fn names_in(alloc: Global, kind: Kind, contents: &[u8]) -> Result<Vec<Name>, Memory>
    ensures { IsReadable kind contents.now
        → IfOk result (λ ids. ids.items ≡ names_in (references_of kind contents.now)) }
{
    match kind {
        Kind::Tree => names_in_tree(alloc, contents),
        Kind::Commit => names_in_commit(alloc, contents),
        Kind::Tag => names_in_tag(alloc, contents),
        Kind::Blob => Ok(Vec::new(alloc)),
    }
}

/// The names of what the object at a place refers to, in the order of its contents.
///
/// The answer is right where the objects are held (`AreHeld` of git_model). `Memory` (90) where
/// there is no room to read the object or for the names.
pub fn referred_by<N: Naming>(
    alloc: Global,
    objects: &Objects<'_, N>,
    place: usize,
) -> Result<Vec<Name>, Memory>
    requires { place < length objects.now }
    ensures { AreHeld N.digest_of objects.now → IfOk result (λ ids. ids.items
        ≡ referred_by objects.now (object_at place objects.now).id) }
{
    match objects.at(place) {
        Some((_, kind, contents)) => names_in(alloc, kind, contents),
        None => Ok(Vec::new(alloc)),
    }
}
