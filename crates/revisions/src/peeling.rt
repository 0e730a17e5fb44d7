//! Peeling: gitrevisions(7), `<rev>^{<type>}` and `<rev>^{}`.

ghost use Rattle.std.specs.Prelude.{◌≡◌, IfOk};
ghost use Rattle.git_model.specs.{HeldObjects.{AreHeld}, Readable.{IsReadable}};
ghost use Rattle.git_model.specs.Peeling.{is_of, is_there_untagged, next_from, next_to};
ghost use Rattle.revisions.specs.{Faults.{Gives}, Ways.{is_end, first_end}};
ghost use Rattle.revisions.specs.Resolution.{peeled, peeled_untagged};
ghost use Rattle.revisions.specs.declared.fault.Fault.TheVariants as fault;

use crate::contents::{target_in, tree_in};
use crate::fault::Fault;
use git_objects::{Kind, Memory, Name, Naming};
use std::alloc::Global;
use tenant_tables::Objects;

// Whether there is an object of this name and of this kind.
fn is_of<N: Naming>(objects: &Objects<'_, N>, wanted: Kind, id: &Name) -> bool
    ensures { result ≡ is_of objects.now wanted id.now }
{
    match objects.get(id) {
        Some((kind, _)) => kind == wanted,
        None => false,
    }
}

// Whether there is an object of this name that is no tag.
pub(crate) fn is_there_untagged<N: Naming>(objects: &Objects<'_, N>, id: &Name) -> bool
    ensures { result ≡ is_there_untagged objects.now id.now }
{
    match objects.get(id) {
        Some((kind, _)) => kind != Kind::Tag,
        None => false,
    }
}

// The next object when one of this kind with these contents is peeled to the wanted kind.
fn next_from(
    alloc: Global,
    wanted: Kind,
    kind: Kind,
    contents: &[u8],
) -> Result<Option<Name>, Memory>
    ensures { IsReadable kind contents.now
        → IfOk result (λ next. next ≡ next_from wanted kind contents.now) }
{
    match (kind, wanted) {
        (Kind::Tag, _) => Ok(target_in(contents)),
        (Kind::Commit, Kind::Tree) => tree_in(alloc, contents),
        _ => Ok(None),
    }
}

// The next object when this one is peeled to the wanted kind.
pub(crate) fn next_to<N: Naming>(
    alloc: Global,
    objects: &Objects<'_, N>,
    wanted: Kind,
    id: &Name,
) -> Result<Option<Name>, Memory>
    ensures { AreHeld N.digest_of objects.now
        → IfOk result (λ next. next ≡ next_to objects.now wanted id.now) }
{
    match objects.get(id) {
        Some((kind, contents)) => next_from(alloc, wanted, kind, contents),
        None => Ok(None),
    }
}

// Whether peeling ends at this object: it is of the wanted kind or, where no kind is wanted, it
// exists and is not a tag.
fn is_end<N: Naming>(objects: &Objects<'_, N>, wanted: Option<Kind>, id: &Name) -> bool
    ensures { result ≡ is_end objects.now wanted id.now }
{
    match wanted {
        Some(kind) => is_of(objects, kind, id),
        None => is_there_untagged(objects, id),
    }
}

// The object at which the peeling of this one ends. It gives up after as many steps as there are
// objects: among held objects none takes more.
fn first_end<N: Naming>(
    alloc: Global,
    objects: &Objects<'_, N>,
    wanted: Option<Kind>,
    id: Name,
) -> Result<Option<Name>, Memory>
    ensures { AreHeld N.digest_of objects.now
        → IfOk result (λ end. end ≡ first_end objects.now wanted id) }
{
    let kind = wanted.unwrap_or(Kind::Blob);
    let mut at = id;
    let mut steps = objects.len();
    'way: while !is_end(objects, wanted, &at) {
        if steps == 0 {
            return Ok(None);
        }
        let Some(next) = next_to(alloc, objects, kind, &at)? else {
            return Ok(None);
        };
        at = next;
        steps -= 1;
    }
    Ok(Some(at))
}

/// Peels an object to this kind: while the kind differs, a tag gives its target and, where a tree
/// is wanted, a commit gives its tree. A tag peeled to a tag is itself.
///
/// `Fault::WrongKind` (15) where this leads to no object of the kind, also where no object has this
/// name; `Fault::Memory` (90) where there is no room to read a commit or a tag. Nothing changes.
/// The objects are held; among others the answer is not specified.
#[tactic(auto, unfolding(git_model::specs::Peeling::peeled_to))]
pub fn peel<N: Naming>(
    alloc: Global,
    objects: &Objects<'_, N>,
    wanted: Kind,
    id: Name,
) -> Result<Name, Fault>
    ensures { AreHeld N.digest_of objects.now → Gives result (peeled objects.now wanted id) }
{
    first_end(alloc, objects, Some(wanted), id)?.ok_or(Fault::WrongKind)
}

/// Follows tags from an object to the first object that is not a tag. The refusals are those of
/// `peel`.
#[tactic(auto, unfolding(git_model::specs::Peeling::without_tags))]
pub fn peel_tags<N: Naming>(
    alloc: Global,
    objects: &Objects<'_, N>,
    id: Name,
) -> Result<Name, Fault>
    ensures { AreHeld N.digest_of objects.now → Gives result (peeled_untagged objects.now id) }
{
    first_end(alloc, objects, None, id)?.ok_or(Fault::WrongKind)
}
