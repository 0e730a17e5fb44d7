//! Whether a repository can be copied: the limits of exports and streams.

ghost use Rattle.std.specs.Prelude.{◌≡◌, ◌<◌, ◌&&◌, ◌↔◌, not, IfOk, IsTrue, length};
ghost use Rattle.git_model.specs.{GoodRepository.{AreObjects}, Peeling.{is_no_tag}};
ghost use Rattle.git_model.specs.{References.{object_at}, RefStore.{RefStore}};
ghost use Rattle.git_model.specs.Repository.{Repository};
ghost use Rattle.export_text.specs.{Marking.{reached_flags}, Reached.{is_tag, reached_tags}};
ghost use Rattle.export_laws.specs.Copies.{CanBeCopied};

use crate::fits::all_fit;
use export_text::is_exportable;
use git_objects::{Kind, Memory, Naming};
use std::alloc::Global;
use tenant_refs::Refs;
use tenant_tables::Objects;

/// The most tags that may wait for one checkpoint.
const TAGS_LIMIT: usize = 65_536;

fn is_tag_kind(kind: Kind) -> bool
    ensures { result ≡ not (is_no_tag kind) }
{
    match kind {
        Kind::Tag => true,
        Kind::Blob => false,
        Kind::Tree => false,
        Kind::Commit => false,
    }
}

fn is_tag<N: Naming>(objects: &Objects<'_, N>, place: usize) -> bool
    ensures { place < length objects.now → result ≡ is_tag (object_at place objects.now) }
{
    match objects.at(place) {
        Some((_, kind, _)) => is_tag_kind(kind),
        None => false,
    }
}

fn is_reached_tag<N: Naming>(objects: &Objects<'_, N>, place: usize, is_reached: bool) -> bool
    ensures { place < length objects.now
        → result ≡ (is_reached && is_tag (object_at place objects.now)) }
{
    is_reached && is_tag(objects, place)
}

// How many tags have a flag.
fn count_tags<N: Naming>(objects: &Objects<'_, N>, reached: &[bool]) -> usize
    ensures { (refs : RefStore)
        → let r : Repository = record { objects = objects.now; refs = refs } in
        reached.now ≡ reached_flags r → result ≡ length (reached_tags r) }
{
    let mut tags = 0;
    for (place, is_reached) in reached.iter().enumerate() {
        if is_reached_tag(objects, place, *is_reached) {
            tags += 1;
        }
    }
    tags
}

/// Whether the repository can be copied, given a flag for each object: whether the refs reach it.
/// `Memory` (90) if there is no memory to read an object or for the refs of the tags.
pub fn can_be_copied<N: Naming>(
    alloc: Global,
    objects: &Objects<'_, N>,
    refs: &Refs,
    reached: &[bool],
) -> Result<bool, Memory>
    ensures { let r : Repository = record { objects = objects.now; refs = refs.now } in
        AreObjects N.digest_of objects.now → reached.now ≡ reached_flags r
        → IfOk result (λ can. IsTrue can ↔ CanBeCopied r) }
{
    let tags = count_tags(objects, reached);
    if tags > TAGS_LIMIT {
        return Ok(false);
    }
    if !is_exportable(alloc, objects, refs, reached)? {
        return Ok(false);
    }
    all_fit(alloc, objects)
}
