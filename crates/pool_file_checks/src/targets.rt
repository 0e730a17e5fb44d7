//! Which targets the refs of a file may have.

ghost use Rattle.std.specs.Prelude.{◌≡◌, ◌↔◌, ◌++◌, codes, IfOk, IfSome, IsTrue};
ghost use Rattle.std.specs.Option.{option_map};
ghost use Rattle.git_model.specs.{Content.{content_from}, GoodRepository.{IsShortRefName}};
ghost use Rattle.pool_file_checks.specs.FileRefs.{IsOwnTag, MayTarget, target_at};
ghost use Rattle.pool_file_checks.specs.Objects.{raw_object};
ghost use Rattle.pool_file_format.specs.Shown.{object_of, objects_of};

use crate::contents::kind_from;
use git_names::{REF_NAME_LIMIT, is_ref_name};
use git_objects::{Kind, Memory, read_tag};
use pool_file_format::RawObject;
use std::alloc::Global;

/// The object at this place among a tenant's objects, if there is one.
pub fn target_at<'a>(objects: &'a [RawObject], numbers: &[u64], place: u64) -> Option<&'a RawObject>
    ensures { option_map (λ o. object_of o.now) result
        ≡ target_at (objects_of objects.now) numbers.now place }
{
    let number = *numbers.get(place as usize)?;
    objects.get(number as usize)
}

/// Whether a text is a ref name that is not too long.
pub fn is_short_ref_name(text: &[u8]) -> bool
    ensures { IsTrue result ↔ IsShortRefName text.now }
{
    is_ref_name(text) && text.len() <= REF_NAME_LIMIT
}

// Whether a ref is that of the tag with this name.
fn is_ref_of(name: &[u8], tag: &[u8]) -> bool
    ensures { IsTrue result ↔ (name.now ≡ codes "refs/tags/" ++ tag.now) }
{
    match name.strip_prefix(b"refs/tags/") {
        Some(rest) => rest == tag,
        None => false,
    }
}

fn is_own_tag(alloc: Global, name: &[u8], bytes: &[u8]) -> Result<bool, Memory>
    ensures { IfOk result (λ b. IsTrue b ↔ IsOwnTag name.now bytes.now) }
{
    match read_tag(alloc, bytes) {
        Ok(Some(parts)) => Ok(is_ref_of(name, parts.name)),
        Ok(None) => Ok(false),
        Err(refused) => Err(refused),
    }
}

fn is_target_of(alloc: Global, name: &[u8], kind: Kind, bytes: &[u8]) -> Result<bool, Memory>
    ensures { IfOk result (λ b. IsTrue b
        ↔ MayTarget name.now (raw_object (content_from kind bytes.now))) }
{
    match kind {
        Kind::Commit => Ok(true),
        Kind::Tag => is_own_tag(alloc, name, bytes),
        Kind::Blob => Ok(false),
        Kind::Tree => Ok(false),
    }
}

fn may_target(alloc: Global, name: &[u8], target: &RawObject) -> Result<bool, Memory>
    ensures { IfOk result (λ b. IsTrue b ↔ MayTarget name.now (object_of target.now)) }
{
    match kind_from(target.kind) {
        Some(kind) => is_target_of(alloc, name, kind, target.bytes.as_slice()),
        None => Ok(false),
    }
}

/// Whether a ref may have this name, and this target if there is one.
///
/// `Memory` (90) if there is no memory to read a tag.
pub fn may_stand(alloc: Global, name: &[u8], target: Option<&RawObject>) -> Result<bool, Memory>
    ensures { IfOk result (λ b. IsTrue b ↔ (IsShortRefName name.now
        × IfSome (option_map (λ o. object_of o.now) target.entry) (MayTarget name.now))) }
{
    if !is_short_ref_name(name) {
        return Ok(false);
    }
    match target {
        Some(target) => may_target(alloc, name, target),
        None => Ok(true),
    }
}
