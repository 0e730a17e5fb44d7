//! Paths and their prefixes, by their bytes.

ghost use Rattle.std.specs.{Prelude.{◌≡◌, IfOk}, Option.{option_map}};
ghost use Rattle.git_paths.specs.Paths.{IsPath, components_of, strip_prefix, joined_both};

use git_model::Memory;
use std::alloc::Global;

/// The bytes of a path after its prefix `top` and the slash between them.
pub(crate) fn bytes_after<'a>(top: &[u8], bytes: &'a [u8]) -> Option<&'a [u8]>
    requires top { IsPath (components_of top.now) }
    requires path { IsPath (components_of bytes.now) }
    ensures { option_map (λ r. components_of r.now) result
        ≡ strip_prefix (components_of top.now) (components_of bytes.now) }
{
    if top.is_empty() {
        return Some(bytes);
    }
    let rest = bytes.strip_prefix(top)?;
    match rest {
        [] => Some(rest),
        [first, below @ ..] => { if *first == b'/' { Some(below) } else { None } }
    }
}

/// The bytes of one path followed by another.
pub(crate) fn join_bytes(alloc: Global, top: &[u8], rest: &[u8]) -> Result<Vec<u8>, Memory>
    ensures { IfOk result (λ v. v.items ≡ joined_both top.now rest.now) }
{
    let mut bytes = Vec::from_slice(alloc, top)?;
    if !top.is_empty() && !rest.is_empty() {
        bytes.push(b'/')?;
    }
    bytes.extend_from_slice(rest)?;
    Ok(bytes)
}
