//! The order of texts.

ghost use Rattle.std.specs.{Prelude.{◌↔◌, IsTrue}, Option.{option_map}};
ghost use Rattle.pool_file_checks.specs.Objects.{IsAfter};

use std::cmp::Ordering;

/// Whether a text comes after the one before it, if there is one.
pub fn is_after(last: Option<&[u8]>, text: &[u8]) -> bool
    ensures { IsTrue result ↔ IsAfter (option_map (λ o. o.now) last.entry) text.now }
{
    match last {
        None => true,
        Some(last) => last.cmp(text) == Ordering::Less,
    }
}
