//! Components of a path, borrowed from the path.

ghost use Rattle.std.specs.Prelude.{◌≡◌, ◌≢◌, ◌<◌, [], ◌∷◌, ℕ, length, All, slice_index, IfSome};
ghost use Rattle.std.specs.{Prelude.{IfNone, MatchOption}, Iterator.{YieldsFirstRef, item_count}};
ghost use Rattle.git_paths.specs.Paths.{IsPath, joined, components_of};

use crate::judging::count_components;
use std::marker::Model;

/// Components of a path, from the root down. As an iterator it yields each one as its bytes, and
/// holds those that are still to come.
#[derive(Debug, Drop)]
pub struct Components<'a> {
    bytes: &'a [u8],
}

impl<'a> Model for Components<'a> {
    ghost use Rattle.std.specs.Prelude.{List, ℕ};
    ghost use Rattle.git_paths.specs.Paths.{IsPath, components_of};

    ghost Value = { List (List ℕ) };

    ghost view = { λ c. components_of c.bytes.now };

    ghost invariant = { λ c. IsPath (components_of c.bytes.now) };
}

/// The index of the first slash.
fn slash_in(bytes: &[u8]) -> Option<usize>
    ensures none { IfNone result (All (λ b. b ≢ 47) bytes.now) }
    ensures some { IfSome result (λ at. at < length bytes.now) }
    ensures slash { IfSome result (λ at. slice_index bytes.now at ≡ 47) }
    ensures first { IfSome result (λ at. (k : ℕ) → k < at → slice_index bytes.now k ≢ 47) }
{
    bytes.iter().position(|byte| *byte == b'/')
}

/// The first component, and the bytes of the others.
fn first_of(bytes: &[u8]) -> (&[u8], &[u8])
    requires some { 0 < length bytes.now }
    requires path { IsPath (components_of bytes.now) }
    ensures { components_of bytes.now ≡ result.0.now ∷ components_of result.1.now }
{
    match slash_in(bytes) {
        Some(at) => (bytes.split_at(at).0, bytes.split_at(at + 1).1),
        None => bytes.split_at(bytes.len()),
    }
}

impl<'a> Components<'a> {
    /// The bytes of these components, with `/` between them.
    pub fn as_bytes(&self) -> &'a [u8]
        ensures bytes { result.now ≡ joined self.now }
        ensures path { IsPath self.now }
    {
        self.bytes
    }

    /// The number of components.
    pub fn len(&self) -> usize
        ensures { result ≡ length self.now }
    {
        count_components(self.bytes)
    }

    /// The first component and the components after it, or `None` if there are no components.
    pub fn split_first(&self) -> Option<(&'a [u8], Components<'a>)>
        ensures { MatchOption result (self.now ≡ []) (λ r. self.now ≡ r.0.now ∷ r.1) }
    {
        if self.bytes.is_empty() {
            return None;
        }
        let (first, others) = first_of(self.bytes);
        Some((first, Components::of(others)))
    }

    /// The components of a path's bytes.
    pub(crate) fn of(bytes: &'a [u8]) -> Components<'a>
        requires { IsPath (components_of bytes.now) }
        ensures { result ≡ components_of bytes.now }
    {
        Components { bytes }
    }
}

impl<'a> Iterator for Components<'a> {
    type Item = &'a [u8];

    ghost next_gives = { YieldsFirstRef (λ c. c) };

    ghost remaining = { item_count (λ c. c) };

    fn next(&mut self) -> Option<&'a [u8]> {
        if self.bytes.is_empty() {
            return None;
        }
        let (first, others) = first_of(self.bytes);
        self.bytes = others;
        Some(first)
    }
}
