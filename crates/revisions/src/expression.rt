//! A revision expression: gitrevisions(7), "Specifying Revisions".
//!
//! It says nothing about any repository: whether its base names something is decided when it is
//! resolved. `v1~2:src` has the base `v1` and two suffixes.

ghost use Rattle.std.specs.Prelude.{◌≡◌};
ghost use Rattle.revisions.specs.Expressions.{head};

use crate::suffix::Suffix;
use std::alloc::Global;
use std::marker::Model;

/// A base and its suffixes, from left to right. The base is borrowed from the text.
#[derive(Drop)]
pub struct Expression<'a> {
    base: &'a [u8],
    suffixes: Vec<Suffix>,
}

impl<'a> Model for Expression<'a> {
    ghost use Rattle.revisions.specs.Expressions.{Expression as Parts};

    ghost Value = { Parts };

    ghost view = { λ e. record { base = e.base.now; suffixes = e.suffixes.items } };
}

impl<'a> Expression<'a> {
    /// An expression of these parts.
    pub(crate) fn of(base: &'a [u8], suffixes: Vec<Suffix>) -> Expression<'a>
        ensures { result ≡ record { base = base.now; suffixes = suffixes.items } }
    {
        Expression { base, suffixes }
    }

    /// The expression `HEAD`. Takes no memory.
    pub fn head(alloc: Global) -> Expression<'static>
        ensures { result ≡ head }
    {
        Expression::of(b"HEAD", Vec::new(alloc))
    }

    /// The text before all suffixes. It is not empty.
    pub fn base(&self) -> &[u8]
        ensures { result.now ≡ self.now.base }
    {
        self.base
    }

    /// The suffixes, from left to right.
    pub fn suffixes(&self) -> &[Suffix]
        ensures { result.now ≡ self.now.suffixes }
    {
        self.suffixes.as_slice()
    }
}
