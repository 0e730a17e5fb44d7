//! Opened directories and their entries.

ghost use Rattle.std.specs.Prelude.{◌≡◌, None};
ghost use Rattle.tree_build.specs.{Shape.{none}, Editing.{is_none}};

use crate::component::Component;
use file_maps::Entry;
use git_objects::Name;
use std::alloc::Global;
use std::marker::Model;

/// An opened directory.
#[cycle(dir)]
#[derive(Drop)]
pub(crate) struct Dir {
    /// Its direct entries, in the order of a tree's entries.
    pub(crate) entries: Entries,
    /// The name of its stored tree, if it is one. Opening and storing set it, an edit clears it.
    pub(crate) tree: Option<Name>,
    /// The position of that tree in the table. It is a guess that nothing relies on.
    pub(crate) place: usize,
}

/// The direct entries of a directory, in their order. Only the module `chunks` looks
/// into the chunks.
#[cycle(dir)]
#[derive(Drop)]
pub(crate) struct Entries {
    /// How many entries all chunks have.
    pub(crate) len: usize,
    /// The entries, one chunk after the other.
    pub(crate) chunks: Vec<Chunk>,
}

/// Some entries of a directory.
#[cycle(dir)]
#[derive(Drop)]
pub(crate) struct Chunk {
    /// How many entries of the directory stand before them.
    pub(crate) start: usize,
    /// The entries, in their order.
    pub(crate) entries: Vec<(Component, Node)>,
}

/// What a direct entry is: a file or a directory.
#[cycle(dir)]
#[derive(Drop)]
pub(crate) enum Node {
    File(Entry),
    /// A directory that was not opened, by the name of its stored tree.
    Unopened(Name),
    Opened(Dir),
}

impl Model for Entries {
    ghost use Rattle.std.specs.{Prelude.{◌≡◌, length}, Coded.{codes}};
    ghost use Rattle.tree_build.specs.ShapeCode.{directory_code};
    ghost use Rattle.tree_build.specs.Chunks.{Listing, all, AreStarts, listing_size};

    ghost Value = { Listing };

    ghost coded = { Prim.hlevel (codes, directory_code) };

    ghost view = { λ e. record { items = all e.chunks.items } };

    ghost invariant = { λ e. (e.len ≡ length (all e.chunks.items))
        × AreStarts e.chunks.items };

    ghost size = { listing_size };

    ghost use Rattle.std.proofs.Common.{arith};
    ghost use Rattle.tree_build.specs.Falls.{falls};

    ghost size_decreases = { λ a h. omega (arith, falls a.chunks.items) };
}

impl Model for Dir {
    ghost use Rattle.tree_build.specs.Shape.{Directory};
    ghost use Rattle.tree_build.specs.ShapeCode.{directory_code, directory_size};

    ghost Value = { Directory };

    ghost coded = { directory_code };

    ghost use Rattle.tree_build.specs.Nodes.{shape_of};

    ghost view = { λ d. record { tree = d.tree; entries = shape_of d.entries.items } };

    ghost size = { directory_size };

    ghost use Rattle.std.proofs.Common.{arith};

    ghost size_decreases = { λ a h. omega arith };
}

impl Dir {
    /// A directory without entries.
    pub(crate) fn empty(alloc: Global) -> Dir
        ensures tree { result.tree ≡ None }
        ensures entries { result.entries ≡ none }
    {
        Dir {
            entries: Entries::new(alloc),
            tree: None,
            place: 0,
        }
    }

    /// Whether it has no entries.
    pub(crate) fn is_empty(&self) -> bool
        ensures { result ≡ is_none self.now.entries }
    {
        self.entries.len() == 0
    }
}
