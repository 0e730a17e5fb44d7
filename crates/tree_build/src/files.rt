//! The files of a branch: a map of files that edits change. Trees are read only when needed.
//!
//! An unopened directory is the name of a stored tree, and never the place where it is stored. What
//! a value means depends on the objects of a table, and objects that are added later do not change
//! it.

ghost use Rattle.std.specs.Prelude.{◌≡◌, ◌≤◌, List, length};
ghost use Rattle.git_model.specs.Repository.{Object};
ghost use Rattle.file_maps.specs.FileMap.{Path};
ghost use Rattle.tree_build.specs.Branch.{files_in, IsBranch, root_name, closed_from};
ghost use Rattle.std.specs.FinMap as map;

use crate::dir::{Dir, Node};
use git_objects::Name;
use git_paths::Path;
use std::alloc::Global;
use std::marker::Model;
use std::mem;

/// The files of a branch. Trees are read only when a call needs them.
///
/// A value names stored trees. Each call must be given the pool and the table that hold them.
pub struct Files {
    pub(crate) alloc: Global,
    pub(crate) root: Node,
    /// The root before the last `clear`, until `store` stores the root. It means nothing: `store`
    /// compares what it is about to write with its trees.
    pub(crate) earlier: Option<Dir>,
    pub(crate) files: usize,
    pub(crate) reads: u64,
}

// Not derived, so that crates above need not prove again how its parts are dropped.
impl Drop for Files {
    fn drop(self) {
        let Files {
            alloc: _,
            root,
            earlier,
            files: _,
            reads: _,
        } = self;
        drop(root);
        drop(earlier);
    }
}

impl Model for Files {
    ghost use Rattle.tree_build.specs.{Branch.{Branch}, ShapeCode.{branch_code}};

    ghost Value = { Branch };

    ghost coded = { branch_code };

    ghost use Rattle.tree_build.specs.Nodes.{held};

    ghost view = { λ f. record { root = held f.root; files = f.files; reads = f.reads } };
}

// The directory that a node is, if it was opened.
fn opened(node: Node) -> Option<Dir> {
    match node {
        Node::Opened(dir) => Some(dir),
        _ => None,
    }
}

impl Files {
    /// A branch without files. Takes no memory; later calls take theirs from `alloc`.
    pub fn new(alloc: Global) -> Files
        ensures files { (os : List Object) → files_in os result ≡ map.empty }
        ensures branch { (os : List Object) → IsBranch os result }
        ensures reads { result.reads ≡ 0 }
    {
        Files {
            alloc,
            root: Node::Opened(Dir::empty(alloc)),
            earlier: None,
            files: 0,
            reads: 0,
        }
    }

    /// Removes all files: git-fast-import(1), "filedeleteall". Takes no memory, and reads no tree.
    ///
    /// The opened directories stay in memory until `store` stores the root. A directory that has
    /// the same entries by then is not written again.
    pub fn clear(&mut self)
        ensures files { (os : List Object) → files_in os self.new ≡ map.empty }
        ensures branch { (os : List Object) → IsBranch os self.new }
        ensures reads { self.new.reads ≡ self.old.reads }
        ensures open { (q : Path) → closed_from self.new.root q ≡ 0 }
    {
        let root = mem::replace(&mut self.root, Node::Opened(Dir::empty(self.alloc)));
        self.earlier = opened(root);
        self.files = 0;
    }

    /// How many trees edits and `store` have read since the value was made. `clear` does not start
    /// the count anew, and it stays at `u64::MAX` once it gets there.
    ///
    /// An edit or `store` counts at most as many trees as its paths have components: its clause
    /// `few` says so. No clause says whether a read that runs out of memory is counted.
    pub fn reads(&self) -> u64
        ensures { result ≡ self.now.reads }
    {
        self.reads
    }

    /// A fact for proofs: a walk along a path reads at most as many trees as the path has
    /// components. Calling it does nothing. The clauses `few` of the edits and of `store` need it.
    pub(crate) fn walk_reads_few(&self, path: &Path)
        ensures { closed_from self.now.root path.now ≤ length path.now }
    {}

    /// How many files there are. Reads no tree.
    pub fn file_count(&self) -> usize
        ensures { result ≡ self.now.files }
    {
        self.files
    }

    /// The name of the stored tree that has these files, if it is known without reading a tree.
    pub fn tree(&self) -> Option<Name>
        ensures { result ≡ root_name self.now }
    {
        match &self.root {
            Node::File(_) => None,
            Node::Unopened(name) => Some(*name),
            Node::Opened(dir) => dir.tree,
        }
    }
}
