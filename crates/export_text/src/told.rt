//! Directories whose files were written before.
//!
//! Most directories of a commit are the same as in the commit before it, at the same path. The
//! lines of their files were written then, and are copied.

ghost use Rattle.std.specs.Prelude.{◌≡◌, ◌↔◌, ◌++◌, ◌≤◌, ◌<◌, ℕ, List, IsTrue, IfOk, IfSome, OnOk};
ghost use Rattle.std.specs.Prelude.{length, slice_range, take, false, true};
ghost use Rattle.git_model.specs.Repository.{Object};
ghost use Rattle.export_text.specs.Lines.{AreTold, IsTold, lines_within};

use git_objects::{Memory, Name};
use std::alloc::Global;

/// The most directories that are remembered.
const DIRECTORIES_LIMIT: usize = 4_096;

/// The longest prefix of one.
const PREFIX_LIMIT: usize = 1_024;

/// Where lines are in the text so far: from the byte at `start` to before the byte at `end`.
#[derive(Clone, Copy)]
pub struct Lines {
    pub start: usize,
    pub end: usize,
}

/// A directory of a commit: its tree, the prefix of its entries' paths, how many levels deep it was
/// read, and where the lines of its files are.
#[derive(Drop)]
pub struct Directory {
    pub levels: usize,
    pub prefix: Vec<u8>,
    pub tree: Name,
    pub lines: Lines,
}

impl Directory {
    // One without lines, of no level.
    fn empty(alloc: Global) -> Directory
        ensures { (os : List Object) (out : List ℕ) → IsTold os out result }
    {
        Directory {
            levels: 0,
            prefix: Vec::new(alloc),
            tree: Name::from_bytes([0; 20]),
            lines: Lines { start: 0, end: 0 },
        }
    }

    fn is_of(&self, levels: usize, prefix: &[u8], tree: &Name) -> bool
        ensures { IsTrue result ↔ (self.now.tree ≡ tree.now) × (self.now.levels ≡ levels)
            × (self.now.prefix.items ≡ prefix.now) }
    {
        self.tree == *tree && self.levels == levels && self.prefix.as_slice() == prefix
    }
}

/// Directories whose files were written. Each slot has at most one, and a later directory replaces
/// an earlier one.
#[derive(Drop)]
pub struct Directories {
    pub directories: Vec<Directory>,
}

impl Directories {
    /// No directories yet, in a repository with so many objects. Takes memory for a directory for
    /// each object, at most 4,096; `Memory` (90) where there is none.
    pub fn among(alloc: Global, objects: usize) -> Result<Directories, Memory>
        ensures { (os : List Object) (out : List ℕ) → IfOk result (AreTold os out) }
    {
        let mut directories = Vec::new(alloc);
        for _ in 0..objects.min(DIRECTORIES_LIMIT) {
            directories.push(Directory::empty(alloc))?;
        }
        Ok(Directories { directories })
    }

    // The slot of a tree: object names are spread evenly.
    fn slot(&self, tree: &Name) -> usize {
        let id = tree.as_bytes();
        let number = id[0] as usize * 256 + id[1] as usize;
        match self.directories.len() {
            0 => 0,
            count => number % count,
        }
    }

    // The lines of a directory, where it is remembered, in a text of `size` bytes.
    fn find(&self, levels: usize, prefix: &[u8], tree: &Name, size: usize) -> Option<Lines>
        ensures within { IfSome result (λ l. (l.start ≤ l.end) × (l.end ≤ size)) }
        ensures lines { (os : List Object) (out : List ℕ) → AreTold os out self.now
            → IfSome result (λ l. slice_range out l.start l.end
            ≡ lines_within os levels prefix.now tree.now) }
    {
        let found = self.directories.get(self.slot(tree))?;
        let lines = found.lines;
        if found.is_of(levels, prefix, tree) && lines.start <= lines.end && lines.end <= size {
            Some(lines)
        } else {
            None
        }
    }

    /// Appends the lines of a directory again, if they are known, and answers whether they are.
    /// Takes memory for another copy of them. After `Memory` (90) a part of them may have been
    /// appended.
    pub fn append_again(
        &self,
        alloc: Global,
        levels: usize,
        prefix: &[u8],
        tree: &Name,
        out: &mut Vec<u8>,
    ) -> Result<bool, Memory>
        ensures again { (os : List Object) → AreTold os out.old.items self.now
            → IfOk result (λ is_known. is_known ≡ true
            → out.new.items ≡ out.old.items ++ lines_within os levels prefix.now tree.now) }
        ensures same { IfOk result (λ is_known. is_known ≡ false → out.new.items ≡ out.old.items) }
        ensures kept { take (length out.old.items) out.new.items ≡ out.old.items }
    {
        match self.find(levels, prefix, tree, out.len()) {
            Some(lines) => {
                let again = Vec::from_slice(alloc, &out[lines.start..lines.end])?;
                out.extend_from_slice(&again)?;
                Ok(true)
            }
            None => Ok(false),
        }
    }

    fn put(&mut self, directory: Directory)
        ensures { (os : List Object) (out : List ℕ) → AreTold os out self.old
            → IsTold os out directory
            → AreTold os out self.new }
    {
        let slot = self.slot(&directory.tree);
        if slot < self.directories.len() {
            self.directories[slot] = directory;
        }
    }

    /// Remembers where the lines of a directory are, unless its prefix has more than 1,024 bytes.
    /// Takes memory for the prefix; `Memory` (90) where there is none.
    pub fn keep(
        &mut self,
        alloc: Global,
        levels: usize,
        prefix: &[u8],
        tree: &Name,
        lines: Lines,
    ) -> Result<(), Memory>
        ensures { (os : List Object) (out : List ℕ) → AreTold os out self.old
            → lines.start ≤ lines.end → lines.end ≤ length out
            → slice_range out lines.start lines.end ≡ lines_within os levels prefix.now tree.now
            → OnOk result (AreTold os out self.new) }
    {
        if prefix.len() <= PREFIX_LIMIT {
            self.put(Directory {
                levels,
                prefix: Vec::from_slice(alloc, prefix)?,
                tree: *tree,
                lines,
            });
        }
        Ok(())
    }
}
