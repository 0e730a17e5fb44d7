//! Rows of a store: where each content is.

/// The summary of a tree: how many files are below it, and the components and bytes of its longest
/// paths.
#[derive(Clone, Copy, PartialEq, Eq, Drop)]
pub struct Summary {
    /// How many files are below the tree, gitlinks and symbolic links included.
    pub files: u32,
    /// The most components that a path below it has.
    pub depth: u16,
    /// The most bytes that a path below it has, with a `/` between components.
    pub longest: u16,
}

/// An object: its name, its kind, and where its contents are.
#[derive(Clone, Copy, Drop)]
pub struct Row {
    /// The object name.
    pub id: [u8; 20],
    /// The byte of the kind: commit 1, tree 2, blob 3, tag 4.
    pub kind: u8,
    /// The number of the file that has the contents.
    pub file: u32,
    /// Where they begin in the file, in bytes.
    pub offset: u32,
    /// How many bytes they have.
    pub size: u32,
    /// The summary of a tree. A tree that is no directory of files has none, as no commit, blob or
    /// tag has one.
    pub summary: Option<Summary>,
}
