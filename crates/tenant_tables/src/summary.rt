//! What the checks of limits need to know about a stored tree, without reading it.

/// The size of the file map that a tree stands for. All three are 0 for the empty tree.
#[derive(Clone, Copy, PartialEq, Eq)]
pub struct Summary {
    /// How many files are below the tree, gitlinks and symbolic links included.
    pub files: u32,
    /// The most components that a path below it has.
    pub depth: u32,
    /// The most bytes that a path below it has, with a `/` between components.
    pub longest: u32,
}
