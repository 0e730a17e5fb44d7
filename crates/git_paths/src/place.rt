//! The place of a path in its line.

/// The place of a path in its line, which decides what ends the path: git-fast-import(1), `C` and
/// `R`.
#[derive(Clone, Copy, Debug, PartialEq, Eq)]
pub enum Place {
    /// The first of two paths: a space ends it, unless it is quoted.
    Source,
    /// The last part of the line: the end of the line ends it.
    Last,
}
