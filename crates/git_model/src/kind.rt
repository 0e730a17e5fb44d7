//! The four kinds of object: "object type" of gitglossary(7).

/// The kind of an object. Kinds are ordered as the kind bytes of a pool file: commits, trees,
/// blobs, tags.
#[derive(Clone, Copy, Debug, PartialEq, Eq, PartialOrd, Ord, Hash)]
pub enum Kind {
    /// A tree with parents, an author, a committer and a message.
    Commit,
    /// The direct entries of one directory.
    Tree,
    /// The contents of one file.
    Blob,
    /// An annotated name for another object.
    Tag,
}
