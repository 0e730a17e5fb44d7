//! The modes of tree entries that git-fast-import(1) lists under "filemodify".

/// The mode of a tree entry, which says what the entry is. Each variant gives its octal digits.
#[derive(Clone, Copy, Debug, PartialEq, Eq)]
pub enum FileMode {
    /// A file, 100644.
    Regular,
    /// An executable file, 100755.
    Executable,
    /// A symbolic link, 120000; its blob is the link's target.
    Symlink,
    /// A commit of another repository, 160000.
    Gitlink,
    /// A subdirectory, 40000.
    Directory,
}
