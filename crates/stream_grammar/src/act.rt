//! Acts: what the items of a stream ask for.

use crate::commit_ish::CommitIsh;
use crate::data_ref::DataRef;
use crate::fault::Fault;
use crate::feature::Feature;
use crate::mark::Mark;
use git_model::FileMode;
use git_names::{Ident, RefName};
use git_paths::Path;

/// What an item asks for: git-fast-import(1), "Commands". It borrows the bytes of its item; refs,
/// idents and paths are copies.
///
/// A command of several lines gives an act for each line that says more than its mark. The mark
/// comes with the act of the last part.
#[derive(Drop)]
pub enum Act<'a> {
    /// Nothing: the command of the item is not whole yet, or has no effect.
    Wait,
    /// A blob or a tag: `blob`, `tag`.
    Object(ObjectCommand<'a>),
    /// A commit and where it starts: `commit`, `from`, `merge`.
    Commit(CommitCommand<'a>),
    /// A change of the files of the open commit: `M`, `D`, `C`, `R`, `deleteall`.
    Change(FileChange<'a>),
    /// A branch or a mark that is set: `reset`, `alias`.
    Ref(RefCommand<'a>),
    /// A line or a blob that is printed: `get-mark`, `cat-blob`, `ls`, `progress`.
    Reply(ReplyCommand<'a>),
    /// The stream itself: `checkpoint`, `done`, `feature`, `option`.
    Control(ControlCommand),
}

/// A command that stores a blob or a tag: git-fast-import(1), "blob" and "tag".
#[derive(Drop)]
pub enum ObjectCommand<'a> {
    /// Store a blob with these contents, and set the mark to it if there is one.
    Blob {
        /// The mark of the blob.
        mark: Option<Mark>,
        /// The bytes of the blob.
        contents: &'a [u8],
    },
    /// A tag with this ref begins. The ref is `refs/tags/` and the name of the tag.
    BeginTag(RefName),
    /// The tag that has begun points to this object.
    TagTarget(CommitIsh<'a>),
    /// The tagger of the tag that has begun.
    Tagger(Ident),
    /// Store the tag that has begun, with this message, and set the mark to it if there is one.
    Tag {
        /// The mark of the tag.
        mark: Option<Mark>,
        /// The bytes of its message.
        message: &'a [u8],
    },
}

/// A line of a commit, or its message: git-fast-import(1), "commit".
#[derive(Drop)]
pub enum CommitCommand<'a> {
    /// A commit on the branch of this ref begins.
    Begin(RefName),
    /// The author of the commit that has begun. Without this act the committer is the author.
    Author(Ident),
    /// The committer of the commit that has begun.
    Committer(Ident),
    /// The encoding of the message of the commit that has begun. At least one byte.
    Encoding(&'a [u8]),
    /// The commit that has begun has this message; from here on its files may change. At its end
    /// the mark is set to it if there is one.
    Message {
        /// The mark of the commit.
        mark: Option<Mark>,
        /// The bytes of its message.
        message: &'a [u8],
    },
    /// The open commit starts from this commit.
    From(CommitIsh<'a>),
    /// The open commit merges this commit.
    Merge(CommitIsh<'a>),
}

/// A change of the files of the open commit: git-fast-import(1), "filemodify" to "filedeleteall".
#[derive(Drop)]
pub enum FileChange<'a> {
    /// Put an object at a path.
    Modify {
        /// The mode of the entry.
        mode: FileMode,
        /// The object.
        object: DataRef,
        /// Where it is put.
        path: Path,
    },
    /// Put a file at a path, with the contents that the next item gives.
    ModifyInline {
        /// The mode of a file: neither of a gitlink nor of a directory.
        mode: FileMode,
        /// Where it is put.
        path: Path,
    },
    /// The contents of the file of the last `ModifyInline`.
    InlineData(&'a [u8]),
    /// Delete the file or directory at a path.
    Delete(Path),
    /// Copy the file or directory at a path.
    Copy {
        /// From here.
        source: Path,
        /// To here.
        path: Path,
    },
    /// Rename the file or directory at a path.
    Rename {
        /// From here.
        source: Path,
        /// To here.
        path: Path,
    },
    /// Delete all files.
    DeleteAll,
}

/// A command that sets a branch or a mark and stores nothing: git-fast-import(1), "reset" and
/// "alias".
#[derive(Drop)]
pub enum RefCommand<'a> {
    /// Make the branch of this ref unborn. A `ResetFrom` may follow.
    Reset(RefName),
    /// Set the branch of the last `Reset` to this commit.
    ResetFrom(CommitIsh<'a>),
    /// Set a mark to a commit.
    Alias {
        /// The mark.
        mark: Mark,
        /// The commit.
        commit: CommitIsh<'a>,
    },
}

/// A command that prints something: git-fast-import(1), "get-mark", "cat-blob", "ls" and
/// "progress".
#[derive(Drop)]
pub enum ReplyCommand<'a> {
    /// Print the name of the object of this mark.
    GetMark(Mark),
    /// Print a blob.
    CatBlob(DataRef),
    /// Print the entry at a path of a tree, or of the tree of a commit.
    Ls {
        /// The tree or commit.
        root: DataRef,
        /// The path from there.
        path: Path,
    },
    /// Print the entry at a path of the open commit.
    LsInCommit(Path),
    /// Print this whole line, which has no line end.
    Progress(&'a [u8]),
}

/// A command of the stream itself: git-fast-import(1), "checkpoint", "done", "feature" and
/// "option".
#[derive(Drop)]
pub enum ControlCommand {
    /// Save what the stream has done so far.
    Checkpoint,
    /// The stream ends here; what follows is not read.
    Done,
    /// The stream uses this feature.
    Feature(Feature),
    /// Point HEAD to this ref, which is not `HEAD` itself: `option gitpool head`.
    Head(RefName),
}

/// The answer of `Parser::take` to an item.
#[derive(Drop)]
pub struct Done<'a> {
    /// Whether the item ends an open commit. The commit ends before the item's own act.
    pub ends_commit: bool,
    /// What the item asks for.
    pub act: Act<'a>,
}

// Acts and answers are passed by value, so they have to be small.
const _: () = prove!(size_of::<Act<'static>>() < 100);

const _: () = prove!(size_of::<Result<Done<'static>, Fault>>() < 100);
