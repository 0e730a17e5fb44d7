//! What a stream has of its own apart from its objects: marks, branches, the open command, HEAD and
//! switches.

ghost use Rattle.std.specs.Prelude.{◌≡◌};
ghost use Rattle.open_commits.specs.OpenCommit.{commit_held};
ghost use Rattle.stream_parts.specs.OpenCommand.{Changes};
ghost use Rattle.stream_commands.specs.State.{empty_state, state_shown, state_with};

use crate::open_command::OpenCommand;
use git_objects::Name;
use kept_files::KeptFiles;
use open_commits::OpenCommit;
use revisions::ChainCache;
use std::alloc::Global;
use stream_marks::Marks;
use stream_parts::branches::Branches;
use stream_parts::head::Head;
use tenant_refs::RefName;

/// What a stream has of its own apart from its objects.
pub struct StreamState {
    /// What its calls allocate from.
    pub alloc: Global,
    /// Its marks, with their objects.
    pub marks: Marks,
    /// Its branches, in the order of their first appearance.
    pub branches: Branches,
    /// The tags that wait for the next checkpoint, with their refs.
    pub tags: Vec<(RefName, Name)>,
    /// The open command.
    pub command: OpenCommand,
    /// The files of the last commits that ended, for commits that start from them.
    pub kept: KeptFiles,
    /// What is kept of walks along first parents and along tags, for the next ones.
    pub chain: ChainCache,
    /// The ref that HEAD is to name, if the stream set one since the last checkpoint.
    pub head: Option<Head>,
    /// Whether refs are moved by force.
    pub forces: bool,
    /// Whether the stream must end with `done`.
    pub needs_done: bool,
}

// Not derived, so that crates above need not prove again how its parts are dropped.
impl Drop for StreamState {
    fn drop(self) {
        let StreamState {
            alloc: _,
            marks,
            branches,
            tags,
            command,
            kept,
            chain,
            head,
            forces: _,
            needs_done: _,
        } = self;
        drop(marks);
        drop(branches);
        drop(tags);
        drop(command);
        drop(kept);
        drop(chain);
        drop(head);
    }
}

/// The state before the first item. Allocates nothing; later calls allocate from `alloc`.
pub fn new_state(alloc: Global) -> StreamState
    ensures { state_shown result ≡ empty_state }
{
    StreamState {
        alloc,
        marks: Marks::new(alloc),
        branches: Branches::new(alloc),
        tags: Vec::new(alloc),
        command: OpenCommand::Nothing,
        kept: KeptFiles::new(alloc),
        chain: ChainCache::new(alloc),
        head: None,
        forces: false,
        needs_done: false,
    }
}

/// Makes a commit the open one. Its files may change.
pub fn keep_open(state: &mut StreamState, commit: OpenCommit)
    ensures { state_shown state.new
        ≡ state_with (state_shown state.old) (Changes (commit_held commit)) }
{
    state.command.open(OpenCommand::Changes(commit));
}
