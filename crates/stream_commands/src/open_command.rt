//! The open command: git-fast-import(1), "commit", "tag" and "reset".

ghost use Rattle.std.specs.Prelude.{◌≡◌, Err, MatchResult};
ghost use Rattle.stream_parts.specs.OpenCommand.{changes_in};
ghost use Rattle.stream_commands.specs.State.{command_shown};
ghost use Rattle.stream_grammar.specs.declared.fault.Fault.TheVariants as text_fault;

use open_commits::OpenCommit;
use std::mem;
use stream_parts::fault::Fault;
use stream_parts::headers::{CommitHeader, InlineFile, TagHeader};
use tenant_refs::RefName;

/// The command that is open.
#[derive(Drop)]
pub enum OpenCommand {
    /// No command.
    Nothing,
    /// A commit before its message.
    Commit(CommitHeader),
    /// A tag before its message.
    Tag(TagHeader),
    /// A reset before its `from`.
    Reset(RefName),
    /// A commit after its message.
    Changes(OpenCommit),
    /// A commit whose file waits for its data.
    Inline(OpenCommit, InlineFile),
}

impl OpenCommand {
    /// Opens another command in its place, and drops it.
    pub fn open(&mut self, command: OpenCommand)
        ensures { self.new ≡ command }
    {
        drop(mem::replace(self, command));
    }

    /// Takes it out. Nothing is open then.
    pub fn take(&mut self) -> OpenCommand
        ensures taken { result ≡ self.old }
        ensures after { self.new ≡ OpenCommand.Nothing }
    {
        mem::replace(self, OpenCommand::Nothing)
    }

    /// Takes out a commit after its message, or refuses (2) and drops any other. Nothing is open
    /// then.
    pub fn take_changes(&mut self) -> Result<OpenCommit, Fault>
        ensures taken { MatchResult result
            (λ commit. self.old ≡ OpenCommand.Changes commit)
            (λ fault. changes_in (command_shown self.old) ≡ Err fault) }
        ensures after { self.new ≡ OpenCommand.Nothing }
    {
        match self.take() {
            OpenCommand::Changes(commit) => Ok(commit),
            other => Err(other.refusal()),
        }
    }

    /// The refusal of a line that belongs to another command. This one is dropped.
    pub fn refusal(self) -> Fault
        ensures { result ≡ Fault.Text text_fault.UnknownCommand }
    {
        drop(self);
        not_open()
    }
}

/// The refusal of a line whose command is not open. The parser lets no such line through.
pub fn not_open() -> Fault
    ensures { result ≡ Fault.Text text_fault.UnknownCommand }
{
    Fault::Text(stream_grammar::Fault::UnknownCommand)
}
