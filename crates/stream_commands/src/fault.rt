//! How a refusal of the open commit becomes one of the stream.

ghost use Rattle.std.specs.Prelude.{◌≡◌};
ghost use Rattle.stream_commands.specs.Faults.{changed_or, changing_fault};

use stream_parts::fault::Fault;

/// The refusal of the open commit, as one of the stream.
pub fn fault_of(refusal: open_commits::Fault) -> Fault
    ensures { result ≡ changing_fault refusal }
{
    match refusal {
        open_commits::Fault::MarkUnknown => Fault::MarkUnknown,
        open_commits::Fault::ObjectUnknown => Fault::ObjectUnknown,
        open_commits::Fault::WrongKind => Fault::WrongKind,
        open_commits::Fault::SourceMissing => Fault::SourceMissing,
        open_commits::Fault::RootNotDirectory => Fault::RootNotDirectory,
        open_commits::Fault::NameCollision => Fault::NameCollision,
        open_commits::Fault::Limit => Fault::Limit,
        open_commits::Fault::Memory => Fault::Memory,
    }
}

/// The answer of a change of the open commit, with its fault as one of the stream.
pub fn passed_on(given: Result<(), open_commits::Fault>) -> Result<(), Fault>
    ensures { result ≡ changed_or given }
{
    match given {
        Ok(()) => Ok(()),
        Err(refusal) => Err(fault_of(refusal)),
    }
}
