//! The open command: its mark so far, and which parts may still come.

ghost use Rattle.std.specs.Prelude.{◌≡◌, OnErr};
ghost use Rattle.stream_lex.specs.Looking.{item_of};
ghost use Rattle.stream_grammar.specs.{Commands.{step}, Parts.{part_of}, Stages.{HasMark}};
ghost use Rattle.stream_grammar.specs.Shown.{open_shown, AsksBy, Steps};
ghost use Rattle.stream_grammar.specs.Commands as commands;

use crate::act::Done;
use crate::fault::Fault;
use crate::lines::{first_act, inner_act};
use crate::mark::Mark;
use crate::part::{is_early, part_of};
use crate::stage::{Fit, Opened, Stage, first_stage, fit_of, is_whole, opened_of};
use std::alloc::Global;
use stream_lex::Item;

/// The open command.
#[derive(Clone, Copy)]
pub struct Command {
    /// Whether it is too late for a `feature`.
    pub late: bool,
    /// The mark of the command, if its `mark` line has come.
    pub mark: Option<Mark>,
    pub stage: Stage,
}

/// Whether a commit is open, after its message.
pub fn is_commit(opened: Opened) -> bool
    ensures { result ≡ commands.is_commit opened }
{
    matches!(opened, Opened::Changes | Opened::Inline)
}

/// Takes an item into the open command, or begins the next command with it. Nothing has changed
/// after a fault.
#[tactic(auto, unfolding(crate::specs::Commands::step))]
pub fn take<'a>(alloc: Global, now: &mut Command, item: Item<'a>) -> Result<Done<'a>, Fault>
    requires { HasMark now.old.stage now.old.mark }
    ensures steps { Steps result now.new (step (open_shown now.old) (item_of item.entry)) }
    ensures same { OnErr result (now.new ≡ now.old) }
    ensures marked { HasMark now.new.stage now.new.mark }
    ensures asks { AsksBy (part_of (item_of item.entry)) result }
{
    let part = part_of(item);
    let opened = opened_of(now.stage);
    match fit_of(now.stage, part) {
        Fit::Stands(stage) => {
            let act = inner_act(alloc, opened, &mut now.mark, part, item)?;
            now.stage = stage;
            let ends_commit = is_commit(opened) && is_whole(stage);
            Ok(Done { ends_commit, act })
        }
        Fit::Ends => match first_stage(part) {
            None => Err(Fault::UnknownCommand),
            Some(stage) => {
                let act = first_act(alloc, now.late, part, item)?;
                now.late = now.late || !is_early(part);
                now.mark = None;
                now.stage = stage;
                let ends_commit = is_commit(opened);
                Ok(Done { ends_commit, act })
            }
        },
        Fit::Misses => Err(Fault::MissingPart),
    }
}
