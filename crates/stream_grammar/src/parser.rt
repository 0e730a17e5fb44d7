//! The parser of commands: git-fast-import(1), "Commands".
//!
//! A parser holds the open command, or the fault that it has answered. It keeps nothing of the acts
//! that it gave.

ghost use Rattle.std.specs.Prelude.{◌≡◌, ◌≢◌, ◌∷◌, ◌++◌, List, [], Err};
ghost use Rattle.stream_lex.specs.Looking.{item_of};
ghost use Rattle.stream_grammar.specs.Commands.{Leads, top, done_by, after, end_of};
ghost use Rattle.stream_grammar.specs.{Parts.{part_of}, Shown.{Answers, AsksBy, given_shown}};
ghost use Rattle.stream_lex.specs.Items as items;
ghost use Rattle.stream_grammar.specs.Commands as commands;

use crate::act::Done;
use crate::command::{self, Command, is_commit};
use crate::fault::Fault;
use crate::stage::{Stage, may_end_at, opened_of};
use std::alloc::Global;
use std::marker::Model;
use stream_lex::Item;

/// Reads the items of one stream in order, and answers what each asks for.
#[derive(Drop)]
pub struct Parser {
    alloc: Global,
    fault: Option<Fault>,
    command: Command,
}

impl Model for Parser {
    ghost use Rattle.stream_grammar.specs.{Commands.{Parsing}, Shown.{parsing_shown}};

    ghost Value = { Parsing };

    ghost view = { λ parser. parsing_shown parser.fault parser.command };

    ghost use Rattle.stream_grammar.specs.Stages.{HasMark};

    ghost invariant = { λ parser. HasMark parser.command.stage parser.command.mark };
}

impl Parser {
    /// A parser at the beginning of a stream. Takes no memory; the copies in its acts come from
    /// `alloc`.
    pub fn new(alloc: Global) -> Parser
        ensures { result ≡ Ok top }
    {
        Parser {
            alloc,
            fault: None,
            command: Command {
                late: false,
                mark: None,
                stage: Stage::Top,
            },
        }
    }

    /// Takes the next item and answers what it asks for: git-fast-import(1), "Commands". The bytes
    /// of the answer are those of the item, or copies of them.
    ///
    /// `Fault::MissingPart` (5) if the open command needs another part first.
    /// `Fault::UnknownCommand` (2) if no command is open, or the open one may end, and the item
    /// begins none. The first word alone decides these two. After that the first wrong part of the
    /// line, from left to right, decides: `Malformed` (3), `FeatureTooLate` (9) before
    /// `FeatureNotSupported` (8), `BadPath` (10) and `BadRefName` (11) before `Limit` (25),
    /// `BadMark` (12), `BadIdentity` (21) before `BadDate` (22), `BadMode` (23). A parser that has
    /// answered one of these answers it from then on, whatever comes.
    ///
    /// `Act::Wait` comes only for the first line of a blob or an alias, `mark`, `original-oid`,
    /// `option` and a blank line.
    ///
    /// Takes memory for refs, idents and paths. `Fault::Memory` (90) may replace any answer but a
    /// fault that was answered before, and leaves the parser unchanged.
    pub fn take<'a>(&mut self, item: Item<'a>) -> Result<Done<'a>, Fault>
        ensures answers { Answers result (done_by self.old (item_of item.entry)) }
        ensures leaves { result ≢ Err Fault.Memory
            → self.new ≡ after self.old (item_of item.entry) }
        ensures leads { (stream : List items.Item) (given : List commands.Done)
            → result ≢ Err Fault.Memory → Leads stream given self.old
            → Leads (stream ++ item_of item.entry ∷ []) (given ++ given_shown result) self.new }
        ensures asks { AsksBy (part_of (item_of item.entry)) result }
        ensures unchanged { result ≡ Err Fault.Memory → self.new ≡ self.old }
        ensures failed { (fault : Fault) → self.old ≡ Err fault → result ≡ Err fault }
    {
        if let Some(answered) = self.fault {
            return Err(answered);
        }
        match command::take(self.alloc, &mut self.command, item) {
            Ok(done) => Ok(done),
            Err(Fault::Memory) => Err(Fault::Memory),
            Err(fault) => {
                self.fault = Some(fault);
                Err(fault)
            }
        }
    }

    /// Whether the end of the stream ends an open commit. Takes no memory.
    ///
    /// `Fault::MissingPart` (5) if the open command needs another part. A parser that has answered
    /// a fault answers it again.
    pub fn end(&self) -> Result<bool, Fault>
        ensures { result ≡ end_of self.now }
    {
        if let Some(fault) = self.fault {
            return Err(fault);
        }
        if may_end_at(self.command.stage) {
            Ok(is_commit(opened_of(self.command.stage)))
        } else {
            Err(Fault::MissingPart)
        }
    }
}
