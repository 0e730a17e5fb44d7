//! A check of the grammar of git-fast-import(1), before any repository is there.

ghost use Rattle.std.specs.Prelude.{OnOk, map};
ghost use Rattle.stream_grammar.specs.{Parts.{part_of}, Whole.{AreCommands}};
ghost use Rattle.stream_lex.specs.Looking.{item_of};

use std::alloc::Global;
use stream_grammar::{Fault, Parser, laws};
use stream_lex::Item;

/// Whether these items, as a lexer gives them, are whole commands, one after the other. The fault
/// is that of the first item that fits nowhere, `MissingPart` (5) where the last command lacks a
/// part, or `Memory` (90).
pub fn check(alloc: Global, items: &[Item<'_>]) -> Result<(), Fault>
    ensures { OnOk result (AreCommands (map part_of (map item_of items.now))) }
{
    let mut parser = Parser::new(alloc);
    for item in items {
        drop(parser.take(*item)?);
    }
    parser.end()?;
    laws::whole_streams();
    Ok(())
}
