//! The lines of a stream, without its data, comments and blank lines.

ghost use Rattle.std.specs.Prelude.{◌≡◌, Bool, false, [], IfOk, OnOk};
ghost use Rattle.stream_lex.specs.{Items.{Rest}, Reading.{reading}};
ghost use Rattle.uses.specs.Outlines.{Outlines, outline_of};

use std::alloc::Global;
use stream_lex::{Fault, Item, Lexer};

// Appends the lines among the items that the lexer has.
fn append_lines(lexer: &mut Lexer, text: &mut Vec<u8>) -> Result<(), Fault>
    ensures { OnOk result (Outlines lexer.old.tail text.old.items lexer.new.tail text.new.items) }
{
    'items: while let Some(item) = lexer.next()? {
        if let Item::Line(line) = item {
            text.extend_from_slice(line)?;
            text.extend_from_slice(b"\n")?;
        }
    }
    Ok(())
}

/// The lines of a whole stream, each with its line end. The fault is the first of the stream, where
/// it cannot be read on or is cut off, or `Fault::Memory` (90).
pub fn outline(alloc: Global, stream: &[u8]) -> Result<Vec<u8>, Fault>
    ensures lines { IfOk result (λ text.
        text.items ≡ outline_of (reading false stream.now).items) }
    ensures whole { OnOk result
        ((skips : Bool) × ((reading false stream.now).tail ≡ Rest skips [])) }
{
    let mut lexer = Lexer::new(alloc);
    let mut text = Vec::new(alloc);
    lexer.feed(stream)?;
    append_lines(&mut lexer, &mut text)?;
    lexer.end()?;
    Ok(text)
}
