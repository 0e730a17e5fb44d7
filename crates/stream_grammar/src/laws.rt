//! Laws of the definitions that the contracts of the parser cite. Each function is empty: its
//! contract is the law, and a call does nothing.

ghost use Rattle.std.specs.Prelude.{◌≡◌, ◌↔◌, ◌<◌, ◌^◌, ◌∷◌, ◌++◌, ℕ, Bool, List, [], IfSome, true};
ghost use Rattle.std.specs.Prelude.{codes, decimal, length, map};
ghost use Rattle.hex.specs.Hex.{IsBytes, encode_lower};
ghost use Rattle.stream_grammar.specs.{declared.fault.Fault.{Fault}, declared.part.Part.{Part}};
ghost use Rattle.stream_grammar.specs.Commands.{Done, Parsing, given_before, commands, done_by};
ghost use Rattle.stream_grammar.specs.Commands.{end_of, top, Leads, after, given_by};
ghost use Rattle.stream_grammar.specs.{Grammar.{Term, production_of}, Parts.{part_of, same}};
ghost use Rattle.stream_grammar.specs.{Texts.{dataref_of, mark_of}, WellFormed.{IsWellFormed}};
ghost use Rattle.stream_grammar.specs.Whole.{AreCommands, ArePlaced, AreTaken, Fills, FindsPlace};
ghost use Rattle.stream_lex.specs.Items as items;

use crate::data_ref::DataRef;

/// The commands of all items are those of a prefix and then those of the other items. So what a
/// prefix of the items gives is a prefix of what all items give.
pub fn in_turn()
    ensures { (parsing : Parsing) (front more : List items.Item)
        → commands parsing (front ++ more)
        ≡ given_before (commands parsing front).given
        (commands (commands parsing front).rest more) }
{}

/// If some items gave these acts and left this parser, then those items and one more give these
/// acts, followed by what the parser gives for the item, and leave what it leaves.
pub fn one_more_item()
    ensures { (stream : List items.Item) (given : List Done) (parsing : Parsing) (item : items.Item)
        → Leads stream given parsing
        → Leads (stream ++ item ∷ []) (given ++ given_by (done_by parsing item))
        (after parsing item) }
{}

/// After a fault nothing is given, and the fault stays.
pub fn faults_stay()
    ensures { (fault : Fault) (later : List items.Item)
        → commands (Err fault) later ≡ record { given = []; rest = Err fault } }
{}

/// The parts of a whole command are exactly those that fill the terms of its production.
pub fn whole_commands()
    ensures filled { (terms : List Term) (parts : List Part)
        → AreTaken parts terms → Fills terms parts }
    ensures taken { (command : Part) → IfSome (production_of command)
        (λ terms. (parts : List Part) → Fills terms parts → AreTaken parts terms) }
{}

/// The items of a stream that ends well are the parts of whole commands, one after the other. A
/// stream of whole commands is refused, if at all, by what its words say, and never as an unknown
/// command (2) or a missing part (5): each of its parts is accepted where it comes.
pub fn whole_streams()
    ensures placed { (parts : List Part) → AreCommands parts → ArePlaced parts [] }
    ensures found { (stream : List items.Item) → AreCommands (map part_of stream)
        → FindsPlace (end_of (commands (Ok top) stream).rest) }
    ensures filled { (stream : List items.Item) (ends_commit : Bool)
        → end_of (commands (Ok top) stream).rest ≡ Ok ends_commit
        → AreCommands (map part_of stream) }
{}

/// Two parts count as one where they are equal, and nowhere else.
pub fn same_parts()
    ensures { (part other : Part) → same part other ≡ true ↔ part ≡ other }
{}

/// A mark that is written in decimal digits is read as it was written.
pub fn written_marks()
    ensures mark { (number : ℕ) → 0 < number → number < 2 ^ 64
        → mark_of (codes ":" ++ decimal number) ≡ Ok number }
    ensures dataref { (number : ℕ) → 0 < number → number < 2 ^ 64
        → dataref_of (codes ":" ++ decimal number) ≡ Ok (DataRef.Mark number) }
{}

/// An object name that is written in hexadecimal digits is read as it was written.
pub fn written_names()
    ensures { (id : List ℕ) → IsBytes id → length id ≡ 20
        → dataref_of (encode_lower id) ≡ Ok (DataRef.Name id) }
{}

/// The act of an item is well formed. Its refs are ref names of at most 1,024 bytes, or `HEAD`
/// where that is allowed. Its idents can be written, and its encoding is on one line. Its paths are
/// within the limits, and a tree may have them. Its object names have 20 bytes.
pub fn acts_are_well_formed()
    ensures { (parsing : Parsing) (item : items.Item) (done : Done) → done_by parsing item ≡ Ok done
        → IsWellFormed done.act }
{}
