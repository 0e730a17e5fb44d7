//! Parts: the kind of an item, by its first word. Of an `M` line the third word counts too, which
//! says whether its data follow.

ghost use Rattle.std.specs.Prelude.{◌≡◌};
ghost use Rattle.stream_lex.specs.Looking.{item_of};
ghost use Rattle.stream_grammar.specs.Parts as parts;

use crate::changes::after_regular;
use crate::text::{argument, first_word};
use stream_lex::Item;

/// The kind of an item, by its first word, whatever the rest of it says. After `M` the third word
/// says whether data follow.
#[derive(Clone, Copy, PartialEq, Eq)]
pub enum Part {
    /// The first line of a command of several lines.
    Opening(OpeningLine),
    /// A command of one line that prints something.
    Reply(ReplyLine),
    /// A command of one line that is about the stream itself.
    Control(ControlLine),
    /// A line inside a command that says something about its object.
    Header(HeaderLine),
    /// A line inside a command that names a commit.
    CommitIsh(CommitIshLine),
    /// A line that changes the files of a commit.
    Change(ChangeLine),
    Data,
    Blank,
    /// A line whose first word is none of the above.
    Unknown,
}

/// The first line of a command of several lines: git-fast-import(1), "Commands".
#[derive(Clone, Copy, PartialEq, Eq)]
pub enum OpeningLine {
    Blob,
    Commit,
    Tag,
    Reset,
    Alias,
}

/// A command of one line that prints something.
#[derive(Clone, Copy, PartialEq, Eq)]
pub enum ReplyLine {
    Progress,
    GetMark,
    CatBlob,
    Ls,
}

/// A command of one line that is about the stream itself.
#[derive(Clone, Copy, PartialEq, Eq)]
pub enum ControlLine {
    Checkpoint,
    Done,
    Feature,
    /// A line that begins with `option`.
    OptionCommand,
}

/// A line of a blob, a commit, a tag or an alias that says something about its object.
#[derive(Clone, Copy, PartialEq, Eq)]
pub enum HeaderLine {
    Mark,
    OriginalOid,
    Author,
    Committer,
    Encoding,
    Tagger,
}

/// A line with a commit-ish: git-fast-import(1), "from", "merge" and "alias".
#[derive(Clone, Copy, PartialEq, Eq)]
pub enum CommitIshLine {
    From,
    Merge,
    To,
}

/// A line that changes the files of a commit: git-fast-import(1), "filemodify" to "filedeleteall".
#[derive(Clone, Copy, PartialEq, Eq)]
pub enum ChangeLine {
    /// A line that begins with `M` and names the contents by a mark or an object name.
    Modify,
    /// A line that begins with `M` and has `inline` there: the contents are the data after it.
    ModifyInline,
    Delete,
    Copy,
    Rename,
    DeleteAll,
}

// Each part by the first word of its line and the space after it, or by the whole line if that has
// no space. The words that most lines begin with come first.
const WORDS: &[(&[u8], Part)] = &[
    (b"M ", Part::Change(ChangeLine::Modify)),
    (b"D ", Part::Change(ChangeLine::Delete)),
    (b"C ", Part::Change(ChangeLine::Copy)),
    (b"R ", Part::Change(ChangeLine::Rename)),
    (b"deleteall", Part::Change(ChangeLine::DeleteAll)),
    (b"mark ", Part::Header(HeaderLine::Mark)),
    (b"original-oid ", Part::Header(HeaderLine::OriginalOid)),
    (b"author ", Part::Header(HeaderLine::Author)),
    (b"committer ", Part::Header(HeaderLine::Committer)),
    (b"encoding ", Part::Header(HeaderLine::Encoding)),
    (b"tagger ", Part::Header(HeaderLine::Tagger)),
    (b"from ", Part::CommitIsh(CommitIshLine::From)),
    (b"merge ", Part::CommitIsh(CommitIshLine::Merge)),
    (b"to ", Part::CommitIsh(CommitIshLine::To)),
    (b"blob", Part::Opening(OpeningLine::Blob)),
    (b"commit ", Part::Opening(OpeningLine::Commit)),
    (b"tag ", Part::Opening(OpeningLine::Tag)),
    (b"reset ", Part::Opening(OpeningLine::Reset)),
    (b"alias", Part::Opening(OpeningLine::Alias)),
    (b"progress ", Part::Reply(ReplyLine::Progress)),
    (b"get-mark ", Part::Reply(ReplyLine::GetMark)),
    (b"cat-blob ", Part::Reply(ReplyLine::CatBlob)),
    (b"ls ", Part::Reply(ReplyLine::Ls)),
    (b"checkpoint", Part::Control(ControlLine::Checkpoint)),
    (b"done", Part::Control(ControlLine::Done)),
    (b"feature ", Part::Control(ControlLine::Feature)),
    (b"option ", Part::Control(ControlLine::OptionCommand)),
];

// Whether a line fits a word: it begins with a word that ends in a space, and is equal to a word
// that does not.
fn fits(word: &[u8], line: &[u8]) -> bool
    ensures { result ≡ parts.fits word.now line.now }
{
    if word.ends_with(b" ") {
        line.starts_with(word)
    } else {
        line == word
    }
}

// The part of the first word that fits a line.
#[tactic(auto, unfolding(crate::specs::Parts::part_by_word))]
fn part_by_word(line: &[u8]) -> Part
    ensures { result ≡ parts.part_by_word line.now }
{
    for (word, part) in WORDS {
        if fits(word, line) {
            return *part;
        }
    }
    Part::Unknown
}

// Whether the third word of a line is `inline`.
fn is_inline(line: &[u8]) -> bool
    ensures { result ≡ parts.is_inline line.now }
{
    first_word(argument(argument(line))) == b"inline".as_slice()
}

/// The part of a line.
fn part_of_line(line: &[u8]) -> Part
    ensures { result ≡ parts.part_of_line line.now }
{
    // Most lines of most streams give a regular file by a mark or an object name. Neither begins as
    // `inline` does, so such a line needs no search for a word.
    if let Some(text) = line.strip_prefix(b"M ")
        && let Some([first, ..]) = after_regular(text)
        && *first != b'i'
    {
        return Part::Change(ChangeLine::Modify);
    }
    match part_by_word(line) {
        Part::Change(ChangeLine::Modify) if is_inline(line) => {
            Part::Change(ChangeLine::ModifyInline)
        }
        part => part,
    }
}

/// The part of an item, by its first word. Takes no memory.
pub fn part_of(item: Item<'_>) -> Part
    ensures { result ≡ parts.part_of (item_of item.entry) }
{
    match item {
        Item::Line(line) => part_of_line(line),
        Item::Data(_) => Part::Data,
        Item::Blank => Part::Blank,
    }
}

/// Whether a `feature` may still come after a command that begins with this part: after features,
/// options and blank lines.
pub fn is_early(part: Part) -> bool
    ensures { result ≡ parts.is_early part }
{
    matches!(
        part,
        Part::Control(ControlLine::Feature | ControlLine::OptionCommand) | Part::Blank
    )
}
