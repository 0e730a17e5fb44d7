//! The kinds of lines, by how they begin: git-fast-import(1), "data".

ghost use Rattle.std.specs.Prelude.{◌≡◌};
ghost use Rattle.stream_lex.specs.Headers.{header_kind, kind_of};

use numerals::read_number;

/// The kind of a line, by how it begins. A line that begins with `data SP` is a data header.
#[derive(Clone, Copy)]
pub enum LineKind {
    /// An empty line.
    Empty,
    /// A line that begins with `#`.
    Comment,
    /// The header of a data with this many bytes.
    Counted(u64),
    /// The header of a data that ends at a delimiter line. The delimiter is not empty.
    Delimited,
    /// A data header with a bad count or an empty delimiter.
    BadHeader,
    /// Any other line.
    Other,
}

/// The kind of the line `text`, given without its line end.
#[tactic(auto, unfolding(crate::specs::Headers::kind_of))]
pub fn kind(text: &[u8]) -> LineKind
    ensures { result ≡ kind_of text.now }
{
    if text.is_empty() {
        LineKind::Empty
    } else if text.starts_with(b"#") {
        LineKind::Comment
    } else if text.starts_with(b"data ") {
        data_kind(text.split_at(5).1)
    } else {
        LineKind::Other
    }
}

/// The kind of a data header, by the text after `data SP`.
#[tactic(auto, unfolding(crate::specs::Headers::header_kind))]
fn data_kind(argument: &[u8]) -> LineKind
    ensures { result ≡ header_kind argument.now }
{
    if argument.starts_with(b"<<") {
        if argument.len() == 2 {
            LineKind::BadHeader
        } else {
            LineKind::Delimited
        }
    } else {
        match read_number(argument) {
            Some(size) => LineKind::Counted(size),
            None => LineKind::BadHeader,
        }
    }
}
