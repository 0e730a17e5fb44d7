//! The items of a stream, borrowed from the lexer's buffer.

/// One item of a stream: git-fast-import(1), "Input Format". It borrows its bytes from the lexer
/// until the lexer's next call.
#[derive(Clone, Copy, Debug, PartialEq, Eq)]
pub enum Item<'a> {
    /// A line that is neither empty, a comment nor a data header, without its line end.
    Line(&'a [u8]),
    /// The raw bytes of one data, counted or delimited.
    Data(&'a [u8]),
    /// An empty line.
    Blank,
}
