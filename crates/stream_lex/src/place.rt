//! Where a lexer is in the bytes whose item was not given yet.

use crate::fault::Fault;

/// What is known about the beginning of the bytes whose item was not given yet.
#[derive(Clone, Copy)]
pub enum Place {
    /// A line. After a data, a line end that comes first is skipped.
    Line { after_data: bool },
    /// A header of `header` bytes, its line end included, and after it a data of `size` bytes.
    Counted { header: usize, size: usize },
    /// A header of `header` bytes, its line end included, and after it a data that ends at a
    /// delimiter line. No line of the data before the byte at `line` is the delimiter.
    Delimited { header: usize, line: usize },
    /// Nothing: the stream cannot be read any further.
    Failed(Fault),
}
