//! Which objects of a table a lookup sees.

/// Which objects of a table are in sight.
#[derive(Clone, Copy)]
pub enum Sight {
    /// Only the committed ones, as queries see them.
    Committed,
    /// All, with those of the open stream.
    All,
}
