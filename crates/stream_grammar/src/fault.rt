//! Why an item of a stream is refused.

ghost use Rattle.std.specs.Prelude.{◌≡◌};
ghost use Rattle.stream_grammar.specs.Faults.{code_of};
ghost use Rattle.stream_grammar.specs.declared.fault.Fault.TheVariants as fault;

use std::alloc::AllocError;
use thiserror::Error;

/// Why an item of a stream is refused: git-fast-import(1), "Commands". A parser that has answered
/// one of these answers it from then on, except `Memory`, which leaves the parser unchanged.
#[derive(Clone, Copy, Debug, PartialEq, Eq, Error)]
pub enum Fault {
    /// The item begins no command, and no command is open or the open one may end here (2).
    #[error("unknown command")]
    UnknownCommand = 2,
    /// The line begins with a known word and is malformed after it (3): a mark has no colon, a
    /// dataref has neither a colon nor 40 hexadecimal digits, a space is missing, `inline` has the
    /// mode of a gitlink or a directory, or an encoding is empty or holds a line end.
    #[error("malformed line")]
    Malformed = 3,
    /// The open command needs another part before the item or before the end of the stream (5).
    #[error("missing part")]
    MissingPart = 5,
    /// The feature, or the option of Git, is not supported (8).
    #[error("feature not supported")]
    FeatureNotSupported = 8,
    /// A feature, or an option of Git or of this service, comes after another command (9).
    #[error("feature too late")]
    FeatureTooLate = 9,
    /// A path is malformed, or does not end as its place requires (10).
    #[error("bad path")]
    BadPath = 10,
    /// The text is not a ref name (11).
    #[error("bad ref name")]
    BadRefName = 11,
    /// No number from 1 to 2^64 - 1 in at most 20 digits follows the colon of a mark (12).
    #[error("bad mark")]
    BadMark = 12,
    /// The name or the email of an ident, or the space after it, is malformed (21).
    #[error("bad identity")]
    BadIdentity = 21,
    /// The seconds of an ident, or the offset after them, are malformed (22).
    #[error("bad date")]
    BadDate = 22,
    /// The mode is not one of git-fast-import(1), "filemodify" (23).
    #[error("bad mode")]
    BadMode = 23,
    /// A ref name has more than 1,024 bytes, or a path has more than 16,383 bytes or 256 components
    /// (25).
    #[error("a limit is passed")]
    Limit = 25,
    /// An allocation failed (90). The parser is unchanged.
    #[error("out of memory")]
    Memory = 90,
}

impl Fault {
    /// The number of this fault: 2, 3, 5, 8, 9, 10, 11, 12, 21, 22, 23, 25 and 90, in the order of
    /// the variants.
    pub fn code(self) -> u16
        ensures { result ≡ code_of self }
    {
        self as u16
    }
}

impl From<AllocError> for Fault {
    ghost from_gives = { λ _ refused. refused ≡ fault.Memory };

    fn from(_refused: AllocError) -> Fault {
        Fault::Memory
    }
}
