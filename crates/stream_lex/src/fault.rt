//! Why a stream cannot be read any further.

ghost use Rattle.std.specs.Prelude.{◌≡◌};
ghost use Rattle.stream_lex.specs.Faults.{code_of};
ghost use Rattle.stream_lex.specs.declared.fault.Fault.TheVariants as fault;

use std::alloc::AllocError;
use thiserror::Error;

/// Why a stream cannot be read any further: git-fast-import(1), "Input Format" and "data".
///
/// After every fault but `Memory` and `CutOff` the lexer answers that fault from then on.
#[derive(Clone, Copy, Debug, PartialEq, Eq, Error)]
pub enum Fault {
    /// A line has more than 1,048,575 bytes, without its line end (1). Comments and data headers
    /// are lines too.
    #[error("a line is too long")]
    LineTooLong = 1,
    /// A data header has a bad count or an empty delimiter (4).
    #[error("a data header has a bad count or delimiter")]
    BadData = 4,
    /// The stream ends within a line, a comment or a data (6). The lexer is unchanged.
    #[error("the stream is cut off")]
    CutOff = 6,
    /// A data has more than 67,108,864 bytes (25).
    #[error("a data is too large")]
    Limit = 25,
    /// The buffer could not grow (90). The lexer is unchanged.
    #[error("out of memory")]
    Memory = 90,
}

impl Fault {
    /// The number under which the fault is reported: 1, 4, 6, 25 or 90.
    pub fn code(&self) -> u16
        ensures { result ≡ code_of self.now }
    {
        *self as u16
    }
}

impl From<AllocError> for Fault {
    ghost from_gives = { λ _ refused. refused ≡ fault.Memory };

    fn from(_refused: AllocError) -> Fault {
        Fault::Memory
    }
}
