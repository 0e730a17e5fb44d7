//! Why bytes are not a valid pool file.

ghost use Rattle.std.specs.Prelude.{◌≡◌};
ghost use Rattle.pool_file_format.specs.Faults.{number_of};

use thiserror::Error;

/// The first fault of bytes that are not a valid pool file.
#[derive(Clone, Copy, Debug, PartialEq, Eq, Error)]
pub enum Refusal {
    /// The first bytes are not those of a pool file: 60.
    #[error("fault 60")]
    NoPoolFile = 60,
    /// The version is not 1 or 2: 61.
    #[error("fault 61")]
    UnknownVersion = 61,
    /// The bytes end before the file does: 62.
    #[error("fault 62")]
    CutOff = 62,
    /// The digest is not that of the bytes before it: 63.
    #[error("fault 63")]
    WrongDigest = 63,
    /// The bytes are not in canonical form, the only text of what they say: 64.
    #[error("fault 64")]
    NotCanonical = 64,
    /// An object is malformed or past a limit: 65.
    #[error("fault 65")]
    BadObject = 65,
    /// What an object or a ref refers to is missing, or comes later, or has another kind: 66.
    #[error("fault 66")]
    MissingReference = 66,
    /// A ref or HEAD has a bad name, or a ref has a target of the wrong kind: 67.
    #[error("fault 67")]
    BadRef = 67,
    /// The input goes on after the digest: 69.
    #[error("fault 69")]
    TrailingBytes = 69,
}

impl Refusal {
    /// The number of the refusal.
    pub fn code(self) -> u16
        ensures { result ≡ number_of self }
    {
        self as u16
    }
}
