//! Marks: git-fast-import(1), "mark".

ghost use Rattle.std.specs.Prelude.{◌≡◌, ◌<◌, ◌==◌, if◌then◌else◌};

use std::marker::Model;

/// The number of a mark, from 1 to 2^64 - 1.
#[derive(Clone, Copy, Debug, PartialEq, Eq, PartialOrd, Ord, Hash)]
pub struct Mark {
    number: u64,
}

impl Model for Mark {
    ghost use Rattle.std.specs.Prelude.{ℕ, ◌<◌};

    ghost Value = { ℕ };

    ghost view = { λ mark. mark.number };

    ghost invariant = { λ mark. 0 < mark.number };

    ghost inverse = { λ number. record { number = number } };
}

impl Mark {
    /// The mark with this number; `None` for 0.
    pub fn from_number(number: u64) -> Option<Mark>
        ensures { result ≡ (if number == 0 then None else Some number) }
    {
        if number == 0 {
            None
        } else {
            Some(Mark { number })
        }
    }

    /// The number of the mark, from 1 to 2^64 - 1.
    pub fn number(self) -> u64
        ensures value { result ≡ self }
        ensures not_zero { 0 < result }
    {
        self.number
    }
}
