//! A law of the definitions of numbers.
//!
//! A law is a function with an empty body: its clause states the law, and the check proves it.

ghost use Rattle.std.specs.{Prelude.{◌≡◌, ◌<◌, ◌^◌, ℕ, Some}, Fmt.{decimal}};
ghost use Rattle.numerals.specs.Numbers.{number_of};

/// A number below 2^64 that is written in decimal digits is read back as itself.
pub fn printed_numbers()
    ensures { (n : ℕ) → n < 2 ^ 64 → number_of (decimal n) ≡ Some n }
{}
