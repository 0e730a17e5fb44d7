//! Reads a decimal number.

ghost use Rattle.std.specs.{Prelude.{◌≡◌, if◌then◌else◌, None}, Char.{is_ascii_digit}};
ghost use Rattle.std.specs.{List.{list_all}, Str.Parse.{digits_value}};
ghost use Rattle.numerals.specs.Numbers as numbers;

/// Reads a decimal number as git-fast-import(1) writes counts, marks and seconds: 1 to 20 digits
/// with a value below 2^64. Leading zeros are allowed.
///
/// `None` for every other text. Takes no memory.
#[tactic(auto, unfolding(crate::specs::Numbers::number_of))]
pub fn read_number(text: &[u8]) -> Option<u64>
    ensures { result ≡ numbers.number_of text.now }
{
    if text.is_empty() || text.len() > 20 {
        None
    } else {
        read_digits(text)
    }
}

// The value of decimal digits, if it is below 2^64, and nothing for any other byte.
fn read_digits(text: &[u8]) -> Option<u64>
    ensures { result ≡ (if list_all is_ascii_digit text.now
        then numbers.in_64_bits (digits_value 10 text.now) else None) }
{
    let mut value: u64 = 0;
    for byte in text {
        if !byte.is_ascii_digit() {
            return None;
        }
        value = value.checked_mul(10)?.checked_add((*byte - b'0') as u64)?;
    }
    Some(value)
}
