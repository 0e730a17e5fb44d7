//! The object names that begin with some digits lie between two names: the digits with zeros after
//! them, and the digits with `f`s after them.

ghost use Rattle.std.specs.Prelude.{◌≡◌, ◌≢◌, ◌≤◌, ◌++◌, ◌-◌, ℕ, List, Ok, length, replicate};
ghost use Rattle.std.specs.Prelude.{false, IfNone, IfSome};
ghost use Rattle.hex.specs.Hex.{decode_sized};
ghost use Rattle.git_model.specs.ObjectName.{IsObjectName};
ghost use Rattle.tenant_tables.specs.Abbreviation.{begins, Bounds};

use git_names::Name;

/// The name whose forty digits are these, filled up with `digit`.
fn padded(digits: &[u8], digit: u8) -> Option<Name>
    ensures none { IfNone result (length digits.now ≤ 40 → (id : List ℕ)
        → decode_sized (digits.now ++ replicate (40 - length digits.now) digit) 20 ≢ Ok id) }
    ensures some { IfSome result (λ id. (length digits.now ≤ 40)
        × (decode_sized (digits.now ++ replicate (40 - length digits.now) digit) 20 ≡ Ok id)) }
{
    if digits.len() > 40 {
        return None;
    }
    let mut text = [digit; 40];
    for (position, given) in digits.iter().enumerate() {
        text[position] = *given;
    }
    Name::from_hex(&text)
}

/// The least and the greatest object name that begin with these hexadecimal digits of either case;
/// `None` if no name does. Takes no memory.
pub fn bounds(digits: &[u8]) -> Option<(Name, Name)>
    ensures none { IfNone result ((id : List ℕ) → IsObjectName id → begins digits.now id ≡ false) }
    ensures some { IfSome result (λ r. Bounds digits.now r.0 r.1) }
{
    let Some(first) = padded(digits, b'0') else {
        return None;
    };
    let Some(last) = padded(digits, b'f') else {
        return None;
    };
    Some((first, last))
}
