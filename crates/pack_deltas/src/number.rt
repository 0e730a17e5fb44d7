//! The numbers of a delta.

ghost use Rattle.std.specs.Prelude.{◌≡◌, ◌<◌, IfSome};
ghost use Rattle.std.specs.Option.{option_map};
ghost use Rattle.pack_deltas.specs.Delta.{byte_if, copy_size_in, is_told, offset_in, take_size, two_bytes};

// Whether the byte of this bit is told.
fn is_told(code: u8, bit: u8) -> bool
    requires { 0 < bit }
    ensures { result ≡ is_told code bit }
{
    code / bit % 2 == 1
}

// A byte, if it is told.
fn byte_if(is_there: bool, text: &[u8]) -> Option<(usize, &[u8])>
    ensures taken { option_map (λ x. (x.0, x.1.now)) result ≡ byte_if is_there text.now }
    ensures small { IfSome result (λ x. x.0 < 256) }
{
    if !is_there {
        return Some((0, text));
    }
    let Some((byte, rest)) = text.split_first() else {
        return None;
    };
    Some((*byte as usize, rest))
}

fn two_bytes(code: u8, low: u8, high: u8, text: &[u8]) -> Option<(usize, &[u8])>
    requires low { 0 < low }
    requires high { 0 < high }
    ensures taken { option_map (λ x. (x.0, x.1.now)) result ≡ two_bytes code low high text.now }
    ensures small { IfSome result (λ x. x.0 < 65536) }
{
    let Some((first, rest)) = byte_if(is_told(code, low), text) else {
        return None;
    };
    let Some((second, rest)) = byte_if(is_told(code, high), rest) else {
        return None;
    };
    Some((first + 256 * second, rest))
}

/// The offset of a copy, whose bits are in the first byte of the instruction; the bytes after it.
pub fn take_offset(code: u8, text: &[u8]) -> Option<(usize, &[u8])>
    ensures taken { option_map (λ x. (x.0, x.1.now)) result ≡ offset_in code text.now }
    ensures small { IfSome result (λ x. x.0 < 4294967296) }
{
    let Some((low, rest)) = two_bytes(code, 1, 2, text) else {
        return None;
    };
    let Some((high, rest)) = two_bytes(code, 4, 8, rest) else {
        return None;
    };
    Some((low + 65_536 * high, rest))
}

/// The size of a copy, in the same way.
pub fn take_copy_size(code: u8, text: &[u8]) -> Option<(usize, &[u8])>
    ensures taken { option_map (λ x. (x.0, x.1.now)) result ≡ copy_size_in code text.now }
    ensures small { IfSome result (λ x. x.0 < 16777216) }
{
    let Some((low, rest)) = two_bytes(code, 16, 32, text) else {
        return None;
    };
    let Some((high, rest)) = byte_if(is_told(code, 64), rest) else {
        return None;
    };
    Some((low + 65_536 * high, rest))
}

/// One of the two sizes that a delta begins with, and the bytes after it. `None` if the text ends
/// before it does, or it has more than five bytes.
pub fn take_size(text: &[u8]) -> Option<(usize, &[u8])>
    ensures { option_map (λ x. (x.0, x.1.now)) result ≡ take_size text.now }
{
    let mut rest = text;
    let mut size: usize = 0;
    let mut scale: usize = 1;
    let mut left: usize = 5;
    while left > 0 {
        let Some((byte, after)) = rest.split_first() else {
            return None;
        };
        size += scale * (*byte % 128) as usize;
        if *byte < 128 {
            return Some((size, after));
        }
        scale *= 128;
        rest = after;
        left -= 1;
    }
    None
}
