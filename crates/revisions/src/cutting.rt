//! How a text is cut before each `^` and `~`: gitrevisions(7). Nothing here takes memory.

ghost use Rattle.std.specs.Prelude.{◌≡◌, ◌<◌, ◌++◌, ◌∷◌, [], false, length, position, MatchOption};
ghost use Rattle.std.specs.{List.{list_any, before_first}, Option.{option_map}};
ghost use Rattle.revisions.specs.ExpressionReading.{is_mark, is_colon, cut, after_colon, parted};

fn place_of_mark(text: &[u8]) -> Option<usize>
    ensures { result ≡ position is_mark text.now }
{
    text.iter().position(|byte| *byte == b'^' || *byte == b'~')
}

fn place_of_colon(text: &[u8]) -> Option<usize>
    ensures { result ≡ position is_colon text.now }
{
    text.iter().position(|byte| *byte == b':')
}

/// What stands before the first `^` or `~`, and the text from there on.
pub(crate) fn split_at_mark(text: &[u8]) -> (&[u8], &[u8])
    ensures both { result.0.now ++ result.1.now ≡ text.now }
    ensures plain { list_any is_mark result.0.now ≡ false }
    ensures marked { (cut result.1.now).front ≡ [] }
{
    match place_of_mark(text) {
        Some(place) => text.split_at(place),
        None => text.split_at(text.len()),
    }
}

/// The first piece of a text that begins with a mark, up to the next mark, and the text from there
/// on; `None` where the text is empty.
pub(crate) fn take_piece(text: &[u8]) -> Option<(&[u8], &[u8])>
    requires { (cut text.now).front ≡ [] }
    ensures pieces { MatchOption result ((cut text.now).pieces ≡ [])
        (λ r. (cut text.now).pieces ≡ r.0.now ∷ (cut r.1.now).pieces) }
    ensures marked { MatchOption result (text.now ≡ [])
        (λ r. ((cut r.1.now).front ≡ []) × (length r.1.now < length text.now)) }
{
    let (_, rest) = text.split_first()?;
    let (plain, _) = split_at_mark(rest);
    Some(text.split_at(1 + plain.len()))
}

/// What stands before the first colon, and what stands after it, where there is one.
pub(crate) fn split_at_colon(text: &[u8]) -> (&[u8], Option<&[u8]>)
    ensures before { result.0.now ≡ before_first is_colon text.now }
    ensures after { option_map (λ path. path.now) result.1 ≡ after_colon text.now }
{
    match place_of_colon(text) {
        Some(place) => (text.split_at(place).0, Some(text.split_at(place + 1).1)),
        None => (text, None),
    }
}

/// What is before and after the first occurrence of a part in a text; `None` where it does not
/// occur.
pub(crate) fn split_at_part<'a>(text: &'a [u8], part: &[u8]) -> Option<(&'a [u8], &'a [u8])>
    ensures { option_map (λ sides. (sides.0.now, sides.1.now)) result ≡ parted part.now text.now }
{
    for place in 0..text.len() {
        let (before, rest) = text.split_at(place);
        if rest.starts_with(part) {
            return Some((before, rest.split_at(part.len()).1));
        }
    }
    None
}
