//! The path that a text begins with, as its bytes: git-fast-import(1), `M`, `D`, `C` and `R`.

ghost use Rattle.std.specs.Prelude.{◌≡◌, ◌<◌, ◌==◌, length, position, IfSome};
ghost use Rattle.std.specs.Option.{option_copied, option_map, ok_or};
ghost use Rattle.git_paths.specs.{declared.fault.Fault.TheVariants.{BadPath}, Faults.{Gives}};
ghost use Rattle.git_paths.specs.{Written.{bytes_shown}, Reading.{path_at}};
ghost use Rattle.git_paths.specs.Reading.{after_quote, unquoted, unquoted_at, quoted_end, judged};

use crate::fault::Fault;
use crate::judging::judge;
use crate::place::Place;
use crate::unquoting::unquote;
use std::alloc::Global;

fn past_quote(place: Place, text: &[u8]) -> Option<&[u8]>
    ensures { option_copied result ≡ after_quote place text.now }
{
    match place {
        Place::Source => match text {
            [b' ', rest @ ..] => Some(rest),
            _ => None,
        },
        Place::Last => { if text.is_empty() { Some(text) } else { None } }
    }
}

fn space_in(text: &[u8]) -> Option<usize>
    ensures value { result ≡ position (λ b. b == 32) text.now }
    ensures within { IfSome result (λ at. at < length text.now) }
{
    text.iter().position(|byte| *byte == b' ')
}

fn cut(place: Place, text: &[u8]) -> Option<(&[u8], &[u8])>
    ensures { option_map (λ r. (r.0.now, r.1.now)) result ≡ unquoted_at place text.now }
{
    match place {
        Place::Source => {
            let at = space_in(text)?;
            Some((text.split_at(at).0, text.split_at(at + 1).1))
        }
        Place::Last => Some(text.split_at(text.len())),
    }
}

fn read_quoted(alloc: Global, inside: &[u8], place: Place) -> Result<(Vec<u8>, &[u8]), Fault>
    ensures { Gives bytes_shown result (judged (quoted_end place (unquoted inside.now))) }
{
    let (bytes, remaining) = unquote(alloc, inside)?;
    let rest = past_quote(place, remaining).ok_or(Fault::BadPath)?;
    judge(&bytes)?;
    Ok((bytes, rest))
}

fn read_unquoted(alloc: Global, text: &[u8], place: Place) -> Result<(Vec<u8>, &[u8]), Fault>
    ensures { Gives bytes_shown result (judged (unquoted_at place text.now)) }
{
    let (bytes, rest) = cut(place, text).ok_or(Fault::BadPath)?;
    judge(bytes)?;
    Ok((Vec::from_slice(alloc, bytes)?, rest))
}

/// The bytes of the path that a text begins with, and the rest of the text after it.
pub(crate) fn read_bytes(
    alloc: Global,
    text: &[u8],
    place: Place,
) -> Result<(Vec<u8>, &[u8]), Fault>
    ensures { Gives bytes_shown result (path_at place text.now) }
{
    match text {
        [] => read_unquoted(alloc, text, place),
        [first, inside @ ..] => {
            if *first == b'"' {
                read_quoted(alloc, inside, place)
            } else {
                read_unquoted(alloc, text, place)
            }
        }
    }
}
