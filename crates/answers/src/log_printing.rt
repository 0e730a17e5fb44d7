//! How logs are printed: git-log(1), --format='%H %s'.

ghost use Rattle.std.specs.Prelude.{◌≡◌, ◌+◌, ◌<◌, ◌++◌, ◌==◌, length, take, drop, codes, All};
ghost use Rattle.std.specs.Prelude.{true, position, Some, None, IfSome, MatchOption, OnOk};
ghost use Rattle.std.specs.List.{before_first};
ghost use Rattle.hex.specs.Hex.{encode_lower};
ghost use Rattle.git_model.specs.{CommitReading.{commit_read, first_line}, Peeling.{is_of}};
ghost use Rattle.git_model.specs.HeaderReading.{message_of};
ghost use Rattle.answers.specs.Printed.{line, log_line, log_lines};

use git_objects::{Kind, Memory, Name, Naming, append_parts};
use memchr::memchr;
use tenant_tables::Objects;

fn place_of_line_end(text: &[u8]) -> Option<usize>
    ensures first { result ≡ position (λ byte. byte == 10) text.now }
    ensures within { IfSome result (λ place. place < length text.now) }
{
    memchr(b'\n', text)
}

// A text up to its first line end.
fn first_line(text: &[u8]) -> &[u8]
    ensures { result.now ≡ before_first (λ byte. byte == 10) text.now }
{
    match place_of_line_end(text) {
        Some(place) => text.split_at(place).0,
        None => text,
    }
}

// The size of a text's first line, and what follows its line end.
fn split_line(text: &[u8]) -> Option<(usize, &[u8])>
    ensures first { MatchOption result (None ≡ position (λ byte. byte == 10) text.now)
        (λ r. (Some r.0 ≡ position (λ byte. byte == 10) text.now)
        × (r.1.now ≡ drop (r.0 + 1) text.now)) }
    ensures shorter { IfSome result (λ r. length r.1.now < length text.now) }
{
    let end = place_of_line_end(text)?;
    Some((end, text.split_at(end + 1).1))
}

// The message that the contents of a commit hold: what follows their first empty line.
fn message_of(contents: &[u8]) -> &[u8]
    ensures { result.now ≡ message_of contents.now }
{
    let mut rest = contents;
    'line: while let Some((size, after)) = split_line(rest) {
        rest = after;
        if size == 0 {
            return rest;
        }
    }
    rest.split_at(rest.len()).1
}

// The first line of that message.
fn subject_of(contents: &[u8]) -> &[u8]
    ensures { result.now ≡ first_line (commit_read contents.now) }
{
    first_line(message_of(contents))
}

// Appends the name of a commit and its subject.
fn append_line_of(id: &Name, subject: &[u8], out: &mut Vec<u8>) -> Result<(), Memory>
    ensures written { OnOk result (out.new.items
        ≡ out.old.items ++ line (encode_lower id.now ++ codes " " ++ subject.now)) }
    ensures kept { take (length out.old.items) out.new.items ≡ out.old.items }
{
    let digits = id.to_hex();
    append_parts(&[&digits, b" ", subject, b"\n"], out)
}

// Appends the line of a commit.
fn append_log_line<N: Naming>(
    objects: &Objects<'_, N>,
    id: &Name,
    out: &mut Vec<u8>,
) -> Result<(), Memory>
    ensures written { is_of objects.now Kind.Commit id.now ≡ true
        → OnOk result (out.new.items ≡ out.old.items ++ log_line objects.now id.now) }
    ensures kept { take (length out.old.items) out.new.items ≡ out.old.items }
{
    match objects.get(id) {
        Some((_, contents)) => append_line_of(id, subject_of(contents), out),
        None => Ok(()),
    }
}

/// Appends each of these commits on a line: its name, and the first line of its message.
///
/// `Memory` (90) where `out` cannot grow; nothing else takes memory.
pub fn append_log<N: Naming>(
    objects: &Objects<'_, N>,
    ids: &[Name],
    out: &mut Vec<u8>,
) -> Result<(), Memory>
    ensures written { All (λ id. is_of objects.now Kind.Commit id ≡ true) ids.now
        → OnOk result (out.new.items ≡ out.old.items ++ log_lines objects.now ids.now) }
    ensures kept { take (length out.old.items) out.new.items ≡ out.old.items }
{
    for id in ids {
        append_log_line(objects, id, out)?;
    }
    Ok(())
}
