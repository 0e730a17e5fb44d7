//! How lines are appended to an answer.

ghost use Rattle.std.specs.Prelude.{◌≡◌, ◌++◌, length, take, OnOk};
ghost use Rattle.answers.specs.Printed.{line, name_line};

use git_objects::{Memory, Name, append_parts};

/// Appends a line with its line end. After `Memory` (90) a part of it may have been appended.
pub fn append_line(text: &[u8], out: &mut Vec<u8>) -> Result<(), Memory>
    ensures written { OnOk result (out.new.items ≡ out.old.items ++ line text.now) }
    ensures kept { take (length out.old.items) out.new.items ≡ out.old.items }
{
    append_parts(&[text, b"\n"], out)
}

/// Appends an object name alone on its line. After `Memory` (90) a part of it may have been
/// appended.
pub fn append_name(id: Name, out: &mut Vec<u8>) -> Result<(), Memory>
    ensures written { OnOk result (out.new.items ≡ out.old.items ++ name_line id) }
    ensures kept { take (length out.old.items) out.new.items ≡ out.old.items }
{
    append_line(&id.to_hex(), out)
}
