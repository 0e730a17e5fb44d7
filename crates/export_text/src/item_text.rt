//! Items of a stream as text: git-fast-import(1), "Input Format".

ghost use Rattle.std.specs.Prelude.{◌≡◌, ◌++◌, [], ◌∷◌, length, take, OnOk};
ghost use Rattle.std.specs.Option.{option_copied};
ghost use Rattle.stream_lex.specs.Items.{Line, Data, Blank};
ghost use Rattle.export_text.specs.{ItemText.{items_text}, ExportItems.{line_if}};

use git_objects::{Memory, append_parts};
use itoa::Buffer;

/// Appends a line that begins with a word. After `Memory` (90) a part of it may have been appended.
pub fn append_line(word: &[u8], text: &[u8], out: &mut Vec<u8>) -> Result<(), Memory>
    ensures written { OnOk result (out.new.items
        ≡ out.old.items ++ items_text (Line (word.now ++ text.now) ∷ [])) }
    ensures kept { take (length out.old.items) out.new.items ≡ out.old.items }
{
    append_parts(&[word, text, b"\n"], out)
}

/// Appends a line, or nothing where there is no text. After `Memory` (90) a part of it may have
/// been appended.
pub fn append_line_if(word: &[u8], text: Option<&[u8]>, out: &mut Vec<u8>) -> Result<(), Memory>
    ensures written { OnOk result (out.new.items
        ≡ out.old.items ++ items_text (line_if word.now (option_copied text.entry))) }
    ensures kept { take (length out.old.items) out.new.items ≡ out.old.items }
{
    match text {
        Some(text) => append_line(word, text, out),
        None => Ok(()),
    }
}

/// Appends bytes as a `data` command with their count. After `Memory` (90) a part of it may have
/// been appended.
pub fn append_data(raw: &[u8], out: &mut Vec<u8>) -> Result<(), Memory>
    ensures written { OnOk result (out.new.items ≡ out.old.items
        ++ items_text (Data raw.now ∷ [])) }
    ensures kept { take (length out.old.items) out.new.items ≡ out.old.items }
{
    let mut count = Buffer::new();
    let count = count.format(raw.len()).as_bytes();
    append_parts(&[b"data ", count, b"\n", raw, b"\n"], out)
}

/// Appends a blank line. After `Memory` (90) a part of it may have been appended.
pub fn append_blank(out: &mut Vec<u8>) -> Result<(), Memory>
    ensures written { OnOk result (out.new.items ≡ out.old.items ++ items_text (Blank ∷ [])) }
    ensures kept { take (length out.old.items) out.new.items ≡ out.old.items }
{
    out.push(b'\n')?;
    Ok(())
}
