//! What a stream prints: git-fast-import(1), "cat-blob" and "get-mark".

ghost use Rattle.std.specs.Prelude.{◌≡◌, ◌++◌, length, take, codes, OnOk, OnErr};
ghost use Rattle.stream_commands.specs.Replies.{commit_entry_line};

use file_maps::Entry;
use git_objects::{Memory, append_listing};
use git_paths::Path;

// Appends what is at a path of the open commit, or that it is missing.
fn append_entry(path: &Path, entry: Option<Entry>, out: &mut Vec<u8>) -> Result<(), Memory>
    ensures written { OnOk result (out.new.items
        ≡ out.old.items ++ commit_entry_line path.now entry ++ codes "\n") }
    ensures kept { take (length out.old.items) out.new.items ≡ out.old.items }
{
    match entry {
        Some(entry) => append_listing(entry.mode, entry.name, path.as_bytes(), out)?,
        None => {
            out.extend_from_slice(b"missing ")?;
            path.quote_into(out)?;
        }
    }
    out.push(b'\n')?;
    Ok(())
}

// Prints the same, or nothing if there is no room for all of it.
pub fn print_entry(path: &Path, entry: Option<Entry>, out: &mut Vec<u8>) -> Result<(), Memory>
    ensures written { OnOk result (out.new.items
        ≡ out.old.items ++ commit_entry_line path.now entry ++ codes "\n") }
    ensures same { OnErr result (out.new.items ≡ out.old.items) }
{
    let start = out.len();
    let written = append_entry(path, entry, out);
    if written.is_err() {
        out.truncate(start);
    }
    written
}
