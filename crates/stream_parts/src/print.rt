//! What a stream prints: git-fast-import(1), "cat-blob" and "get-mark".

ghost use Rattle.std.specs.{Prelude.{◌≡◌, ◌++◌, codes, OnOk, OnErr}, List.{flat_map}};
ghost use Rattle.hex.specs.Hex.{encode_lower};
ghost use Rattle.stream_parts.specs.Printing.{blob_text};

use git_objects::{Memory, Name, append_parts};
use itoa::Buffer;
use tenant_refs::RefName;

/// Appends the parts in turn, or nothing if there is no room for all of them.
pub fn print(parts: &[&[u8]], out: &mut Vec<u8>) -> Result<(), Memory>
    ensures written { OnOk result (out.new.items
        ≡ out.old.items ++ flat_map (λ part. part.now) parts.now) }
    ensures same { OnErr result (out.new.items ≡ out.old.items) }
{
    let start = out.len();
    let written = append_parts(parts, out);
    if written.is_err() {
        out.truncate(start);
    }
    written
}

/// Prints a line and its line end.
pub fn print_line(line: &[u8], out: &mut Vec<u8>) -> Result<(), Memory>
    ensures written { OnOk result (out.new.items ≡ out.old.items ++ line.now ++ codes "\n") }
    ensures same { OnErr result (out.new.items ≡ out.old.items) }
{
    print(&[line, b"\n"], out)
}

/// Prints that the ref of a branch is kept.
pub fn print_kept(ref_name: &RefName, out: &mut Vec<u8>) -> Result<(), Memory>
    ensures written { OnOk result (out.new.items
        ≡ out.old.items ++ codes "kept " ++ ref_name.now ++ codes "\n") }
    ensures same { OnErr result (out.new.items ≡ out.old.items) }
{
    print(&[b"kept ", ref_name.as_bytes(), b"\n"], out)
}

/// Prints an object name on a line of its own.
pub fn print_name(id: Name, out: &mut Vec<u8>) -> Result<(), Memory>
    ensures written { OnOk result (out.new.items ≡ out.old.items ++ encode_lower id ++ codes "\n") }
    ensures same { OnErr result (out.new.items ≡ out.old.items) }
{
    let digits = id.to_hex();
    print_line(&digits, out)
}

/// Prints that the repository has no object of this name.
pub fn print_missing(id: Name, out: &mut Vec<u8>) -> Result<(), Memory>
    ensures written { OnOk result (out.new.items
        ≡ out.old.items ++ (encode_lower id ++ codes " missing") ++ codes "\n") }
    ensures same { OnErr result (out.new.items ≡ out.old.items) }
{
    let digits = id.to_hex();
    print(&[&digits, b" missing", b"\n"], out)
}

/// Prints a blob: its name, kind and size on a line, then its bytes and a line end.
pub fn print_blob(id: Name, bytes: &[u8], out: &mut Vec<u8>) -> Result<(), Memory>
    ensures written { OnOk result (out.new.items
        ≡ out.old.items ++ blob_text id bytes.now ++ codes "\n") }
    ensures same { OnErr result (out.new.items ≡ out.old.items) }
{
    let digits = id.to_hex();
    let mut size = Buffer::new();
    let size = size.format(bytes.len()).as_bytes();
    print(&[&digits, b" blob ", size, b"\n", bytes, b"\n"], out)
}
