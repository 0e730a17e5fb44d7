//! How refs are printed: git-show-ref(1).

ghost use Rattle.std.specs.Prelude.{◌≡◌, ◌++◌, length, take, OnOk};
ghost use Rattle.answers.specs.Printed.{ref_line, ref_lines};

use git_objects::{Memory, Name, append_parts};
use tenant_refs::Refs;

fn append_ref(ref_name: &[u8], target: Name, out: &mut Vec<u8>) -> Result<(), Memory>
    ensures written { OnOk result (out.new.items
        ≡ out.old.items ++ ref_line (ref_name.now, target)) }
    ensures kept { take (length out.old.items) out.new.items ≡ out.old.items }
{
    let digits = target.to_hex();
    append_parts(&[&digits, b" ", ref_name, b"\n"], out)
}

/// Appends each ref on a line of its own, in the order of their bytes. After `Memory` (90) a part
/// of them may have been appended.
pub fn append_refs(refs: &Refs, out: &mut Vec<u8>) -> Result<(), Memory>
    ensures written { OnOk result (out.new.items ≡ out.old.items ++ ref_lines refs.now) }
    ensures kept { take (length out.old.items) out.new.items ≡ out.old.items }
{
    for position in 0..refs.len() {
        let Some(entry) = refs.at(position) else {
            return Ok(());
        };
        append_ref(entry.0, entry.1, out)?;
    }
    Ok(())
}
