//! Objects as the entries of a pack.

ghost use Rattle.std.specs.Prelude.{◌≡◌, ◌++◌, OnErr, OnOk, length, take};
ghost use Rattle.git_model.specs.{Content.{content_from}, declared.kind.Kind.{Kind}};
ghost use Rattle.pack_text.specs.PackText.{entry_text};
ghost use Rattle.pack_objects.specs.Entries.{AppendsAnswer, Measures, entries_asked, entries_text};
ghost use Rattle.pack_objects.specs.Entries.{left_after};

use crate::fault::PackFault;
use git_objects::{Memory, Name, Naming};
use pack_text::{append_entry, entry_len};
use tenant_tables::Objects;

// What is left of so many bytes after the entry of an object with these contents.
fn left_after(left: Option<u64>, contents: &[u8]) -> Option<u64>
    ensures { (kind : Kind) → result ≡ left_after left (entry_text (content_from kind contents.now)) }
{
    let left = left?;
    let size = contents.len() as u64;
    prove!(size < 1 << 63);
    let len = entry_len(size);
    if len <= left { Some(left - len) } else { None }
}

// What is left of the limit after the entries of these objects; `None` if they are longer.
fn left_of<N: Naming>(
    objects: &Objects<'_, N>,
    names: &[Name],
    limit: u64,
) -> Result<Option<u64>, PackFault>
    ensures { Measures objects.now names.now limit result }
{
    let mut left = Some(limit);
    for id in names {
        match objects.get(id) {
            Some((_, contents)) => left = left_after(left, contents),
            None => return Err(PackFault::UnknownObject),
        }
    }
    Ok(left)
}

// Appends the entries of those of these names that are names of objects. If memory runs out, a part
// of them may be appended.
fn append_known<N: Naming>(
    objects: &Objects<'_, N>,
    names: &[Name],
    out: &mut Vec<u8>,
) -> Result<(), Memory>
    ensures appended { OnOk result (out.new.items
        ≡ out.old.items ++ entries_text objects.now names.now) }
    ensures kept { take (length out.old.items) out.new.items ≡ out.old.items }
{
    for id in names {
        if let Some((kind, contents)) = objects.get(id) {
            append_entry(out, kind, contents)?;
        }
    }
    Ok(())
}

// Appends the entries of those of these names that are names of objects, which have this length
// together. If memory runs out, the vector has what it had.
fn append_all<N: Naming>(
    objects: &Objects<'_, N>,
    names: &[Name],
    len: u64,
    out: &mut Vec<u8>,
) -> Result<(), Memory>
    ensures appended { OnOk result (out.new.items
        ≡ out.old.items ++ entries_text objects.now names.now) }
    ensures kept { OnErr result (out.new.items ≡ out.old.items) }
{
    out.reserve(len as usize)?;
    let start = out.len();
    let appended = append_known(objects, names, out);
    if appended.is_err() {
        out.truncate(start);
    }
    appended
}

/// Appends the entries of the objects of these names, one after another, as a pack has them. A name
/// that stands more than once is the name of as many entries.
///
/// `UnknownObject` (16) if a name is that of no object; else `Limit` (25) if all the entries
/// together would be longer than `limit` bytes; else `Memory` (90) if there is no room for them.
/// After a refusal `out` has what it had. Takes memory for the entries, and for nothing else.
pub fn append_entries<N: Naming>(
    objects: &Objects<'_, N>,
    names: &[Name],
    limit: u64,
    out: &mut Vec<u8>,
) -> Result<(), PackFault>
    ensures { AppendsAnswer (entries_asked objects.now names.now limit) out.old.items result
        out.new.items }
{
    match left_of(objects, names, limit)? {
        Some(left) => Ok(append_all(objects, names, limit - left, out)?),
        None => Err(PackFault::Limit),
    }
}
