//! What is printed of a stored tree: git-fast-import(1), "ls".

ghost use Rattle.std.specs.{Prelude.{◌≡◌, ◌++◌, codes, Ok, OnOk, OnErr}, Option.{option_map}};
ghost use Rattle.git_model.specs.{HeldObjects.{AreHeld}, StoredPath.{entry_at_path}};
ghost use Rattle.git_objects.specs.Parts.{entry_of};
ghost use Rattle.stream_parts.specs.{Faults.{Gives}, Printing.{Shows}};
ghost use Rattle.stream_parts.specs.Showing.{entry_line, entry_shown, tree_in};

use crate::commit_ishes::peel_to;
use crate::fault::Fault;
use crate::marks::referred;
use crate::print::print_line;
use git_objects::{FileMode, Kind, Memory, Name, Naming, TreeEntry, append_listing};
use git_paths::Path;
use revisions::entry_below;
use std::alloc::Global;
use stream_grammar::DataRef;
use stream_marks::Marks;
use tenant_tables::Objects;

fn append_entry(
    path: &Path,
    entry: &Option<TreeEntry<'_>>,
    line: &mut Vec<u8>,
) -> Result<(), Memory>
    ensures { OnOk result (line.new.items
        ≡ line.old.items ++ entry_line path.now (option_map entry_of entry.now)) }
{
    match entry {
        Some(entry) => append_listing(entry.mode, entry.id, path.as_bytes(), line),
        None => {
            line.extend_from_slice(b"missing ")?;
            path.quote_into(line)?;
            Ok(())
        }
    }
}

// Prints what is at a path, or that it is missing.
fn print_entry(
    alloc: Global,
    path: &Path,
    entry: &Option<TreeEntry<'_>>,
    out: &mut Vec<u8>,
) -> Result<(), Memory>
    ensures written { OnOk result (out.new.items
        ≡ out.old.items ++ entry_line path.now (option_map entry_of entry.now) ++ codes "\n") }
    ensures same { OnErr result (out.new.items ≡ out.old.items) }
{
    let mut line = Vec::new(alloc);
    append_entry(path, entry, &mut line)?;
    print_line(&line, out)
}

// The stored tree that an object is peeled to. The object must be there.
fn tree_of<N: Naming>(alloc: Global, objects: &Objects<'_, N>, id: Name) -> Result<Name, Fault>
    ensures { AreHeld N.digest_of objects.now → Gives result (tree_in objects.now id) }
{
    match objects.get(&id) {
        Some(_) => peel_to(alloc, objects, Kind::Tree, id),
        None => Err(Fault::ObjectUnknown),
    }
}

// Prints what is at a path of a tree.
fn print_below<N: Naming>(
    alloc: Global,
    objects: &Objects<'_, N>,
    tree: Name,
    path: &Path,
    out: &mut Vec<u8>,
) -> Result<(), Fault>
    ensures shows { AreHeld N.digest_of objects.now
        → Shows (Ok (entry_line path.now (entry_at_path objects.now tree path.now)))
        out.old.items out.new.items result }
    ensures same { OnErr result (out.new.items ≡ out.old.items) }
{
    let root = TreeEntry {
        mode: FileMode::Directory,
        name: b"",
        id: tree,
    };
    match entry_below(alloc, objects, path, &root) {
        Ok(entry) => Ok(print_entry(alloc, path, &entry, out)?),
        Err(_) => Err(Fault::Memory),
    }
}

/// Prints what is at a path of the stored tree that an object is peeled to, or that it is missing:
/// git-fast-import(1), "ls".
///
/// `Fault::MarkUnknown` (13) if the mark is not set, `Fault::ObjectUnknown` (14) if there is no
/// such object, `Fault::WrongKind` (15) if it is peeled to no tree, `Fault::Memory` (90) if there
/// is no memory to read the trees or for the line. After a refusal `out` is unchanged. The contract
/// says what is printed if the objects are good.
pub fn print_stored<N: Naming>(
    alloc: Global,
    objects: &Objects<'_, N>,
    marks: &Marks,
    root: DataRef,
    path: &Path,
    out: &mut Vec<u8>,
) -> Result<(), Fault>
    ensures shows { AreHeld N.digest_of objects.now
        → Shows (entry_shown objects.now marks.now.entries root path.now)
        out.old.items out.new.items result }
    ensures same { OnErr result (out.new.items ≡ out.old.items) }
{
    let id = referred(marks, root)?;
    let tree = tree_of(alloc, objects, id)?;
    print_below(alloc, objects, tree, path, out)
}
