//! Commits in a stream: git-fast-import(1), `commit`.

ghost use Rattle.std.specs.Prelude.{◌≡◌, ◌++◌, [], length, map, take, Some, OnOk, codes};
ghost use Rattle.git_model.specs.Commit.{Commit, CanWriteCommit, commit_contents};
ghost use Rattle.git_model.specs.{CommitReading.{commit_read}, References.{kind_named}};
ghost use Rattle.git_objects.specs.Parts.{commit_of};
ghost use Rattle.export_text.specs.{ItemText.{items_text}, ExportItems.{parent_items}};
ghost use Rattle.export_text.specs.ExportItems.{commit_head, commit_items, fresh_branch, marked};
ghost use Rattle.export_text.specs.Lines.{AreTold, WhereTold};
ghost use Rattle.git_model.specs.declared.kind.Kind.TheVariants as kind;

use crate::file_text::append_all_files;
use crate::item_text::{append_blank, append_data, append_line, append_line_if};
use crate::mark_text::append_marked;
use crate::told::Directories;
use git_objects::{CommitParts, Memory, Name, Naming, read_commit};
use std::alloc::Global;
use tenant_tables::Objects;

/// The branch on which commits are exported.
pub const SCRATCH: &[u8] = b"refs/export/scratch";

fn append_fresh_branch(parents: &[Name], out: &mut Vec<u8>) -> Result<(), Memory>
    ensures written { OnOk result (out.new.items
        ≡ out.old.items ++ items_text (fresh_branch parents.now)) }
    ensures kept { take (length out.old.items) out.new.items ≡ out.old.items }
{
    match parents {
        [] => append_line(b"reset ", SCRATCH, out),
        _ => Ok(()),
    }
}

fn append_merges<N: Naming>(
    objects: &Objects<'_, N>,
    parents: &[Name],
    out: &mut Vec<u8>,
) -> Result<(), Memory>
    ensures written { OnOk result (out.new.items ≡ out.old.items
        ++ items_text (map (marked objects.now (codes "merge ")) parents.now)) }
    ensures kept { take (length out.old.items) out.new.items ≡ out.old.items }
{
    for parent in parents {
        append_marked(objects, b"merge ", parent, out)?;
    }
    Ok(())
}

fn append_parents<N: Naming>(
    objects: &Objects<'_, N>,
    parents: &[Name],
    out: &mut Vec<u8>,
) -> Result<(), Memory>
    ensures written { OnOk result (out.new.items
        ≡ out.old.items ++ items_text (parent_items objects.now parents.now)) }
    ensures kept { take (length out.old.items) out.new.items ≡ out.old.items }
{
    match parents {
        [] => Ok(()),
        [first, others @ ..] => {
            append_marked(objects, b"from ", first, out)?;
            append_merges(objects, others, out)
        }
    }
}

// Appends the lines before the message.
fn append_head<N: Naming>(
    objects: &Objects<'_, N>,
    id: &Name,
    parts: &CommitParts<'_>,
    out: &mut Vec<u8>,
) -> Result<(), Memory>
    ensures written { OnOk result (out.new.items
        ≡ out.old.items ++ items_text (commit_head objects.now id.now (commit_of parts.now))) }
    ensures kept { take (length out.old.items) out.new.items ≡ out.old.items }
{
    append_fresh_branch(&parts.ancestors, out)?;
    append_line(b"commit ", SCRATCH, out)?;
    append_marked(objects, b"mark ", id, out)?;
    append_line(b"author ", parts.author, out)?;
    append_line(b"committer ", parts.committer, out)?;
    append_line_if(b"encoding ", parts.encoding, out)
}

fn append_parts_of_commit<N: Naming>(
    alloc: Global,
    objects: &Objects<'_, N>,
    id: &Name,
    parts: &CommitParts<'_>,
    told: &mut Directories,
    out: &mut Vec<u8>,
) -> Result<(), Memory>
    ensures written { WhereTold N.digest_of objects.now out.old.items told.old
        (kind_named parts.now.tree objects.now ≡ Some kind.Tree
        → OnOk result (out.new.items
        ≡ out.old.items ++ items_text (commit_items objects.now id.now (commit_of parts.now)))) }
    ensures in_mind { WhereTold N.digest_of objects.now out.old.items told.old
        (OnOk result (AreTold objects.now out.new.items told.new)) }
    ensures kept { take (length out.old.items) out.new.items ≡ out.old.items }
{
    append_head(objects, id, parts, out)?;
    append_data(parts.message, out)?;
    append_parents(objects, &parts.ancestors, out)?;
    append_all_files(alloc, objects, &parts.tree, told, out)?;
    append_blank(out)
}

/// Appends the commit with these contents, with the mark of this object. After `Memory` (90) a part
/// of it may have been appended.
pub fn append_commit<N: Naming>(
    alloc: Global,
    objects: &Objects<'_, N>,
    id: &Name,
    contents: &[u8],
    told: &mut Directories,
    out: &mut Vec<u8>,
) -> Result<(), Memory>
    ensures written { WhereTold N.digest_of objects.now out.old.items told.old
        ((c : Commit) → CanWriteCommit c
        → contents.now ≡ commit_contents c
        → kind_named (commit_read contents.now).tree objects.now ≡ Some kind.Tree
        → OnOk result (out.new.items
        ≡ out.old.items ++ items_text (commit_items objects.now id.now
        (commit_read contents.now)))) }
    ensures in_mind { WhereTold N.digest_of objects.now out.old.items told.old
        (OnOk result (AreTold objects.now out.new.items told.new)) }
    ensures kept { take (length out.old.items) out.new.items ≡ out.old.items }
{
    match read_commit(alloc, contents)? {
        Some(parts) => append_parts_of_commit(alloc, objects, id, &parts, told, out),
        None => Ok(()),
    }
}
