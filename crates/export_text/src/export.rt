//! A repository as a stream: git-fast-export(1).

ghost use Rattle.std.specs.Prelude.{◌≡◌, ◌++◌, ◌+◌, nat_le, length, take, IfOk, OnOk, OnErr};
ghost use Rattle.git_model.specs.{Limits.{export_refs_limit}, GoodRepository.{AreObjects}};
ghost use Rattle.git_model.specs.RefStore.{listed_refs};
ghost use Rattle.export_text.specs.{ItemText.{items_text}, Reached.{is_exportable, tag_refs}};
ghost use Rattle.export_text.specs.Marking.{WhereReached};
ghost use Rattle.export_text.specs.Export.{Exports, head_items, opening_items, saving_items};

use crate::commit_text::SCRATCH;
use crate::fault::Fault;
use crate::item_text::append_line;
use crate::object_text::append_objects;
use crate::reached::reached;
use crate::ref_text::{append_refs, append_removals};
use crate::tag_refs::tag_refs;
use git_names::RefName;
use git_objects::{Memory, Naming};
use std::alloc::Global;
use tenant_refs::Refs;
use tenant_tables::Objects;

/// How many refs an import may set beside one scratch branch.
const IMPORTED_REFS_LIMIT: usize = 65_535;

const FIRST_HEAD: &[u8] = b"refs/heads/main";

// HEAD, where it is not that of a new repository.
fn append_head(head: &[u8], out: &mut Vec<u8>) -> Result<(), Memory>
    ensures written { OnOk result (out.new.items
        ≡ out.old.items ++ items_text (head_items head.now)) }
    ensures kept { take (length out.old.items) out.new.items ≡ out.old.items }
{
    if head == FIRST_HEAD {
        Ok(())
    } else {
        append_line(b"option gitpool head ", head, out)
    }
}

fn append_opening(refs: &Refs, out: &mut Vec<u8>) -> Result<(), Memory>
    ensures written { OnOk result (out.new.items
        ≡ out.old.items ++ items_text (opening_items refs.now)) }
    ensures kept { take (length out.old.items) out.new.items ≡ out.old.items }
{
    append_line(b"feature force", b"", out)?;
    append_head(refs.head(), out)
}

fn append_saving(out: &mut Vec<u8>) -> Result<(), Memory>
    ensures written { OnOk result (out.new.items ≡ out.old.items ++ items_text saving_items) }
    ensures kept { take (length out.old.items) out.new.items ≡ out.old.items }
{
    append_line(b"reset ", SCRATCH, out)?;
    append_line(b"checkpoint", b"", out)
}

// Whether an import may set these refs, and those of tags.
fn are_few(refs: &Refs, ref_names: &[RefName]) -> bool
    ensures { result
        ≡ nat_le (length (listed_refs refs.now) + length ref_names.now) export_refs_limit }
{
    let tags = ref_names.len();
    tags <= IMPORTED_REFS_LIMIT && refs.len() <= IMPORTED_REFS_LIMIT - tags
}

/// Whether the refs, with those that importing the reached tags sets, are few enough for an export:
/// at most 65,535. There is a flag for each object, the oldest object first: whether the refs reach
/// it.
///
/// `Memory` (90) where there is no room for the refs of the tags.
pub fn is_exportable<N: Naming>(
    alloc: Global,
    objects: &Objects<'_, N>,
    refs: &Refs,
    reached: &[bool],
) -> Result<bool, Memory>
    ensures { WhereReached N.digest_of objects.now refs.now reached.now
        (λ r. IfOk result (λ few. few ≡ is_exportable r)) }
{
    let ref_names = tag_refs(alloc, objects, reached)?;
    Ok(are_few(refs, &ref_names))
}

// Appends the export, where an import may set so many refs: the objects that have a flag, and the
// refs.
fn append_if_few<N: Naming>(
    alloc: Global,
    objects: &Objects<'_, N>,
    refs: &Refs,
    reached: &[bool],
    ref_names: &[RefName],
    out: &mut Vec<u8>,
) -> Result<(), Fault>
    ensures exports { WhereReached N.digest_of objects.now refs.now reached.now
        (λ r. ref_names.now ≡ tag_refs r → Exports r out.old.items out.new.items result) }
    ensures kept { take (length out.old.items) out.new.items ≡ out.old.items }
{
    if !are_few(refs, ref_names) {
        return Err(Fault::Limit);
    }
    append_opening(refs, out)?;
    append_objects(alloc, objects, reached, out)?;
    append_saving(out)?;
    append_removals(refs, ref_names, out)?;
    append_refs(alloc, objects, refs, out)?;
    Ok(())
}

// Appends the export, or a piece of it where memory runs out. Owned values are made apart from the
// steps that may fail, since each exit of an owner makes its proof longer.
fn append_pieces<N: Naming>(
    alloc: Global,
    objects: &Objects<'_, N>,
    refs: &Refs,
    out: &mut Vec<u8>,
) -> Result<(), Fault>
    ensures kept { take (length out.old.items) out.new.items ≡ out.old.items }
    ensures exports { AreObjects N.digest_of objects.now
        → Exports (record { objects = objects.now; refs = refs.now })
        out.old.items out.new.items result }
{
    let reached = reached(alloc, objects, refs)?;
    let ref_names = tag_refs(alloc, objects, &reached)?;
    append_if_few(alloc, objects, refs, &reached, &ref_names, out)
}

/// Appends the export of a repository, a stream of git-fast-import(1): what the refs reach, the
/// refs, and HEAD.
///
/// `Fault::Limit` (25) where the refs, with those that importing the reached tags sets, are more
/// than 65,535. Takes memory for a flag of each object and to read what is reached; `Fault::Memory`
/// (90) where there is none. After a refusal `out` is unchanged. The text is the defined one where
/// the objects are good (AreObjects of git_model).
pub fn append_export<N: Naming>(
    alloc: Global,
    objects: &Objects<'_, N>,
    refs: &Refs,
    out: &mut Vec<u8>,
) -> Result<(), Fault>
    ensures exports { AreObjects N.digest_of objects.now
        → Exports (record { objects = objects.now; refs = refs.now })
        out.old.items out.new.items result }
    ensures same { OnErr result (out.new.items ≡ out.old.items) }
    ensures kept { take (length out.old.items) out.new.items ≡ out.old.items }
{
    let start = out.len();
    let exported = append_pieces(alloc, objects, refs, out);
    if exported.is_err() {
        out.truncate(start);
    }
    exported
}
