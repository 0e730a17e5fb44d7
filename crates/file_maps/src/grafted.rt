//! One stored tree, read from a table: its summary and its entries.

ghost use Rattle.std.specs.Prelude.{◌≡◌, Some, List, IfOk, IfErr};
ghost use Rattle.git_model.specs.Tree.{TreeEntry as ListedEntry};
ghost use Rattle.git_objects.specs.Parts.{entries_of};
ghost use Rattle.tenant_tables.specs.SumIn.{sum_in};
ghost use Rattle.file_maps.specs.{StoredTree.{HasTree}, Grafts.{tree_fault, is_small}};

use crate::check::FILES_LIMIT;
use crate::fault::Fault;
use git_objects::{Memory, Name, Naming, TreeEntry, read_tree};
use std::alloc::Global;
use tenant_tables::{Objects, Summary};

/// The summary of the stored tree of this name. `ObjectUnknown` (14) where no object has this name,
/// `WrongKind` (15) where the object is no tree that has a summary. Nothing changes.
pub fn tree_summary<N: Naming>(objects: &Objects<'_, N>, id: &Name) -> Result<Summary, Fault>
    ensures tree { IfOk result (λ s. sum_in objects.now id.now ≡ Some s) }
    ensures refusal { IfErr result (λ e. tree_fault objects.now id.now ≡ Some e) }
{
    match objects.summary(id) {
        Some(summary) => Ok(summary),
        None => match objects.get(id) {
            Some(_) => Err(Fault::WrongKind),
            None => Err(Fault::ObjectUnknown),
        },
    }
}

/// Whether the files of a tree with this summary could stand at the root of a branch.
pub fn is_small(summary: Summary) -> bool
    ensures { result ≡ is_small summary }
{
    summary.files as usize <= FILES_LIMIT && summary.depth <= 256 && summary.longest <= 16_383
}

/// The entries of the stored tree of this name. `Memory` (90) is the only refusal.
pub fn read_entries<'a, N: Naming>(
    alloc: Global,
    objects: &Objects<'a, N>,
    id: &Name,
) -> Result<Vec<TreeEntry<'a>>, Memory>
    requires { (es : List ListedEntry) × HasTree objects.now id.now es }
    ensures { IfOk result (λ es. HasTree objects.now id.now (entries_of es.items)) }
{
    let (_, contents) = objects.get(id).unwrap();
    let entries = read_tree(alloc, contents)?;
    Ok(entries.unwrap())
}
