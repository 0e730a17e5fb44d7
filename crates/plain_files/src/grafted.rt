//! The files of a stored tree, read from a table.
//!
//! A tree names the trees of its directories, which stand before it in the table. A tree without
//! files is not read, so reading goes no deeper than the most components of a path.

ghost use Rattle.std.specs.Prelude.{◌≡◌, [], ◌∷◌, ◌++◌, Some, IsSome, IfOk, OnOk};
ghost use Rattle.std.specs.List.{AllByRecursion};
ghost use Rattle.git_model.specs.Tree.{IsEntryName};
ghost use Rattle.git_objects.specs.Parts.{entry_of};
ghost use Rattle.git_paths.specs.Paths.{IsPath};
ghost use Rattle.tenant_tables.specs.{Objects.{objects}, IsBackedBy.{IsBackedBy}};
ghost use Rattle.tenant_tables.specs.View.{summary_of};
ghost use Rattle.plain_files.specs.Gathers.{has_none, Gathers, GathersEntry};
ghost use Rattle.git_model.specs.declared.file_mode.FileMode.TheVariants as mode;

use crate::check::has_components;
use content_pool::Pool;
use file_maps::{Entry, read_entries};
use git_objects::{FileMode, Memory, Name, Naming, TreeEntry};
use git_paths::Path;
use std::alloc::Global;
use tenant_tables::{Objects, Sight, Table};

fn has_none(table: &Table, id: &Name) -> bool
    ensures { result ≡ has_none (summary_of id.now table.now.entries) }
{
    match table.summary(id) {
        Some(summary) => summary.files == 0,
        None => true,
    }
}

fn child(alloc: Global, top: &Path, name: &[u8]) -> Result<Path, Memory>
    requires { IsEntryName name.now }
    ensures { IfOk result (λ path. path ≡ top.now ++ name.now ∷ []) }
{
    top.child(alloc, name)
}

// Appends a file.
fn push_file(
    files: &mut Vec<(Path, Entry)>,
    path: Path,
    entry: &TreeEntry<'_>,
) -> Result<(), Memory>
    requires { AllByRecursion (λ f. IsPath f.0) files.old.items }
    ensures file { OnOk result (files.new.items
        ≡ files.old.items ++ (path, record { mode = entry.now.mode; name = entry.now.id }) ∷ []) }
    ensures paths { OnOk result (AllByRecursion (λ f. IsPath f.0) files.new.items) }
{
    has_components(&path);
    let mode = entry.mode;
    let name = entry.id;
    files.push((path, Entry { mode, name }))?;
    Ok(())
}

/// Appends the files of the tree of this name, with `top` put before each of their paths.
#[cycle(gathering)]
pub(crate) fn gather<N: Naming>(
    alloc: Global,
    pool: &Pool<N>,
    table: &Table,
    top: &Path,
    id: &Name,
    files: &mut Vec<(Path, Entry)>,
) -> Result<(), Memory>
    requires stands { IsBackedBy N.digest_of pool.now table.now.entries }
    requires tree { IsSome (summary_of id.now table.now.entries) }
    requires paths { AllByRecursion (λ f. IsPath f.0) files.old.items }
    ensures gathers { OnOk result (Gathers (objects pool.now table.now.entries) top.now id.now
        files.old.items files.new.items) }
    ensures paths { OnOk result (AllByRecursion (λ f. IsPath f.0) files.new.items) }
{
    if has_none(table, id) {
        return Ok(());
    }
    let entries = read_entries(alloc, &Objects::of(&*pool, table, Sight::All), id)?;
    for entry in &entries {
        gather_entry(alloc, &*pool, table, top, entry, files)?;
    }
    Ok(())
}

// Appends the files of an entry of a tree, with `top` put before each of their paths.
#[cycle(gathering)]
fn gather_entry<N: Naming>(
    alloc: Global,
    pool: &Pool<N>,
    table: &Table,
    top: &Path,
    entry: &TreeEntry<'_>,
    files: &mut Vec<(Path, Entry)>,
) -> Result<(), Memory>
    requires stands { IsBackedBy N.digest_of pool.now table.now.entries }
    requires name { IsEntryName entry.now.name.now }
    requires tree { entry.now.mode ≡ mode.Directory
        → IsSome (summary_of entry.now.id table.now.entries) }
    requires paths { AllByRecursion (λ f. IsPath f.0) files.old.items }
    ensures gathers { OnOk result (GathersEntry (objects pool.now table.now.entries) top.now
        (entry_of entry.now) files.old.items files.new.items) }
    ensures paths { OnOk result (AllByRecursion (λ f. IsPath f.0) files.new.items) }
{
    let path = child(alloc, top, entry.name)?;
    match entry.mode {
        FileMode::Directory => gather(alloc, &*pool, table, &path, &entry.id, files),
        _ => push_file(files, path, entry),
    }
}
