//! Laws of branches: functions over the definitions alone, which run nothing.

ghost use Rattle.std.specs.Prelude.{◌≡◌, ◌≤◌, ℕ, List, length};
ghost use Rattle.git_model.specs.{Content.{Content}, Repository.{Object, with_object}};
ghost use Rattle.tree_build.specs.{Branch.{Branch, IsBranch, files_in, closed_from}, Shape.{Held}};
ghost use Rattle.file_maps.specs.FileMap.{Path};

/// An object that is added to the table does not change a branch: `IsBranch` still holds, and the
/// branch has the same files.
pub fn files_stay()
    ensures { (os : List Object) (id : List ℕ) (c : Content) (b : Branch) → IsBranch os b
        → IsBranch (with_object id c os) b × (files_in (with_object id c os) b ≡ files_in os b) }
{}

/// A walk along a path reads at most one tree for each component of the path; at the root, none.
///
/// The `reads` clauses bound what an edit or `store` counts by such walks. So their clauses `few`
/// follow: `put`, `drop_path`, `graft` and `store` count at most as many trees as their path has
/// components (`put` at `d7/x`, at most two), `copy` and `rename` at most as many as both paths
/// have together.
pub fn walks_read_few()
    ensures { (h : Held) (path : Path) → closed_from h path ≤ length path }
{}
