//! Laws of file maps: functions over the definitions alone, which run nothing.

ghost use Rattle.std.specs.Prelude.{◌≡◌, ◌≢◌, ◌↔◌, ℕ, List, [], ◌∷◌, ◌++◌, All, None, Some};
ghost use Rattle.git_model.specs.{GoodRepository.{AreObjects, MayAdd}, References.{kind_named}};
ghost use Rattle.git_model.specs.{Content.{Content}, Repository.{Object, Repository, with_object}};
ghost use Rattle.git_model.specs.{RefStore.{no_refs}, Tree.{TreeEntry}};
ghost use Rattle.git_names.specs.Naming.{AnswersNames};
ghost use Rattle.content_pool.specs.Pool.{Cells};
ghost use Rattle.tenant_tables.specs.{View.{Entries, summary_of}, Objects.{objects}};
ghost use Rattle.tenant_tables.specs.{IsBackedBy.{IsBackedBy}, SumIn.{sum_in}, Sums.{TreesFit}};
ghost use Rattle.tenant_tables.specs.Trees.{IsWithin};
ghost use Rattle.tenant_tables.specs.declared.summary.Summary.{Summary};
ghost use Rattle.file_maps.specs.FileMap.{FileMap, Path, Listed, AreFiles, listed};
ghost use Rattle.file_maps.specs.{HeldFiles.{IsFileHeld}, Edits.{files_at, with_files}};
ghost use Rattle.file_maps.specs.Trees.{grouped, nested_trees, tree_entries, tree_id};
ghost use Rattle.file_maps.specs.ByComponent.{AreByDirectory, IsByFirstComponent};
ghost use Rattle.file_maps.specs.{ByComponent.{IsTreeByComponent}, Storable.{files_summary}};
ghost use Rattle.file_maps.specs.{PlainTrees.{HasSummary, ListsPlain}, StoredTree.{ListsTree, AreFilesOf}};
ghost use Rattle.file_maps.specs.{Storing.{trees_fault, with_trees}, StoredFiles.{stored_files}};
ghost use Rattle.file_maps.specs.GoodTrees.{IsTreeOfFiles, IsRepository, StayGood};
ghost use Rattle.file_maps.specs.StoredAgain.{AreTreesGood, Every, IsStoredAlready};
ghost use Rattle.std.specs.FinMap as finmap;
ghost use Rattle.git_model.specs.declared.kind.Kind.TheVariants as kind;

/// Below any path, the neighbouring files with the same first component are all files at or below
/// that component: in the order of whole paths, the files of one directory are side by side.
pub fn files_by_component()
    ensures { (m : FileMap) (top : Path) → AreFiles (listed m)
        → IsByFirstComponent m top (grouped (files_at m top)) }
{}

/// The tree of what is below any path has an entry, with mode and object name, for each component
/// at which something is one component further, and no other entry.
pub fn trees_by_component()
    ensures { (digest : List ℕ → List ℕ) (m : FileMap) (top : Path) → AreFiles (listed m)
        → IsTreeByComponent digest m top (tree_entries digest (files_at m top)) }
{}

/// The trees of the files at or below any path are that of the path and those of all directories
/// below it, of each directory once. Children come first: each tree comes after the trees of its
/// own directories, which come in its order. So the tree of the path is the last one.
pub fn trees_by_directory()
    ensures { (digest : List ℕ → List ℕ) (m : FileMap) (top : Path) → AreFiles (listed m)
        → AreByDirectory digest m top (nested_trees digest (files_at m top)) }
{}

/// The files of a stored tree that has a summary make the same tree again: it has the same name, and
/// storing them adds nothing.
pub fn stored_trees_stay()
    ensures { (digest : List ℕ → List ℕ) (os : List Object)
        → AreTreesGood digest os (HasSummary os)
        → (id : List ℕ) (files : Listed) → ListsPlain os id files
        → IsStoredAlready digest os id files }
{}

/// The trees of a table that stands in its pool are good.
pub fn table_trees_are_good()
    ensures { (digest : List ℕ → List ℕ) (pool : Cells) (entries : Entries)
        → IsBackedBy digest pool entries
        → AreTreesGood digest (objects pool entries) (HasSummary (objects pool entries)) }
{}

/// So the files of each of them that has a summary, as `stored_files` reads them, make the same tree
/// again.
pub fn table_trees_stay()
    ensures { (digest : List ℕ → List ℕ) (pool : Cells) (entries : Entries)
        → IsBackedBy digest pool entries
        → (id : List ℕ) → HasSummary (objects pool entries) id
        → IsStoredAlready digest (objects pool entries) id
        (stored_files (objects pool entries) id) }
{}

/// The summary that a table keeps beside a tree is that of the tree's files: how many there are,
/// the most components of a path, and the most bytes of a path.
pub fn table_summaries_are_of_files()
    ensures { (digest : List ℕ → List ℕ) (pool : Cells) (entries : Entries)
        → IsBackedBy digest pool entries
        → (id : List ℕ) (files : Listed) → ListsPlain (objects pool entries) id files
        → summary_of id entries ≡ Some (files_summary files) }
{}

/// A tree that has a summary has files, and no others: its text is a writer's, and each of its
/// directories has files too. The summary is that of the files, and they are within the limits. So
/// a command that begins with the files of a tree has them wherever the tree has a summary.
pub fn trees_with_sums_have_files()
    ensures { (os : List Object) (id : List ℕ) (s : Summary) → sum_in os id ≡ Some s
        → AreFilesOf os id (stored_files os id) × (s ≡ files_summary (stored_files os id))
        × IsWithin s }
{}

/// In a good repository each tree has the files that `stored_files` gives, and no others.
pub fn good_trees_have_files()
    ensures { (digest : List ℕ → List ℕ) (os : List Object) → AreObjects digest os
        → (id : List ℕ) → kind_named id os ≡ Some kind.Tree
        → AreFilesOf os id (stored_files os id) }
{}

/// So if some files are all the files of a tree, `stored_files` gives them.
pub fn files_are_the_stored_files()
    ensures { (digest : List ℕ → List ℕ) (os : List Object) → AreObjects digest os
        → (id : List ℕ) (files : Listed) → AreFilesOf os id files → files ≡ stored_files os id }
{}

/// The trees of good objects are those of file maps, and the files of each make the same tree again.
pub fn good_objects_have_good_trees()
    ensures { (digest : List ℕ → List ℕ) (os : List Object) → AreObjects digest os
        → AreTreesGood digest os Every
        × ((id : List ℕ) (files : Listed) → ListsTree os id files
        → IsStoredAlready digest os id files) }
{}

/// Good objects have trees that fit, each after those before it, exactly where the files of each
/// tree are within the limits.
pub fn trees_fit_where_their_files_do()
    ensures { (digest : List ℕ → List ℕ) (os : List Object) → AreObjects digest os
        → TreesFit [] os ↔ ((id : List ℕ) (files : Listed) → ListsTree os id files
        → IsWithin (files_summary files)) }
{}

/// A stored tree lists its files in the order of a file map.
pub fn stored_files_are_in_order()
    ensures { (os : List Object) (id : List ℕ) (files : Listed) → ListsTree os id files
        → files_at (with_files finmap.empty files) [] ≡ files }
{}

/// A tree lists the same files after other trees are added.
pub fn stored_files_stay()
    ensures { (digest : List ℕ → List ℕ) (trees : List (List TreeEntry)) (os : List Object)
        (id : List ℕ) (files : Listed) → ListsTree os id files
        → ListsTree (with_trees digest trees os) id files }
{}

/// A good repository stays good when an object is added that may be added and, if it is a tree, has
/// the files of a file map within the limits.
pub fn one_more_object_keeps_a_repository()
    ensures { (digest : List ℕ → List ℕ) (r : Repository) (o : Object)
        → IsRepository digest r → MayAdd digest r.objects o
        → (o.content.kind ≡ kind.Tree → IsTreeOfFiles (r.objects ++ o ∷ []) o.id)
        → IsRepository digest (record r { objects = r.objects ++ o ∷ [] }) }
{}

/// A repository with no objects and no refs is good.
pub fn an_empty_repository_is_good()
    ensures { (digest : List ℕ → List ℕ)
        → IsRepository digest (record { objects = []; refs = no_refs }) }
{}

/// The trees of the files below a path, children first, may be added to good objects if each file's
/// object is there and the table refuses no tree: the objects stay good, and the tree of the path
/// is among them.
pub fn trees_keep_objects_good()
    ensures { (digest : List ℕ → List ℕ) → AnswersNames digest
        → (os : List Object) → AreObjects digest os
        → (m : FileMap) → AreFiles (listed m) → All (IsFileHeld os) (listed m)
        → (path : Path) → trees_fault digest (nested_trees digest (files_at m path)) os ≡ None
        → StayGood digest os (with_trees digest (nested_trees digest (files_at m path)) os)
        (tree_id digest (files_at m path)) }
{}

/// If the trees fitted before, they fit with the added ones too: trees of files within the limits
/// are within the limits.
pub fn trees_keep_fitting()
    ensures { (digest : List ℕ → List ℕ) → AnswersNames digest
        → (os : List Object) → AreObjects digest os → TreesFit [] os
        → (m : FileMap) → AreFiles (listed m) → All (IsFileHeld os) (listed m)
        → (path : Path) → trees_fault digest (nested_trees digest (files_at m path)) os ≡ None
        → TreesFit [] (with_trees digest (nested_trees digest (files_at m path)) os) }
{}

/// Adding an object that is not a tree keeps the trees fitting.
pub fn other_objects_keep_trees_fitting()
    ensures { (os : List Object) → TreesFit [] os → (id : List ℕ) (content : Content)
        → content.kind ≢ kind.Tree → TreesFit [] (with_object id content os) }
{}
