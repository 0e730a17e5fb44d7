//! Laws of open commits: theorems about the definitions alone. The functions do nothing.

ghost use Rattle.std.specs.Prelude.{◌≡◌, ℕ, List, [], ◌++◌, Ok, Some};
ghost use Rattle.git_model.specs.{declared.file_mode.FileMode.{FileMode}, References.{kind_named}};
ghost use Rattle.git_model.specs.{GoodRepository.{AreObjects}, Repository.{Object}};
ghost use Rattle.git_names.specs.Naming.{AnswersNames};
ghost use Rattle.stream_grammar.specs.declared.data_ref.DataRef.{DataRef};
ghost use Rattle.tenant_tables.specs.Sums.{TreesFit};
ghost use Rattle.file_maps.specs.FileMap.{Path, AreFiles, listed};
ghost use Rattle.open_commits.specs.{OpenCommit.{Header, OpenCommit, begun}, Ends.{Closed, closed}};
ghost use Rattle.open_commits.specs.{Parents.{started_from, merged}, Showing.{Shown, commit_entry_shown}};
ghost use Rattle.open_commits.specs.Changes.{Marks, Left, modified, contents_put, deleted};
ghost use Rattle.open_commits.specs.Changes.{copied_to, renamed_to, all_deleted};
ghost use Rattle.open_commits.specs.GoodCommits.{AreMarks, IsGoodHeader, IsGoodCommit, GrowGood};
ghost use Rattle.open_commits.specs.GoodCommits.{HoldsCommit};
ghost use Rattle.git_model.specs.declared.kind.Kind.TheVariants as kind;

/// A new commit is good if its header can be written.
pub fn a_commit_begins_good()
    ensures { (os : List Object) (header : Header) (message : List ℕ) → IsGoodHeader header
        → IsGoodCommit os (begun header message) }
{}

/// A good commit stays good when objects are added.
pub fn more_objects_keep_it()
    ensures { (os more : List Object) (commit : OpenCommit) → IsGoodCommit os commit
        → IsGoodCommit (os ++ more) commit }
{}

/// A good commit stays good when it starts from a commit among the objects.
pub fn a_start_keeps_it()
    ensures { (digest : List ℕ → List ℕ) (os : List Object) → AreObjects digest os
        → (commit next : OpenCommit) → IsGoodCommit os commit → AreFiles (listed commit.files)
        → (id : List ℕ) → kind_named id os ≡ Some kind.Commit
        → started_from os id commit ≡ Ok next → IsGoodCommit os next }
{}

/// A good commit stays good when it merges a commit among the objects.
pub fn a_merge_keeps_it()
    ensures { (os : List Object) (commit next : OpenCommit) → IsGoodCommit os commit
        → (id : List ℕ) → kind_named id os ≡ Some kind.Commit
        → merged id commit ≡ Ok next → IsGoodCommit os next }
{}

/// A good commit stays good when an object is put at a path. The marks must be good.
pub fn a_change_keeps_it()
    ensures { (digest : List ℕ → List ℕ) (os : List Object) → AreObjects digest os
        → (commit next : OpenCommit) → IsGoodCommit os commit → AreFiles (listed commit.files)
        → (marks : Marks) → AreMarks os marks
        → (mode : FileMode) (object : DataRef) (path : Path)
        → modified os marks mode object path commit ≡ Ok next → IsGoodCommit os next }
{}

/// When contents are put at a path, the objects with the new blob are good, and so is the commit
/// among them.
pub fn contents_keep_it()
    ensures { (digest : List ℕ → List ℕ) → AnswersNames digest
        → (os : List Object) → AreObjects digest os
        → (commit : OpenCommit) → IsGoodCommit os commit → AreFiles (listed commit.files)
        → (mode : FileMode) (path : Path) (bytes : List ℕ) (left : Left)
        → contents_put digest os mode path bytes commit ≡ Ok left
        → GrowGood digest os left.objects × IsGoodCommit left.objects left.commit }
{}

/// A good commit stays good when files are deleted, copied or renamed.
pub fn moves_keep_it()
    ensures deleted { (os : List Object) (commit : OpenCommit) → IsGoodCommit os commit
        → AreFiles (listed commit.files) → (path : Path) → IsGoodCommit os (deleted path commit) }
    ensures copied { (os : List Object) (commit next : OpenCommit) → IsGoodCommit os commit
        → AreFiles (listed commit.files) → (source path : Path)
        → copied_to source path commit ≡ Ok next → IsGoodCommit os next }
    ensures renamed { (os : List Object) (commit next : OpenCommit) → IsGoodCommit os commit
        → AreFiles (listed commit.files) → (source path : Path)
        → renamed_to source path commit ≡ Ok next → IsGoodCommit os next }
    ensures all_deleted { (os : List Object) (commit : OpenCommit) → IsGoodCommit os commit
        → IsGoodCommit os (all_deleted commit) }
{}

/// Good objects stay good with the trees that `ls` stores.
pub fn shown_trees_keep_objects_good()
    ensures { (digest : List ℕ → List ℕ) → AnswersNames digest
        → (os : List Object) → AreObjects digest os
        → (commit : OpenCommit) → IsGoodCommit os commit → AreFiles (listed commit.files)
        → (path : Path) (shown : Shown) → commit_entry_shown digest os commit.files path ≡ Ok shown
        → GrowGood digest os shown.objects }
{}

/// Good objects stay good with those that the end of a good commit adds, and the commit is among
/// them.
pub fn an_end_keeps_objects_good()
    ensures { (digest : List ℕ → List ℕ) → AnswersNames digest
        → (os : List Object) → AreObjects digest os
        → (commit : OpenCommit) → IsGoodCommit os commit → AreFiles (listed commit.files)
        → (end : Closed) → closed digest os commit ≡ Ok end
        → HoldsCommit digest os end.objects end.id }
{}

/// When contents are put at a path, all trees stay within the limits.
pub fn contents_keep_trees_fitting()
    ensures { (digest : List ℕ → List ℕ) (os : List Object) → TreesFit [] os
        → (commit : OpenCommit) (mode : FileMode) (path : Path) (bytes : List ℕ) (left : Left)
        → contents_put digest os mode path bytes commit ≡ Ok left → TreesFit [] left.objects }
{}

/// All trees stay within the limits with those that `ls` stores.
pub fn shown_trees_keep_trees_fitting()
    ensures { (digest : List ℕ → List ℕ) → AnswersNames digest
        → (os : List Object) → AreObjects digest os → TreesFit [] os
        → (commit : OpenCommit) → IsGoodCommit os commit → AreFiles (listed commit.files)
        → (path : Path) (shown : Shown) → commit_entry_shown digest os commit.files path ≡ Ok shown
        → TreesFit [] shown.objects }
{}

/// All trees stay within the limits with those that a commit stores at its end.
pub fn an_end_keeps_trees_fitting()
    ensures { (digest : List ℕ → List ℕ) → AnswersNames digest
        → (os : List Object) → AreObjects digest os → TreesFit [] os
        → (commit : OpenCommit) → IsGoodCommit os commit → AreFiles (listed commit.files)
        → (end : Closed) → closed digest os commit ≡ Ok end → TreesFit [] end.objects }
{}
