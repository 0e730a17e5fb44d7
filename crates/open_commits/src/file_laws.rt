//! Laws of the files of open commits: theorems about the definitions alone. The functions do
//! nothing.

ghost use Rattle.std.specs.Prelude.{◌≡◌, ℕ, List, IfOk, Some};
ghost use Rattle.git_model.specs.{declared.file_mode.FileMode.{FileMode}, References.{kind_named}};
ghost use Rattle.git_model.specs.{GoodRepository.{AreObjects}, Repository.{Object}};
ghost use Rattle.git_names.specs.Naming.{AnswersNames};
ghost use Rattle.git_paths.specs.Paths.{IsPath};
ghost use Rattle.stream_grammar.specs.declared.data_ref.DataRef.{DataRef};
ghost use Rattle.stream_grammar.specs.WellFormed.{IsReferred};
ghost use Rattle.file_maps.specs.{FileMap.{Path}, StoredFiles.{tree_of_commit}};
ghost use Rattle.open_commits.specs.Changes.{Marks, contents_put, copied_to, deleted, modified};
ghost use Rattle.open_commits.specs.{Changes.{renamed_to}, GoodCommits.{AreMarks}};
ghost use Rattle.open_commits.specs.{OpenCommit.{OpenCommit}, Parents.{started_from}};
ghost use Rattle.open_commits.specs.OpenFiles.{HasFiles};
ghost use Rattle.git_model.specs.declared.kind.Kind.TheVariants as kind;

/// Whatever a command changes in an open commit, its files stay those of a branch.
pub fn changes_keep_file_maps()
    ensures start { (digest : List ℕ → List ℕ) (os : List Object) → AreObjects digest os
        → (commit : OpenCommit) → HasFiles commit → (id : List ℕ)
        → kind_named (tree_of_commit os id) os ≡ Some kind.Tree
        → IfOk (started_from os id commit) HasFiles }
    ensures modified { (digest : List ℕ → List ℕ) (os : List Object) → AreObjects digest os
        → (commit : OpenCommit) → HasFiles commit → (marks : Marks) → AreMarks os marks
        → (mode : FileMode) (object : DataRef) → IsReferred object → (path : Path) → IsPath path
        → IfOk (modified os marks mode object path commit) HasFiles }
    ensures contents { (digest : List ℕ → List ℕ) → AnswersNames digest → (os : List Object)
        (commit : OpenCommit) → HasFiles commit → (mode : FileMode) (path : Path) → IsPath path
        → (bytes : List ℕ)
        → IfOk (contents_put digest os mode path bytes commit) (λ left. HasFiles left.commit) }
    ensures deleted { (commit : OpenCommit) → HasFiles commit → (path : Path)
        → HasFiles (deleted path commit) }
    ensures copied { (commit : OpenCommit) → HasFiles commit → (source path : Path) → IsPath path
        → IfOk (copied_to source path commit) HasFiles }
    ensures renamed { (commit : OpenCommit) → HasFiles commit → (source path : Path) → IsPath path
        → IfOk (renamed_to source path commit) HasFiles }
{}
