//! Laws of pool files and of their checks. Each is a function with an empty body, whose clauses
//! speak only of definitions.

ghost use Rattle.std.specs.Prelude.{◌≡◌, ℕ, List, None, ◌<◌, [], All, Ok};
ghost use Rattle.pool_file_format.specs.Format.{RawObject, RawFile, FitsFile};
ghost use Rattle.pool_file_format.specs.Lengths.{sealed_at};
ghost use Rattle.pool_file_checks.specs.{Checks.{Passes, Refuses}, Objects.{object_checks}};
ghost use Rattle.pool_file_checks.specs.{Whole.{file_checks}, Repositories.{Named, raw_of}};
ghost use Rattle.pool_file_checks.specs.{Saved.{saved_in}, Saving.{CanSave, IsTextOf}};
ghost use Rattle.git_names.specs.Naming.{AnswersNames};

/// At most one refusal is the first of the checks of objects. If all hold, no refusal is.
pub fn one_refusal_is_first()
    ensures once { (os : List RawObject) (r s : _) → Refuses (object_checks None os) r
        → Refuses (object_checks None os) s → r ≡ s }
    ensures none { (os : List RawObject) (r : _) → Passes (object_checks None os)
        → Refuses (object_checks None os) r → ⊥ }
{}

/// At most one refusal is the first of all checks of a file. If all hold, no refusal is.
pub fn one_refusal_of_a_file_is_first()
    ensures once { (digest : List ℕ → List ℕ) (f : RawFile) (r s : _)
        → Refuses (file_checks digest f) r
        → Refuses (file_checks digest f) s → r ≡ s }
    ensures none { (digest : List ℕ → List ℕ) (f : RawFile) (r : _) → Passes (file_checks digest f)
        → Refuses (file_checks digest f) r → ⊥ }
{}

/// The repositories that a good file says have exactly this file.
pub fn what_is_said_is_saved()
    ensures file { (digest : List ℕ → List ℕ) (f : RawFile) → Passes (file_checks digest f)
        → raw_of f.version (saved_in digest f) ≡ f }
{}

/// The file of repositories that can be saved is good, and says these repositories.
pub fn what_is_saved_is_said()
    ensures passes { (version : ℕ) (digest : List ℕ → List ℕ) (all : List Named)
        → CanSave version digest all → Passes (file_checks digest (raw_of version all)) }
    ensures again { (version : ℕ) (digest : List ℕ → List ℕ) (all : List Named)
        → CanSave version digest all → saved_in digest (raw_of version all) ≡ all }
{}

/// What a good file says can be saved in its version, if the digest answers 20 bytes.
pub fn what_is_said_can_be_saved()
    ensures said { (digest : List ℕ → List ℕ) (f : RawFile) → AnswersNames digest → FitsFile f
        → Passes (file_checks digest f) → CanSave f.version digest (saved_in digest f) }
{}

/// Bytes that are read as a good file are a text of the repositories that it says. Each text of
/// repositories is read as these repositories, and is a text of no others.
pub fn texts_are_read()
    ensures found { (digest : List ℕ → List ℕ) (bytes : List ℕ) (f : RawFile)
        → AnswersNames digest → All (λ byte. byte < 256) bytes
        → sealed_at digest bytes ≡ Ok (f, []) → Passes (file_checks digest f)
        → IsTextOf digest (saved_in digest f) bytes }
    ensures again { (digest : List ℕ → List ℕ) (all : List Named) (bytes : List ℕ)
        → AnswersNames digest → IsTextOf digest all bytes
        → (f : RawFile) × (sealed_at digest bytes ≡ Ok (f, []))
        × Passes (file_checks digest f) × (saved_in digest f ≡ all) }
    ensures one { (digest : List ℕ → List ℕ) (all others : List Named) (bytes : List ℕ)
        → AnswersNames digest → IsTextOf digest all bytes → IsTextOf digest others bytes
        → all ≡ others }
{}
