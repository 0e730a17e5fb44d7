//! Repositories that meet the premises of the laws: functions over the definitions alone, which run
//! nothing.

ghost use Rattle.std.specs.Prelude.{ℕ, List};
ghost use Rattle.git_names.specs.Naming.{AnswersNames, tail_digest};
ghost use Rattle.import_session.specs.Sound.{IsSoundRepository};
ghost use Rattle.export_laws.specs.{Copies.{CanBeCopied}, Ends.{IsImported}};
ghost use Rattle.export_laws.specs.OneCommit.{AreNamedApart, one_commit};

/// A repository of one commit with one file, on the branch `main`, meets the premises of
/// `exports_are_imported`: it is sound, and it can be copied. So its export is imported. This holds
/// for every digest that answers names and names the three objects apart, such as the digest of
/// `TailNaming`.
pub fn one_commit_is_imported()
    ensures sound { (digest : List ℕ → List ℕ) → AnswersNames digest → AreNamedApart digest
        → IsSoundRepository digest (one_commit digest) }
    ensures fits { (digest : List ℕ → List ℕ) → AnswersNames digest → AreNamedApart digest
        → CanBeCopied (one_commit digest) }
    ensures imported { (digest : List ℕ → List ℕ) → AnswersNames digest → AreNamedApart digest
        → IsImported digest (one_commit digest) }
    ensures named { AnswersNames tail_digest }
    ensures apart { AreNamedApart tail_digest }
{}
