//! Laws of how expressions and ranges are read: functions over the definitions alone, which run
//! nothing.

ghost use Rattle.std.specs.Prelude.{◌≡◌, ◌≢◌, ◌↔◌, ◌++◌, [], List, ℕ, None, Some, codes, false};
ghost use Rattle.std.specs.{List.{list_any, flat_map, AllByRecursion}, Option.{option_map}};
ghost use Rattle.git_model.specs.Bytes.{Holds};
ghost use Rattle.revisions.specs.declared.commit_range.Range.TheVariants.{From};
ghost use Rattle.revisions.specs.ExpressionReading.{cut, is_mark, IsPiece, dotted, expression_of};
ghost use Rattle.revisions.specs.ExpressionReading.{parted, range_of, IsPartedAtFirst};

/// The parts that a text is cut into are together the text: nothing is lost, and nothing comes
/// twice.
pub fn parts_spell_the_text()
    ensures { (text : List ℕ) → (cut text).front ++ flat_map (λ piece. piece) (cut text).pieces
        ≡ text }
{}

/// A text is cut into the only parts that are together the text: bytes without a mark, and pieces
/// that each begin with a mark and have no other.
pub fn no_other_parts_spell_it()
    ensures { (front : List ℕ) (pieces : List (List ℕ)) → list_any is_mark front ≡ false
        → AllByRecursion IsPiece pieces
        → cut (front ++ flat_map (λ piece. piece) pieces)
        ≡ record { front = front; pieces = pieces } }
{}

/// A text is parted at the first occurrence of a part and nowhere else; it is not parted where the
/// part does not occur. What is before that occurrence does not contain the part.
pub fn a_text_is_parted_at_the_first_place()
    ensures first { (part text before after : List ℕ) → part ≢ []
        → (parted part text ≡ Some (before, after)) ↔ IsPartedAtFirst part text before after }
    ensures nowhere { (part text : List ℕ) → part ≢ []
        → (parted part text ≡ None) ↔ (¬ Holds text part) }
    ensures before { (part text before after : List ℕ) → part ≢ []
        → IsPartedAtFirst part text before after → ¬ Holds before part }
{}

/// A range is parted at its first two dots; a text without them is read as an expression.
pub fn a_range_is_parted_at_its_first_dots()
    ensures first { (text left right : List ℕ) → IsPartedAtFirst (codes "..") text left right
        → range_of text ≡ dotted left right }
    ensures nowhere { (text : List ℕ) → ¬ Holds text (codes "..")
        → range_of text ≡ option_map From (expression_of text) }
{}
