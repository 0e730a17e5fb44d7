//! Laws of what is printed: functions over the definitions alone, which run nothing.

ghost use Rattle.std.specs.Prelude.{◌≡◌, ◌↔◌, ℕ, List, All};
ghost use Rattle.git_model.specs.{ObjectName.{IsObjectName}, Repository.{Object}};
ghost use Rattle.answers.specs.Printed.{shortest_prefix, IsShortestPrefix};

/// What `abbrev` prints of a name is the shortest prefix of at least 4 digits that begins no other
/// name of these objects, and it is the only such text.
pub fn the_shortest_prefix_is_unique()
    ensures { (os : List Object) (id prefix : List ℕ) → All (λ o. IsObjectName o.id) os
        → IsObjectName id → (shortest_prefix os id ≡ prefix) ↔ IsShortestPrefix os id prefix }
{}
