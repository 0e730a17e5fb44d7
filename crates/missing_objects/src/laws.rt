//! Laws of missing objects: functions over the definitions alone, which run nothing.

ghost use Rattle.std.specs.Prelude.{◌≡◌, ◌≢◌, ◌⊎◌, ◌<◌, ℕ, true, All, AllPairs, List, map};
ghost use Rattle.std.specs.List.{Contains};
ghost use Rattle.git_model.specs.{HeldObjects.{AreHeld}, References.{place_of, referred_by}};
ghost use Rattle.git_model.specs.Repository.{Object};
ghost use Rattle.missing_objects.specs.Missing.{has_all, is_reached_by, missing};

/// The missing objects come in the order of the repository, so an object comes after all that it
/// refers to.
pub fn missing_objects_keep_their_order()
    ensures { (digest : List ℕ → List ℕ) (os : List Object) → AreHeld digest os
        → (wants haves : List (List ℕ))
        → AllPairs (λ o p. place_of o.id os < place_of p.id os) (missing os wants haves) }
{}

/// No two of the missing objects have the same name.
pub fn each_missing_object_comes_once()
    ensures { (digest : List ℕ → List ℕ) (os : List Object) → AreHeld digest os
        → (wants haves : List (List ℕ))
        → AllPairs (λ o p. o.id ≢ p.id) (missing os wants haves) }
{}

/// What a missing object refers to is missing too, or the had names reach it.
pub fn missing_objects_are_closed()
    ensures { (digest : List ℕ → List ℕ) (os : List Object) → AreHeld digest os
        → (wants haves : List (List ℕ)) → All (λ o. All (λ id. (is_reached_by os haves id ≡ true)
        ⊎ Contains (map (λ p. p.id) (missing os wants haves)) id) (referred_by os o.id))
        (missing os wants haves) }
{}

/// What the wanted names reach is missing, or the had names reach it, if every wanted name is that
/// of an object.
pub fn missing_objects_are_whole()
    ensures { (digest : List ℕ → List ℕ) (os : List Object) → AreHeld digest os
        → (wants haves : List (List ℕ)) → has_all os wants ≡ true
        → (id : List ℕ) → is_reached_by os wants id ≡ true → (is_reached_by os haves id ≡ true)
        ⊎ Contains (map (λ o. o.id) (missing os wants haves)) id }
{}
