//! A law of the definitions of paths.
//!
//! A law is a function with an empty body: its clause states the law, and a call does nothing.

ghost use Rattle.std.specs.Prelude.{◌≡◌, List, ℕ, [], Ok};
ghost use Rattle.git_paths.specs.{declared.place.Place.TheVariants.{Last}, Quoting.{quoted}};
ghost use Rattle.git_paths.specs.{Paths.{IsPath, IsWithinLimits, joined}, Reading.{path_at}};

/// A printed path within the limits, as the last part of its line, is read back as the same path.
pub fn printed_is_read()
    ensures { (path : List (List ℕ)) → IsPath path → IsWithinLimits path
        → path_at Last (quoted (joined path)) ≡ Ok (path, []) }
{}
