//! The result of looking up an abbreviated object name: gitrevisions(7), `<sha1>`.

ghost use Rattle.std.specs.Prelude.{◌≡◌, ◌++◌, ℕ, List};
ghost use Rattle.tenant_tables.specs.Abbreviation.{only_of};

use git_names::Name;

/// How many object names in sight begin with some digits, and which one if it is the only one.
#[derive(Clone, Copy, PartialEq, Eq)]
pub enum Found {
    /// No name begins with them.
    None,
    /// Only this name does.
    One(Name),
    /// More than one name does: the abbreviation is ambiguous.
    Many,
}

/// What is found in two lists together, of which no name is in both.
pub(crate) fn both(one: Found, other: Found) -> Found
    ensures { (ids more : List (List ℕ)) → one ≡ only_of ids → other ≡ only_of more
        → result ≡ only_of (ids ++ more) }
{
    match (one, other) {
        (Found::None, found) | (found, Found::None) => found,
        _ => Found::Many,
    }
}
