//! How many names a look-up finds.

ghost use Rattle.std.specs.Prelude.{◌≡◌};
ghost use Rattle.name_index.specs.Index.{with_more};

use git_names::Name;

/// What a look-up finds among distinct names.
#[derive(Clone, Copy, PartialEq, Eq)]
pub enum Between {
    /// No name.
    None,
    /// Only this name.
    One(Name),
    /// More than one name.
    Many,
}

impl Between {
    /// What is found with these names, too.
    pub(crate) fn with(self, names: &[Name]) -> Between
        ensures { result ≡ with_more self names.now }
    {
        match self {
            Between::None if names.len() == 1 => Between::One(names[0]),
            _ if names.is_empty() => self,
            _ => Between::Many,
        }
    }
}
