//! The name of a direct entry.

ghost use Rattle.std.specs.Prelude.{◌≡◌, IfOk};
ghost use Rattle.git_model.specs.Tree.{IsEntryName};
ghost use Rattle.git_paths.specs.Paths.{IsComponent, IsPath};

use git_paths::Components;
use smallvec::SmallVec;
use std::alloc::{AllocError, Global};
use std::marker::Model;

/// One component of a path. Up to 24 bytes are kept in the value itself.
#[derive(Drop)]
pub(crate) struct Component {
    bytes: SmallVec<u8, 24>,
}

impl Model for Component {
    ghost use Rattle.std.specs.Prelude.{List, ℕ};
    ghost use Rattle.git_paths.specs.Paths.{IsComponent};

    ghost Value = { List ℕ };

    ghost view = { λ c. c.bytes.items };

    ghost invariant = { λ c. IsComponent c.bytes.items };
}

impl Component {
    /// A component of these bytes. Takes memory for more than 24 of them.
    pub(crate) fn new(alloc: Global, name: &[u8]) -> Result<Component, AllocError>
        requires { IsEntryName name.now }
        ensures { IfOk result (λ c. c ≡ name.now) }
    {
        Ok(Component {
            bytes: SmallVec::from_slice(alloc, name)?,
        })
    }

    /// A copy. Takes memory for more than 24 bytes.
    pub(crate) fn copied(&self, alloc: Global) -> Result<Component, AllocError>
        ensures { IfOk result (λ c. c ≡ self.now) }
    {
        Ok(Component {
            bytes: SmallVec::from_slice(alloc, self.bytes.as_slice())?,
        })
    }

    /// The bytes.
    pub(crate) fn as_bytes(&self) -> &[u8]
        ensures bytes { result.now ≡ self.now }
        ensures component { IsComponent self.now }
    {
        self.bytes.as_slice()
    }
}

/// Tells proofs that a path consists of components. A call does nothing.
pub(crate) fn has_components(path: &Components<'_>)
    ensures { IsPath path.now }
{
    let _bytes = path.as_bytes();
}
