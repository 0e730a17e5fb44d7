//! What of an object name leads to a bucket.

ghost use Rattle.std.specs.{Prelude.{◌≡◌, ◌∷◌, []}, Cmp.Rules.{hashing}};
ghost use Rattle.content_pool.specs.Index.{prefix_of};
ghost use Rattle.std.proofs.Common.{rules};

use git_names::{Name, has_twenty_bytes};
use std::hash::{Hash, Hasher};
use std::marker::Model;

/// The first seven bytes of an object name. Names with the same prefix share a bucket.
#[derive(Clone, Copy, PartialEq, Eq)]
pub struct Prefix {
    bytes: [u8; 7],
}

impl Model for Prefix {
    ghost use Rattle.std.specs.Prelude.{ℕ, List};

    ghost Value = { List ℕ };

    ghost view = { λ prefix. prefix.bytes };

    ghost inverse = { λ bytes. record { bytes = bytes } };
}

impl Hash for Prefix {
    ghost hash_input = { λ prefix. prefix ∷ [] };

    ghost respects_eq = { Prim.search (hashing, rules) };

    // The bytes of a digest are evenly distributed already.
    fn hash<H: Hasher>(&self, state: &mut H) {
        state.write(self.bytes.as_slice());
    }
}

impl Prefix {
    /// The prefix of this name.
    pub fn of(id: &Name) -> Prefix
        ensures { result ≡ prefix_of id.now }
    {
        has_twenty_bytes(id);
        let bytes: &[u8] = id.as_bytes();
        match bytes.first_chunk::<7>() {
            Some(first) => Prefix { bytes: *first },
            None => Prefix { bytes: [0; 7] },
        }
    }
}
