//! Ref names: git-check-ref-format(1), and `HEAD`.
//!
//! A ref name belongs to one tenant: it begins with `refs/`, but not with `refs/namespaces/`, under
//! which the refs of all tenants would be. A ref of that name need not exist.

ghost use Rattle.std.specs.Prelude.{◌≡◌, ◌≤◌, ◌<◌, ◌↔◌, IfOk, OnOk, Err, IsTrue, length, codes};
ghost use Rattle.git_model.specs.Limits.{ref_name_limit};
ghost use Rattle.git_names.specs.declared.ref_name_fault.RefNameFault.TheVariants.{BadRefName};
ghost use Rattle.git_names.specs.declared.ref_name_fault.RefNameFault.TheVariants.{Limit};
ghost use Rattle.git_names.specs.StoredName.{NamesRef};

use crate::ref_name_fault::RefNameFault;
use crate::ref_text::is_ref_name;
use crate::text::Text;
use git_model::Memory;
use std::alloc::Global;
use std::marker::Model;

/// The longest ref name that is read, in bytes.
pub const REF_NAME_LIMIT: usize = 1024;

/// A ref name or `HEAD`, of at most 1,024 bytes. Names compare as their bytes do.
#[derive(Debug, Drop, PartialEq, Eq, PartialOrd, Ord, Hash)]
pub struct RefName {
    text: Text,
}

impl Model for RefName {
    ghost use Rattle.std.specs.Prelude.{ℕ, List};

    ghost Value = { List ℕ };

    ghost use Rattle.std.specs.Prelude.{◌≤◌, IsTrue, length};
    ghost use Rattle.git_model.specs.Limits.{ref_name_limit};
    ghost use Rattle.git_names.specs.StoredName.{names_ref};

    ghost view = { λ name. name.text };

    ghost invariant = { λ name. IsTrue (names_ref name.text)
        × (length name.text ≤ ref_name_limit) };

    ghost inverse = { λ bytes. record { text = bytes } };
}

impl RefName {
    /// Reads a ref name by the rules of git-check-ref-format(1), or `HEAD`.
    ///
    /// `RefNameFault::BadRefName` (11) if a rule is broken, else `RefNameFault::Limit` (25) if the
    /// text has more than 1,024 bytes; neither takes memory. Else `RefNameFault::Memory` (90) if
    /// there is no memory for the copy.
    pub fn read(alloc: Global, text: &[u8]) -> Result<RefName, RefNameFault>
        ensures name { IfOk result (λ name. name ≡ text.now) }
        ensures well_formed { OnOk result (NamesRef text.now × (length text.now ≤ ref_name_limit)) }
        ensures bad { (result ≡ Err BadRefName) ↔ (¬ NamesRef text.now) }
        ensures long { (result ≡ Err Limit)
            ↔ (NamesRef text.now × (ref_name_limit < length text.now)) }
    {
        if !is_ref_name(text) && text != b"HEAD".as_slice() {
            return Err(RefNameFault::BadRefName);
        }
        if text.len() > REF_NAME_LIMIT {
            return Err(RefNameFault::Limit);
        }
        let text = Text::from_slice(alloc, text)?;
        Ok(RefName { text })
    }

    /// The bytes of the name.
    pub fn as_bytes(&self) -> &[u8]
        ensures text { result.now ≡ self.now }
        ensures well_formed { NamesRef self.now }
        ensures short { length self.now ≤ ref_name_limit }
    {
        self.text.as_bytes()
    }

    /// Whether this is `HEAD`, which stands for the ref that the repository's HEAD names.
    pub fn is_head(&self) -> bool
        ensures { IsTrue result ↔ (self.now ≡ codes "HEAD") }
    {
        self.as_bytes() == b"HEAD".as_slice()
    }

    /// A copy of the name. `Memory` (90) if there is no memory for it.
    pub fn try_clone(&self, alloc: Global) -> Result<RefName, Memory>
        ensures { IfOk result (λ copy. copy ≡ self.now) }
    {
        let text = self.text.try_clone(alloc)?;
        Ok(RefName { text })
    }
}
