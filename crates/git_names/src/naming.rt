//! Digests that give objects their names: any fixed function from bytes to 20 bytes.

ghost use Rattle.std.specs.Prelude.{◌≡◌, ℕ, List, ◌++◌, IfOk};
ghost use Rattle.git_names.specs.Naming.{AnswersNames};

use git_model::Memory;
use std::alloc::Global;

/// A digest that gives objects their names: a function of the bytes, the same at every call.
///
/// Nothing else is assumed. Two messages may have the same digest, so contents are never compared
/// by their digests.
pub trait Naming: Drop {
    // The digest of a message. It belongs to the type, so each value of the type answers the same.
    ghost digest_of: { List ℕ → List ℕ };

    /// The digest of a message. Takes no memory.
    fn digest(&self, bytes: &[u8]) -> [u8; 20]
        ensures { result ≡ digest_of bytes.now };

    /// The digest of a message in two pieces, a header and the contents after it.
    ///
    /// This default body copies both pieces into one vector, and answers `Memory` (90) if there is
    /// no memory for it. A naming that can digest piece by piece has a body that takes no memory.
    fn digest_parts(
        &self,
        alloc: Global,
        header: &[u8],
        contents: &[u8],
    ) -> Result<[u8; 20], Memory>
        ensures { IfOk result (λ digest. digest ≡ digest_of (header.now ++ contents.now)) }
    {
        let mut message = Vec::from_slice(alloc, header)?;
        message.extend_from_slice(contents)?;
        Ok(self.digest(message.as_slice()))
    }

    // The digest of any message is an object name.
    ghost answers_names: { AnswersNames digest_of };
}
