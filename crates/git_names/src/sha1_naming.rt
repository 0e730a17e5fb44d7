//! Git's own digest: SHA-1 of FIPS 180-4.

ghost use Rattle.sha1.specs.Sha1.{sha1};
ghost use Rattle.git_names.specs.Digests.{sha1_answers_names};

use crate::naming::Naming;
use git_model::Memory;
use sha1::Sha1;
use std::alloc::Global;

/// Names objects by SHA-1, as Git does. Neither call takes memory: the pieces of a message are
/// digested in turn.
#[derive(Clone, Copy, Debug, Drop)]
pub struct Sha1Naming;

impl Naming for Sha1Naming {
    ghost digest_of = { sha1 };

    ghost answers_names = { sha1_answers_names };

    fn digest(&self, bytes: &[u8]) -> [u8; 20] {
        Sha1::digest(bytes)
    }

    fn digest_parts(
        &self,
        _alloc: Global,
        header: &[u8],
        contents: &[u8],
    ) -> Result<[u8; 20], Memory> {
        let mut hasher = Sha1::new();
        hasher.update(header);
        hasher.update(contents);
        Ok(hasher.finalize())
    }
}
