//! What a slot stores.

ghost use Rattle.std.specs.Prelude.{◌≡◌, ◌↔◌, IsTrue};
ghost use Rattle.git_model.specs.Content.{content_from};
ghost use Rattle.content_pool.specs.Pool.{content_of};

use crate::bytes::Bytes;
use crate::prefix::Prefix;
use git_model::Kind;

/// A content, the prefix of the object name that leads to it, and how often it is held. The prefix
/// is kept because `release` takes no memory, and hashing the content again might.
#[derive(Drop)]
pub struct Stored {
    pub prefix: Prefix,
    pub kind: Kind,
    pub bytes: Bytes,
    pub holds: u64,
}

impl Stored {
    /// Whether this is the content of this kind with these bytes. The prefix does not count.
    pub fn is(&self, kind: Kind, bytes: &[u8]) -> bool
        ensures { IsTrue result ↔ (content_of self.now ≡ content_from kind bytes.now) }
    {
        self.kind == kind && self.bytes.as_slice() == bytes
    }

    /// Whether these are the bytes of the content.
    pub fn has_bytes(&self, bytes: &[u8]) -> bool
        ensures { IsTrue result ↔ (self.now.bytes ≡ bytes.now) }
    {
        self.bytes.as_slice() == bytes
    }
}
