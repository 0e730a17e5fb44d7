//! Contents that the pool lends, in the order that they have in a file.

ghost use Rattle.std.specs.Prelude.{◌≡◌};
ghost use Rattle.content_pool.specs.Pool.{IsLive, content};
ghost use Rattle.pool_file_checks.specs.Objects.{kind_byte, raw_object};
ghost use Rattle.pool_file.specs.Lent.{object_lent};

use content_pool::{Pool, Slot};
use git_names::{Kind, Naming};

/// The contents of an object, and the byte of its kind. They compare by that byte, and then by
/// their bytes.
#[derive(Clone, Copy, PartialEq, Eq, PartialOrd, Ord)]
pub struct LentContent<'a> {
    pub kind: u8,
    pub bytes: &'a [u8],
}

/// A content, and the number of its slot. They compare by their contents.
#[derive(Clone, Copy, PartialEq, Eq, PartialOrd, Ord)]
pub struct ListedContent<'a> {
    pub content: LentContent<'a>,
    pub slot: usize,
}

fn kind_byte(kind: Kind) -> u8
    ensures { result ≡ kind_byte kind }
{
    match kind {
        Kind::Commit => 1,
        Kind::Tree => 2,
        Kind::Blob => 3,
        Kind::Tag => 4,
    }
}

/// The content in a live slot.
pub fn lent_content<'a, N: Naming>(pool: &'a Pool<N>, slot: Slot) -> LentContent<'a>
    requires { IsLive pool.now slot }
    ensures { object_lent result ≡ raw_object (content pool.now slot) }
{
    let (kind, bytes) = pool.get(slot);
    let kind = kind_byte(kind);
    LentContent { kind, bytes }
}
