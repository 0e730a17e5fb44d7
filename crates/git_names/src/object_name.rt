//! The name of an object, from its kind and contents: git-hash-object(1).

ghost use Rattle.std.specs.Prelude.{◌≡◌, ◌≤◌, ◌+◌, ◌++◌, ◌∷◌, [], length, codes, decimal, IfOk};
ghost use Rattle.git_model.specs.{Kind.{kind_word}, ObjectName.{object_name}};

use crate::name::Name;
use crate::naming::Naming;
use git_model::{Kind, Memory};
use itoa::Buffer;
use std::alloc::Global;
use std::marker::Model;

/// The word that Git writes for a kind: git-cat-file(1).
pub fn kind_word(kind: Kind) -> &'static [u8]
    ensures { result.now ≡ kind_word kind }
{
    match kind {
        Kind::Commit => b"commit",
        Kind::Tree => b"tree",
        Kind::Blob => b"blob",
        Kind::Tag => b"tag",
    }
}

// The header of an object, on the stack: "commit ", 20 digits and a NUL at most.
#[derive(Drop)]
struct Header {
    bytes: [u8; 28],
    len: usize,
}

impl Model for Header {
    ghost use Rattle.std.specs.Prelude.{◌≤◌, ℕ, List, take};

    ghost Value = { List ℕ };

    ghost view = { λ header. take header.len header.bytes };

    ghost invariant = { λ header. header.len ≤ 28 };
}

impl Header {
    fn new(kind: Kind, size: usize) -> Header
        ensures { result ≡ kind_word kind ++ codes " " ++ decimal size ++ 0 ∷ [] }
    {
        let mut digits = Buffer::new();
        let mut header = Header {
            bytes: [0; 28],
            len: 0,
        };
        header.push(kind_word(kind));
        header.push(b" ");
        header.push(digits.format(size).as_bytes());
        header.push(&[0]);
        header
    }

    fn push(&mut self, piece: &[u8])
        requires { length self.old + length piece.now ≤ 28 }
        ensures { self.new ≡ self.old ++ piece.now }
    {
        let end = self.len + piece.len();
        self.bytes[self.len..end].copy_from_slice(piece);
        self.len = end;
    }

    fn as_slice(&self) -> &[u8]
        ensures { result.now ≡ self.now }
    {
        &self.bytes[..self.len]
    }
}

/// The name of the object of this kind with these contents, under this naming: git-hash-object(1).
/// It is the digest of the object's header and contents. A naming that digests piece by piece does
/// not copy the contents.
///
/// `Memory` (90) comes only from a naming that makes a copy, and has no memory for it.
#[tactic(auto, unfolding(git_model::specs::ObjectName::object_name))]
pub fn name_of<N: Naming>(
    alloc: Global,
    naming: &N,
    kind: Kind,
    contents: &[u8],
) -> Result<Name, Memory>
    ensures { IfOk result (λ id. id ≡ object_name N.digest_of kind contents.now) }
{
    let header = Header::new(kind, contents.len());
    let digest = naming.digest_parts(alloc, header.as_slice(), contents)?;
    Ok(Name::from_bytes(digest))
}
