//! Object names: gitglossary(7), "object name".

ghost use Rattle.std.specs.Prelude.{◌≡◌, ◌≢◌, ℕ, List, MatchOption, take, length, [], ◌∷◌};
ghost use Rattle.std.specs.{Cmp.Lexicographic.{slice_cmp}, Cmp.Rules.{hashing}, Ordering.{nat_cmp}};
ghost use Rattle.std.specs.Int.{from_be_bytes, w64};
ghost use Rattle.git_model.specs.ObjectName.{IsObjectName};
ghost use Rattle.hex.specs.Hex.{encode_lower, decode_sized};
ghost use Rattle.std.proofs.Common.{rules};

use hex::FromHex;
use std::cmp::Ordering;
use std::hash::{Hash, Hasher};
use std::marker::Model;

/// The name of an object: the 20 bytes of a digest. Names compare as their bytes do.
#[derive(Clone, Copy, Debug, PartialEq, Eq)]
pub struct Name {
    bytes: [u8; 20],
}

impl Model for Name {
    ghost use Rattle.std.specs.Prelude.{ℕ, List};

    ghost Value = { List ℕ };

    ghost view = { λ id. id.bytes };

    ghost inverse = { λ bytes. record { bytes = bytes } };
}

impl PartialOrd for Name {
    ghost use Rattle.std.specs.{Prelude.{Some}, Ordering.{nat_cmp}};
    ghost use Rattle.std.specs.Cmp.Lexicographic.{slice_cmp, texts_po};

    ghost partial_cmp = { λ a b. Some (slice_cmp nat_cmp a b) };

    ghost laws = { texts_po };

    fn partial_cmp(&self, other: &Name) -> Option<Ordering> {
        Some(self.cmp(other))
    }
}

impl Ord for Name {
    ghost use Rattle.std.specs.{Prelude.{refl}, Ordering.{nat_cmp}};
    ghost use Rattle.std.specs.Cmp.Lexicographic.{slice_cmp, nat_list_cmp_total, texts_ties};

    ghost cmp = { slice_cmp nat_cmp };

    ghost total = { nat_list_cmp_total };

    ghost matches_partial_cmp = { λ _ _. refl };

    ghost matches_eq = { texts_ties };

    fn cmp(&self, other: &Name) -> Ordering {
        order_of(&self.bytes, &other.bytes)
    }
}

// Digests rarely begin alike, so one comparison of numbers mostly decides.
fn order_of(ours: &[u8; 20], theirs: &[u8; 20]) -> Ordering
    ensures { result ≡ slice_cmp nat_cmp ours.now theirs.now }
{
    let (first, second) = (front_of(ours), front_of(theirs));
    if first != second {
        return first.cmp(&second);
    }
    ours.cmp(theirs)
}

// The first eight bytes as a number.
fn front_of(bytes: &[u8; 20]) -> u64
    ensures { result ≡ from_be_bytes w64 (take 8 bytes.now) }
{
    let (front, _) = bytes.split_first_chunk::<8>().unwrap();
    u64::from_be_bytes(*front)
}

impl Hash for Name {
    ghost hash_input = { λ id. take 8 id ∷ [] };

    ghost respects_eq = { Prim.search (hashing, rules) };

    // The bytes of a digest are evenly distributed already: eight of them choose a bucket well.
    fn hash<H: Hasher>(&self, state: &mut H) {
        let (first, _) = self.bytes.split_at(8);
        state.write(first);
    }
}

impl Name {
    /// The name with these bytes.
    pub fn from_bytes(bytes: [u8; 20]) -> Name
        ensures { result ≡ bytes }
    {
        Name { bytes }
    }

    /// The 20 bytes of the name.
    pub fn as_bytes(&self) -> &[u8; 20]
        ensures { result.now ≡ self.now }
    {
        &self.bytes
    }

    /// The name as 40 lowercase hexadecimal digits. Takes no memory.
    pub fn to_hex(&self) -> [u8; 40]
        ensures { result ≡ encode_lower self.now }
    {
        let mut digits = [0; 40];
        let _ = hex::encode_to_slice(self.bytes, &mut digits);
        digits
    }

    /// Reads a name from exactly 40 hexadecimal digits of either case; `None` for every other text.
    /// Takes no memory.
    pub fn from_hex(digits: &[u8]) -> Option<Name>
        ensures { MatchOption result ((bytes : List ℕ) → decode_sized digits.now 20 ≢ Ok bytes)
            (λ id. decode_sized digits.now 20 ≡ Ok id) }
    {
        match <[u8; 20]>::from_hex(digits) {
            Ok(bytes) => Some(Name::from_bytes(bytes)),
            Err(_) => None,
        }
    }
}

/// States for proofs that a name has 20 bytes. A call does nothing.
pub fn has_twenty_bytes(id: &Name)
    ensures { IsObjectName id.now }
{
    let bytes: &[u8] = id.as_bytes();
    prove!(bytes.len() == 20);
    are_bytes(bytes);
}

fn are_bytes(bytes: &[u8])
    requires { length bytes.now ≡ 20 }
    ensures { IsObjectName bytes.now }
{}
