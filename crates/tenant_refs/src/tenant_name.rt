//! Names of tenants: namespaces in gitnamespaces(7).
//!
//! A name of several parts is a tenant of its own: the tenants `a` and `a/b` share nothing.

ghost use Rattle.std.specs.Prelude.{◌≡◌, ◌≤◌, ◌↔◌, ◌&&◌, IfOk, IsTrue, Err, is_ok, length};
ghost use Rattle.std.specs.{List.{list_all}, Cmp.Rules.{comparing, hashing}};
ghost use Rattle.git_model.specs.Limits.{tenant_name_limit};
ghost use Rattle.tenant_refs.specs.TenantName.{IsTenantName, is_tenant_name, parts_of, is_part};
ghost use Rattle.tenant_refs.specs.TenantName.{is_part_byte};
ghost use Rattle.tenant_refs.specs.declared.tenant_name_fault.TenantNameFault.TheVariants.{BadTenantName};
ghost use Rattle.std.proofs.Common.{rules};

use crate::tenant_name_fault::TenantNameFault;
use std::cmp::Ordering;
use std::hash::{Hash, Hasher};
use std::marker::Model;

/// The longest tenant name, in bytes.
pub const TENANT_NAME_LIMIT: usize = 64;

/// Whether a text is a tenant name: at most 64 bytes, in one or more parts with `/` between them. A
/// part has ASCII letters, digits, `-` and `_`, is not empty, and does not begin with `-`. Takes no
/// memory.
#[tactic(auto, unfolding(crate::specs::TenantName::is_tenant_name))]
pub fn is_tenant_name(text: &[u8]) -> bool
    ensures value { result ≡ is_tenant_name text.now }
    ensures rules { IsTrue result ↔ IsTenantName text.now }
{
    text.len() <= TENANT_NAME_LIMIT && are_parts(text)
}

// Whether each text between slashes is a part of a tenant name.
fn are_parts(text: &[u8]) -> bool
    ensures { result ≡ list_all is_part (parts_of text.now) }
{
    text.split(|byte| *byte == b'/').all(is_part)
}

// Whether the text between two slashes is a part of a tenant name.
fn is_part(part: &[u8]) -> bool
    ensures { result ≡ is_part part.now }
{
    !part.is_empty() && !part.starts_with(b"-") && are_part_bytes(part)
}

// Whether each byte is allowed in a part.
fn are_part_bytes(part: &[u8]) -> bool
    ensures { result ≡ list_all is_part_byte part.now }
{
    part.iter().all(|byte| is_part_byte(*byte))
}

fn is_part_byte(byte: u8) -> bool
    ensures { result ≡ is_part_byte byte }
{
    byte.is_ascii_alphanumeric() || byte == b'-' || byte == b'_'
}

/// A tenant name. Names compare and hash as their bytes. The bytes are stored inline, so reading a
/// name and looking it up takes no memory.
#[derive(Drop)]
pub struct TenantName {
    bytes: [u8; TENANT_NAME_LIMIT],
    size: usize,
}

impl Model for TenantName {
    ghost use Rattle.std.specs.Prelude.{ℕ, ◌≤◌, List, IsTrue, take};
    ghost use Rattle.tenant_refs.specs.TenantName.{is_tenant_name};
    ghost use Rattle.git_model.specs.Limits.{tenant_name_limit};

    ghost Value = { List ℕ };

    ghost view = { λ name. take name.size name.bytes };

    ghost invariant = { λ name. (name.size ≤ tenant_name_limit)
        × IsTrue (is_tenant_name (take name.size name.bytes)) };
}

impl TenantName {
    /// Reads a tenant name. Takes no memory.
    ///
    /// `TenantNameFault::BadTenantName` (32) if `is_tenant_name` answers `false`.
    pub fn read(text: &[u8]) -> Result<TenantName, TenantNameFault>
        ensures name { IfOk result (λ name. name ≡ text.now) }
        ensures well_formed { IfOk result (λ name. IsTenantName name) }
        ensures bad { (result ≡ Err BadTenantName) ↔ (¬ IsTenantName text.now) }
        ensures value { is_ok result ≡ is_tenant_name text.now }
    {
        if is_tenant_name(text) {
            Ok(TenantName::of(text))
        } else {
            Err(TenantNameFault::BadTenantName)
        }
    }

    // The tenant name with this text.
    fn of(text: &[u8]) -> TenantName
        requires named { IsTrue (is_tenant_name text.now) }
        requires short { length text.now ≤ tenant_name_limit }
        ensures { result ≡ text.now }
    {
        let mut bytes = [0; TENANT_NAME_LIMIT];
        bytes[..text.len()].copy_from_slice(text);
        TenantName {
            bytes,
            size: text.len(),
        }
    }

    /// The bytes of the name, at most 64.
    pub fn as_bytes(&self) -> &[u8]
        ensures text { result.now ≡ self.now }
        ensures well_formed { IsTenantName self.now }
    {
        &self.bytes[..self.size]
    }
}

impl PartialEq for TenantName {
    ghost use Rattle.std.specs.Str.{bytes_eq};

    ghost eq = { bytes_eq };

    ghost laws = { Prim.search (comparing, rules) };

    fn eq(&self, other: &TenantName) -> bool {
        self.as_bytes() == other.as_bytes()
    }
}

impl Eq for TenantName {
    ghost laws = { Prim.search (comparing, rules) };
}

impl PartialOrd for TenantName {
    ghost use Rattle.std.specs.{Prelude.{Some}, Ordering.{nat_cmp}};
    ghost use Rattle.std.specs.Cmp.Lexicographic.{slice_cmp, texts_po};

    ghost partial_cmp = { λ a b. Some (slice_cmp nat_cmp a b) };

    ghost laws = { texts_po };

    fn partial_cmp(&self, other: &TenantName) -> Option<Ordering> {
        Some(self.cmp(other))
    }
}

impl Ord for TenantName {
    ghost use Rattle.std.specs.{Prelude.{refl}, Ordering.{nat_cmp}};
    ghost use Rattle.std.specs.Cmp.Lexicographic.{slice_cmp, nat_list_cmp_total, texts_ties};

    ghost cmp = { slice_cmp nat_cmp };

    ghost total = { nat_list_cmp_total };

    ghost matches_partial_cmp = { λ _ _. refl };

    ghost matches_eq = { texts_ties };

    fn cmp(&self, other: &TenantName) -> Ordering {
        self.as_bytes().cmp(other.as_bytes())
    }
}

impl Hash for TenantName {
    ghost use Rattle.std.specs.Hash as fed;

    ghost hash_input = { λ text. fed.slice fed.u8 text };

    ghost respects_eq = { Prim.search (hashing, rules) };

    fn hash<H: Hasher>(&self, state: &mut H) {
        self.as_bytes().hash(state);
    }
}
