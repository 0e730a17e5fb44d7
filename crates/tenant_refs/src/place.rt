//! The position of a ref among refs in the order of their bytes, or where it would go.

ghost use Rattle.std.specs.{Prelude.{◌≡◌, IfOk, IfErr}, Ordering.{nat_cmp}};
ghost use Rattle.std.specs.Cmp.Lexicographic.{slice_cmp};
ghost use Rattle.tenant_refs.specs.Place.{IsInOrder, IsPlaceOf, IsGapFor};

use git_names::{Name, RefName};
use std::cmp::Ordering;

/// `Ok` with the position of the ref among these, or `Err` with the one at which it would be put.
pub fn place_of(entries: &[(RefName, Name)], ref_name: &[u8]) -> Result<usize, usize>
    requires { IsInOrder entries.now }
    ensures found { IfOk result (IsPlaceOf entries.now ref_name.now) }
    ensures absent { IfErr result (IsGapFor entries.now ref_name.now) }
{
    entries.binary_search_by(|entry| order_of(entry, ref_name))
}

// How an entry's ref compares with this one.
fn order_of(entry: &(RefName, Name), ref_name: &[u8]) -> Ordering
    ensures { result ≡ slice_cmp nat_cmp entry.now.0 ref_name.now }
{
    entry.0.as_bytes().cmp(ref_name)
}
