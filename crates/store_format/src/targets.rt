//! The refs of a tenant, and the object that each holds.

ghost use Rattle.std.specs.Prelude.{◌≡◌, IfOk, OnOk};
ghost use Rattle.std.specs.List.{fold};
ghost use Rattle.std.specs.FinMap as finite;
ghost use Rattle.store_format.specs.Saying.{changed};
ghost use Rattle.store_format.specs.Shown.{change_of, changes_of, lent_refs_of};

use crate::tenant_record::RefChange;
use git_names::Memory;
use std::alloc::Global;
use std::collections::BTreeMap;
use std::marker::Model;

/// Refs without the namespaces of their tenant, each with the position of its target among the
/// tenant's objects, from 0. The names are lent.
#[derive(Drop)]
pub struct Targets<'a> {
    places: BTreeMap<&'a [u8], u32>,
}

impl<'a> Model for Targets<'a> {
    ghost use Rattle.std.specs.Prelude.{ℕ, IsTrue};
    ghost use Rattle.std.specs.FinMap.{FinMap, code, from_sorted, is_sorted};
    ghost use Rattle.std.specs.{Ordering.{nat_cmp}, Cmp.Lexicographic.{slice_cmp}};
    ghost use Rattle.std.specs.Coded.{coded_list, coded_ℕ};
    ghost use Rattle.store_format.specs.Shown.{lent_refs_of};

    ghost Value = { FinMap (slice_cmp nat_cmp) ℕ };

    ghost coded = { code (coded_list coded_ℕ) coded_ℕ };

    ghost view = { λ t. from_sorted (lent_refs_of t.places.entries) };

    ghost invariant = { λ t.
        IsTrue (is_sorted (slice_cmp nat_cmp) (lent_refs_of t.places.entries)) };
}

impl<'a> Targets<'a> {
    /// No refs. Takes no memory.
    pub(crate) fn new(alloc: Global) -> Targets<'a>
        ensures { result ≡ finite.empty }
    {
        Targets {
            places: BTreeMap::new(alloc),
        }
    }

    // Sets or deletes a ref.
    fn change(&mut self, change: &'a RefChange) -> Result<(), Memory>
        ensures { OnOk result (self.new ≡ changed self.old (change_of change.now)) }
    {
        match change.target {
            None => {
                self.places.remove(change.name.as_slice());
            }
            Some(place) => {
                self.places.insert(change.name.as_slice(), place)?;
            }
        }
        Ok(())
    }

    /// Makes changes, one after the other. Some may be made if memory runs out.
    pub(crate) fn change_all(&mut self, changes: &'a [RefChange]) -> Result<(), Memory>
        ensures { OnOk result (self.new ≡ fold changed self.old (changes_of changes.now)) }
    {
        for change in changes {
            self.change(change)?;
        }
        Ok(())
    }

    /// Lists all refs with the positions of their targets, in the order of the bytes of their names.
    ///
    /// `Memory` (90) if there is no memory for the list.
    pub fn list(&self, alloc: Global) -> Result<Vec<(&'a [u8], u32)>, Memory>
        ensures { IfOk result (λ list. lent_refs_of list.items ≡ finite.entries self.now) }
    {
        let list = listed(alloc, &self.places)?;
        Ok(list)
    }
}

// The entries of a map in their order.
fn listed<'a>(
    alloc: Global,
    places: &BTreeMap<&'a [u8], u32>,
) -> Result<Vec<(&'a [u8], u32)>, Memory>
    ensures { IfOk result (λ list. lent_refs_of list.items ≡ lent_refs_of places.now.entries) }
{
    let mut list = Vec::new(alloc);
    for (name, place) in places {
        list.push((*name, *place))?;
    }
    Ok(list)
}
