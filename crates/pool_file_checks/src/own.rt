//! The objects of one tenant, under their names.

ghost use Rattle.std.specs.{Prelude.{◌≡◌, ◌<◌, [], length, All, slice_index_or}, Bool.{OnTrue}};
ghost use Rattle.pool_file_checks.specs.{Own.{rows_of}, Indexing.{AddsRow, Indexes, IsIndexed}};
ghost use Rattle.pool_file_format.specs.Taking.{shown};

use git_names::Name;
use indexmap::IndexMap;
use pool_file_format::{Fault, Refusal};
use std::alloc::Global;

// Adds the number of an object under its name, unless another object has it.
fn add_number(index: &mut IndexMap<Name, usize>, id: Name, number: usize) -> Result<(), Fault>
    ensures { AddsRow index.old.entries id number result index.new.entries }
{
    if index.insert(id, number)?.is_some() {
        return Err(Fault::Refused(Refusal::NotCanonical));
    }
    Ok(())
}

// Adds the object with this number under its name.
fn add_object(index: &mut IndexMap<Name, usize>, names: &[Name], number: u64) -> Result<(), Fault>
    ensures { number < length names.now
        → AddsRow index.old.entries (slice_index_or names.now number [])
        number result index.new.entries }
{
    let number = number as usize;
    match names.get(number) {
        Some(id) => add_number(index, *id, number),
        None => Err(Fault::Refused(Refusal::NotCanonical)),
    }
}

/// Adds the numbers of a tenant's other objects to an index of its first ones.
///
/// `Refused` with `NotCanonical` (64) if two of the objects have one name, whatever their contents.
/// `Memory` (90) if there is no memory for the index. Some objects may then have been added.
pub fn index_rest(
    index: &mut IndexMap<Name, usize>,
    names: &[Name],
    numbers: &[u64],
) -> Result<(), Fault>
    ensures { IsIndexed names.now numbers.now index.old.entries
        → All (λ n. n < length names.now) numbers.now
        → Indexes (rows_of names.now numbers.now) (shown (λ _. index.new.entries) result) }
{
    for place in index.len()..numbers.len() {
        add_object(index, names, numbers[place])?;
    }
    Ok(())
}

/// Whether these are the same numbers.
pub fn are_same(numbers: &[u64], others: &[u64]) -> bool
    ensures { OnTrue result (numbers.now ≡ others.now) }
{
    numbers == others
}

/// An index of a tenant's objects: their numbers under their names, in the tenant's order. `names`
/// are the names of all objects of the file, and `numbers` those of the tenant's objects.
///
/// `Refused` with `NotCanonical` (64) if two of the objects have one name, whatever their contents.
/// `Memory` (90) if there is no memory for the index.
pub fn index_objects(
    alloc: Global,
    names: &[Name],
    numbers: &[u64],
) -> Result<IndexMap<Name, usize>, Fault>
    ensures { All (λ n. n < length names.now) numbers.now
        → Indexes (rows_of names.now numbers.now) (shown (λ index. index.entries) result) }
{
    let most = numbers.len().min(names.len());
    let mut index = IndexMap::with_capacity(alloc, most)?;
    index_rest(&mut index, names, numbers)?;
    Ok(index)
}
