//! The refs of a tenant, from those of a file and the objects of its table.

ghost use Rattle.std.specs.Prelude.{◌≡◌, List, length, map, All, IfOk, OnOk};
ghost use Rattle.content_pool.specs.Pool.{Cells};
ghost use Rattle.git_model.specs.{GoodRepository.{IsShortRefName}, RefStore.{with_ref, with_head}};
ghost use Rattle.tenant_refs.specs.FullName.{namespaces as namespaces_of};
ghost use Rattle.tenant_tables.specs.{View.{names}, Objects.{objects}};
ghost use Rattle.pool_file_format.specs.{Format.{RawObject}, Shown.{ref_of, refs_of, tenant_of}};
ghost use Rattle.pool_file_checks.specs.{Checks.{Passes}, FileRefs.{ref_checks}, Saved.{refs_at}};
ghost use Rattle.pool_file.specs.Refs.{IsRefIn, entry_in, with_refs};

use git_names::{Memory, RefName, RefNameFault};
use pool_file_format::{RawRef, RawTenant};
use std::alloc::Global;
use tenant_refs::{Refs, namespaces};
use tenant_tables::Table;

fn read_ref_name(alloc: Global, text: &[u8]) -> Result<RefName, Memory>
    requires { IsShortRefName text.now }
    ensures { IfOk result (λ ref_name. ref_name ≡ text.now) }
{
    match RefName::read(alloc, text) {
        Err(RefNameFault::Memory) => Err(Memory),
        answer => Ok(answer.unwrap()),
    }
}

// Sets a ref, without the prefix `front` of its name, to the object at its place.
fn set_ref(
    alloc: Global,
    table: &Table,
    front: &[u8],
    refs: &mut Refs,
    one: &RawRef,
) -> Result<(), Memory>
    requires { IsRefIn front.now (length table.now.entries) (ref_of one.now) }
    ensures { OnOk result (let e = entry_in front.now (names table.now.entries) (ref_of one.now) in
        refs.new ≡ with_ref refs.old e.0 e.1) }
{
    let full = one.name.as_slice();
    let ref_name = read_ref_name(alloc, &full[front.len()..])?;
    let (target, _) = table.at(one.place as usize).unwrap();
    refs.set(&ref_name, target)
}

fn set_refs(
    alloc: Global,
    table: &Table,
    front: &[u8],
    refs: &mut Refs,
    all: &[RawRef],
) -> Result<(), Memory>
    requires { All (IsRefIn front.now (length table.now.entries)) (refs_of all.now) }
    ensures { OnOk result (refs.new ≡ with_refs refs.old
        (map (entry_in front.now (names table.now.entries)) (refs_of all.now))) }
{
    for one in all {
        set_ref(alloc, table, front, refs, one)?;
    }
    Ok(())
}

// Sets all refs of a tenant, and then HEAD.
fn fill_refs(
    alloc: Global,
    table: &Table,
    tenant: &RawTenant,
    refs: &mut Refs,
) -> Result<(), Memory>
    requires checked { (os : List RawObject) × Passes (ref_checks os (tenant_of tenant.now)) }
    requires counted { length table.now.entries ≡ length tenant.now.numbers.items }
    ensures { OnOk result (let t = tenant_of tenant.now in
        refs.new ≡ with_head (with_refs refs.old
        (map (entry_in (namespaces_of t.name) (names table.now.entries)) t.refs)) t.head) }
{
    let front = namespaces(alloc, &tenant.name)?;
    set_refs(alloc, table, &front, refs, &tenant.refs)?;
    let head = read_ref_name(alloc, &tenant.head)?;
    refs.set_head(head);
    Ok(())
}

/// The refs of a tenant of a file. The table has the tenant's objects, in the order of the file.
/// Names lose the namespaces of the tenant, and places become the names of the objects there.
///
/// The refs are those of a file that passed its checks. `Memory` (90) if there is no memory for
/// them.
pub fn load_refs(alloc: Global, table: &Table, tenant: &RawTenant) -> Result<Refs, Memory>
    requires checked { (os : List RawObject) × Passes (ref_checks os (tenant_of tenant.now)) }
    requires counted { length table.now.entries ≡ length tenant.now.numbers.items }
    ensures { (pool : Cells) → IfOk result (λ refs. let t = tenant_of tenant.now in
        refs ≡ refs_at t.name (objects pool table.now.entries) t.refs t.head) }
{
    let mut refs = Refs::new(alloc);
    fill_refs(alloc, table, tenant, &mut refs)?;
    Ok(refs)
}
