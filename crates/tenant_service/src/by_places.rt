//! Copies of a tenant's repository by the places of its objects: no export is printed or read.
//!
//! The other tenant gets a table of the objects that an import of the export would store, in the
//! same order, and copies of the refs and HEAD.

ghost use Rattle.std.specs.Prelude.{◌≡◌, ◌<◌, [], None, true, IfOk, IfSome, OnErr};
ghost use Rattle.std.specs.Str.{bytes_eq};
ghost use Rattle.repository_copies.specs.Copied.{AreCopied};
ghost use Rattle.indexmap.specs.IndexMap.{insert_entry, spare};
ghost use Rattle.tenant_refs.specs.TenantName.{is_tenant_name as names_tenant};
ghost use Rattle.tenant_stream.specs.Carrying.{HasAmpleHoldsLeft};
ghost use Rattle.tenant_tables.specs.IsBackedBy.{PreservesOthers};
ghost use Rattle.tenant_service.specs.ByPlaces.{CopiesOrNot, IsCopy, MayBeCopy, Tells};
ghost use Rattle.tenant_service.specs.{Copying.{copy_refusal}, HeldObjects.{last_held}};
ghost use Rattle.tenant_service.specs.{OneStep.{store}, Soundness.{IsSoundTenantState}};
ghost use Rattle.tenant_service.specs.TenantState.{Idle, empty_repository, held_of};
ghost use Rattle.tenant_service.specs.Tenants.{Accounts, AreSound, Stands, holding_in, holdings};

use crate::tenant::{OpenStream, Tenant};
use crate::tenants::{has_room, name_of};
use content_pool::Pool;
use git_objects::{Memory, Naming};
use indexmap::IndexMap;
use repository_copies::copied_places;
use revisions::FirstParentCache;
use service_steps::Answer;
use std::alloc::Global;
use tenant_refs::TenantName;
use tenant_tables::{Objects, Sight, copied_table};

// The places of the objects of a copy, among those of the last checkpoint. `None` if no export
// carries the repository.
fn places_of<N: Naming>(
    alloc: Global,
    pool: &Pool<N>,
    source: &Tenant,
) -> Result<Option<Vec<usize>>, Memory>
    requires stands { Stands N.digest_of pool.now source.now }
    requires sound { IsSoundTenantState N.digest_of (holding_in pool.now source.now) }
    ensures { IfOk result (λ found. IfSome found (λ places.
        AreCopied (last_held (holding_in pool.now source.now)) places.items)) }
{
    let objects = Objects::of(pool, &source.table, Sight::Committed);
    copied_places(alloc, &objects, &source.refs)
}

// A tenant that has a copy, whose objects have these places.
fn tenant_at<N: Naming>(
    alloc: Global,
    pool: &mut Pool<N>,
    source: &mut Tenant,
    places: &[usize],
) -> Result<Tenant, Memory>
    requires stands { Stands N.digest_of pool.old source.old }
    requires room { HasAmpleHoldsLeft pool.old }
    requires sound { IsSoundTenantState N.digest_of (holding_in pool.old source.old) }
    requires places { AreCopied (last_held (holding_in pool.old source.old)) places.now }
    ensures same { source.new ≡ source.old }
    ensures ok { IfOk result (λ copy.
        IsCopy N.digest_of pool.old (last_held (holding_in pool.old source.old)) pool.new copy) }
    ensures err { OnErr result (PreservesOthers pool.old [] pool.new []) }
{
    let refs = source.refs.copy()?;
    let table = copied_table(alloc, pool, &mut source.table, places)?;
    let chain = FirstParentCache::new(alloc);
    Ok(Tenant {
        table,
        refs,
        phase: OpenStream::Closed,
        chain,
    })
}

// A tenant that has a copy. `None` if no export carries the repository.
fn copy_of<N: Naming>(
    alloc: Global,
    pool: &mut Pool<N>,
    source: &mut Tenant,
) -> Result<Option<Tenant>, Memory>
    requires stands { Stands N.digest_of pool.old source.old }
    requires room { HasAmpleHoldsLeft pool.old }
    requires sound { IsSoundTenantState N.digest_of (holding_in pool.old source.old) }
    ensures same { source.new ≡ source.old }
    ensures ok { IfOk result
        (MayBeCopy N.digest_of pool.old (last_held (holding_in pool.old source.old)) pool.new) }
    ensures err { OnErr result (PreservesOthers pool.old [] pool.new []) }
{
    let Some(places) = places_of(alloc, pool, source)? else {
        return Ok(None);
    };
    let copy = tenant_at(alloc, pool, source, &places)?;
    Ok(Some(copy))
}

// A tenant that has a copy of the tenant of this name. `None` if no export carries the repository,
// or if no tenant of this name was seen.
fn copy_of_named<N: Naming>(
    alloc: Global,
    pool: &mut Pool<N>,
    tenants: &mut IndexMap<TenantName, Tenant>,
    from: &TenantName,
) -> Result<Option<Tenant>, Memory>
    requires accounts { Accounts N.digest_of pool.old tenants.old.entries }
    requires room { HasAmpleHoldsLeft pool.old }
    requires sound { AreSound N.digest_of (holdings pool.old tenants.old.entries) }
    ensures entries { tenants.new.entries ≡ tenants.old.entries }
    ensures spare { spare tenants.new ≡ spare tenants.old }
    ensures ok { IfOk result (MayBeCopy N.digest_of pool.old
        (last_held (held_of from.now (holdings pool.old tenants.old.entries))) pool.new) }
    ensures err { OnErr result (PreservesOthers pool.old [] pool.new []) }
{
    match tenants.get_mut(from) {
        Some(source) => copy_of(alloc, pool, source),
        None => Ok(None),
    }
}

/// Puts a tenant under a name, for which there is room. A tenant that was there is dropped.
pub fn put_tenant(tenants: &mut IndexMap<TenantName, Tenant>, name: TenantName, tenant: Tenant)
    requires { 0 < spare tenants.old }
    ensures { tenants.new.entries ≡ insert_entry bytes_eq tenants.old.entries name tenant }
{
    drop(tenants.insert(name, tenant).unwrap());
}

// Copies one tenant to another, which has nothing. Everything that may fail comes before the other
// tenant has the copy. `false` if it has to be copied by its export; then nothing has changed.
fn copy_named<N: Naming>(
    alloc: Global,
    pool: &mut Pool<N>,
    tenants: &mut IndexMap<TenantName, Tenant>,
    from: &TenantName,
    to: TenantName,
) -> Result<bool, Memory>
    requires accounts { Accounts N.digest_of pool.old tenants.old.entries }
    requires sound { AreSound N.digest_of (holdings pool.old tenants.old.entries) }
    requires named { names_tenant to ≡ true }
    requires nothing { held_of to (holdings pool.old tenants.old.entries) ≡ Idle empty_repository }
    ensures { CopiesOrNot N.digest_of from.now to (store pool.old tenants.old.entries) result
        (store pool.new tenants.new.entries) }
{
    has_room(pool, tenants);
    tenants.reserve(1)?;
    let Some(copy) = copy_of_named(alloc, pool, tenants, from)? else {
        return Ok(false);
    };
    put_tenant(tenants, to, copy);
    Ok(true)
}

/// Copies the repository of `from`, as it is at its last checkpoint, to `to`, by the places of its
/// objects. `Answer::Ok` if `to` has the copy, and `Answer::Memory(0)` if memory ran out. `None` if
/// it has to be copied by its export. If the answer is not Ok, every tenant has what it had.
pub fn copy_by_places<N: Naming>(
    alloc: Global,
    pool: &mut Pool<N>,
    tenants: &mut IndexMap<TenantName, Tenant>,
    from: &[u8],
    to: &[u8],
) -> Option<Answer>
    requires accounts { Accounts N.digest_of pool.old tenants.old.entries }
    requires sound { AreSound N.digest_of (holdings pool.old tenants.old.entries) }
    requires free { copy_refusal from.now to.now (holdings pool.old tenants.old.entries) ≡ None }
    ensures { Tells N.digest_of from.now to.now (store pool.old tenants.old.entries) result
        (store pool.new tenants.new.entries) }
{
    let Ok(source) = name_of(from) else {
        return None;
    };
    let Ok(target) = name_of(to) else {
        return None;
    };
    match copy_named(alloc, pool, tenants, &source, target) {
        Ok(true) => Some(Answer::Ok),
        Ok(false) => None,
        Err(_) => Some(Answer::Memory(0)),
    }
}
