//! Merges of two services: the tenants of another one come to this one, with all that they have.
//!
//! Each tenant gets a table in this pool of the objects that its table has in the other one. If one
//! of them cannot come, those that came before it are taken out again.

ghost use Rattle.std.specs.Prelude.{◌≡◌, ℕ, List, [], true, map, IfOk, OnOk, OnErr, None};
ghost use Rattle.std.specs.{List.{IsDistinct}, Str.{bytes_eq}};
ghost use Rattle.content_pool.specs.Pool.{Cells};
ghost use Rattle.pool_file.specs.Worth.{AllStand, named_in};
ghost use Rattle.tenant_refs.specs.TenantName.{is_tenant_name as names_tenant};
ghost use Rattle.tenant_stream.specs.Carrying.{HasAmpleHoldsLeft};
ghost use Rattle.tenant_tables.specs.IsBackedBy.{IsBackedBy, PreservesOthers};
ghost use Rattle.tenant_service.specs.{ByPlaces.{IsKept}, ComingIn.{names_lent}, OneStep.{store}};
ghost use Rattle.tenant_service.specs.ComingIn.{HasCome, IsReceived, held_with, held_without};
ghost use Rattle.tenant_service.specs.{Copying.{held_refusal}, Removing.{all_but}};
ghost use Rattle.tenant_service.specs.Merging.{Merges, first_refused, merge_refusal};
ghost use Rattle.tenant_service.specs.TenantState.{Idle, empty_repository, held_of};
ghost use Rattle.tenant_service.specs.Tenants.{Accounts, AreSound, holdings};

use crate::across::table_across;
use crate::by_places::put_tenant;
use crate::copying::refusal_of;
use crate::saving::lend_all;
use crate::service::Service;
use crate::tenant::{OpenStream, Tenant, release};
use crate::tenants::has_room;
use content_pool::Pool;
use git_objects::{Memory, Naming};
use indexmap::IndexMap;
use pool_file::{TenantView, tenants_to_save};
use revisions::FirstParentCache;
use service_steps::{Answer, ServiceFault};
use std::alloc::Global;
use tenant_refs::TenantName;

// Why the tenant of this name takes nothing.
fn refusal_under(tenants: &IndexMap<TenantName, Tenant>, name: &TenantName) -> Option<ServiceFault>
    ensures { (pool : Cells)
        → result ≡ held_refusal (held_of name.now (holdings pool tenants.now.entries)) }
{
    match tenants.get(name) {
        Some(tenant) => refusal_of(tenant),
        None => None,
    }
}

// Why the first of these tenants that takes nothing is refused.
fn first_refusal(
    tenants: &IndexMap<TenantName, Tenant>,
    lent: &[TenantView<'_>],
) -> Option<ServiceFault>
    ensures { (pool : Cells)
        → result ≡ first_refused (names_lent lent.now) (holdings pool tenants.now.entries) }
{
    for one in lent {
        let refusal = refusal_under(tenants, one.name);
        if refusal.is_some() {
            return refusal;
        }
    }
    None
}

// A tenant that has what is lent of another one, whose table stands in another pool.
fn received<N: Naming>(
    alloc: Global,
    pool: &mut Pool<N>,
    from: &Pool<N>,
    lent: &TenantView<'_>,
) -> Result<Tenant, Memory>
    requires stands { IsBackedBy N.digest_of from.now lent.now.table.now.entries }
    requires room { HasAmpleHoldsLeft pool.old }
    ensures ok { IfOk result (λ tenant. IsReceived N.digest_of pool.old
        (named_in from.now lent.now).repository pool.new tenant) }
    ensures err { OnErr result (PreservesOthers pool.old [] pool.new []) }
{
    let refs = lent.refs.copy()?;
    let count = lent.object_count();
    let table = table_across(alloc, from, lent.table, count, pool)?;
    let chain = FirstParentCache::new(alloc);
    Ok(Tenant {
        table,
        refs,
        phase: OpenStream::Closed,
        chain,
    })
}

// The same name once more. Takes no memory.
fn copied_name(name: &TenantName) -> TenantName
    ensures same { result ≡ name.now }
    ensures named { names_tenant name.now ≡ true }
{
    TenantName::read(name.as_bytes()).unwrap()
}

// Gives a tenant, which has nothing, what is lent of it by another service. `Memory` (90) if there
// is no room for it; then every tenant has what it had.
fn take_in<N: Naming>(
    alloc: Global,
    pool: &mut Pool<N>,
    tenants: &mut IndexMap<TenantName, Tenant>,
    from: &Pool<N>,
    lent: &TenantView<'_>,
) -> Result<(), Memory>
    requires accounts { Accounts N.digest_of pool.old tenants.old.entries }
    requires stands { IsBackedBy N.digest_of from.now lent.now.table.now.entries }
    requires nothing { held_of lent.now.name.now (holdings pool.old tenants.old.entries)
        ≡ Idle empty_repository }
    ensures ok { OnOk result (HasCome N.digest_of (named_in from.now lent.now)
        (store pool.old tenants.old.entries) (store pool.new tenants.new.entries)) }
    ensures err { OnErr result (IsKept N.digest_of
        (store pool.old tenants.old.entries) (store pool.new tenants.new.entries)) }
{
    has_room(pool, tenants);
    tenants.reserve(1)?;
    let tenant = received(alloc, pool, from, lent)?;
    put_tenant(tenants, copied_name(lent.name), tenant);
    Ok(())
}

// Takes the tenant of this name out of the tenants, and releases its contents. Takes no memory.
fn take_out<N: Naming>(
    pool: &mut Pool<N>,
    tenants: &mut IndexMap<TenantName, Tenant>,
    name: &TenantName,
)
    requires { Accounts N.digest_of pool.old tenants.old.entries }
    ensures accounts { Accounts N.digest_of pool.new tenants.new.entries }
    ensures left { holdings pool.new tenants.new.entries
        ≡ all_but name.now (holdings pool.old tenants.old.entries) }
{
    if let Some(removed) = tenants.shift_remove(name) {
        release(pool, removed);
    }
}

// Takes these tenants out again. Takes no memory.
fn take_all_out<N: Naming>(
    pool: &mut Pool<N>,
    tenants: &mut IndexMap<TenantName, Tenant>,
    lent: &[TenantView<'_>],
)
    requires { Accounts N.digest_of pool.old tenants.old.entries }
    ensures accounts { Accounts N.digest_of pool.new tenants.new.entries }
    ensures held { (tenant : List ℕ) → held_of tenant (holdings pool.new tenants.new.entries)
        ≡ held_without tenant (names_lent lent.now) (holdings pool.old tenants.old.entries) }
{
    for one in lent {
        take_out(pool, tenants, one.name);
    }
}

// Gives each of these tenants, which have nothing, what is lent of it by another service. `Memory`
// (90) if there is no room for one of them; then every tenant has what it had.
fn take_all_in<N: Naming>(
    alloc: Global,
    pool: &mut Pool<N>,
    tenants: &mut IndexMap<TenantName, Tenant>,
    from: &Pool<N>,
    lent: &[TenantView<'_>],
) -> Result<(), Memory>
    requires accounts { Accounts N.digest_of pool.old tenants.old.entries }
    requires stand { AllStand N.digest_of from.now lent.now }
    requires distinct { IsDistinct bytes_eq (names_lent lent.now) }
    requires free { first_refused (names_lent lent.now) (holdings pool.old tenants.old.entries)
        ≡ None }
    ensures accounts { Accounts N.digest_of pool.new tenants.new.entries }
    ensures ok { OnOk result ((tenant : List ℕ)
        → held_of tenant (holdings pool.new tenants.new.entries)
        ≡ held_with tenant (map (named_in from.now) lent.now)
        (holdings pool.old tenants.old.entries)) }
    ensures err { OnErr result ((tenant : List ℕ)
        → held_of tenant (holdings pool.new tenants.new.entries)
        ≡ held_of tenant (holdings pool.old tenants.old.entries)) }
{
    for place in 0..lent.len() {
        if let Err(memory) = take_in(alloc, pool, tenants, from, &lent[place]) {
            take_all_out(pool, tenants, &lent[..place]);
            return Err(memory);
        }
    }
    Ok(())
}

// The tenants of another service that come, in rising order of their names, and the answer of the
// merge. `Memory` (90) if there is no room for the list, or for one of them.
fn merge_tenants<N: Naming>(
    alloc: Global,
    pool: &mut Pool<N>,
    tenants: &mut IndexMap<TenantName, Tenant>,
    from: &Pool<N>,
    others: &IndexMap<TenantName, Tenant>,
) -> Result<Answer, Memory>
    requires accounts { Accounts N.digest_of pool.old tenants.old.entries }
    requires others { Accounts N.digest_of from.now others.now.entries }
    requires sound { AreSound N.digest_of (holdings from.now others.now.entries) }
    ensures accounts { Accounts N.digest_of pool.new tenants.new.entries }
    ensures ok { let there = holdings from.now others.now.entries in
        let before = holdings pool.old tenants.old.entries in
        IfOk result (λ answer. Merges (merge_refusal there before) there before answer
        (holdings pool.new tenants.new.entries)) }
    ensures err { OnErr result ((tenant : List ℕ)
        → held_of tenant (holdings pool.new tenants.new.entries)
        ≡ held_of tenant (holdings pool.old tenants.old.entries)) }
{
    let _distinct = others.len();
    let all = lend_all(alloc, others)?;
    let lent = tenants_to_save(alloc, &all)?;
    if let Some(refusal) = first_refusal(tenants, &lent) {
        return Ok(refusal.answer());
    }
    take_all_in(alloc, pool, tenants, from, &lent)?;
    Ok(Answer::Ok)
}

impl<N: Naming> Service<N> {
    /// Brings the tenants of another service to this one: those that have an object, a ref, or
    /// another HEAD than the first, each as it is at its last checkpoint, with its objects in their
    /// order. This is for the operator. Every other tenant has what it had. A content that a tenant
    /// here has too is stored once. The other service is as it was.
    ///
    /// `Answer::Fault` if one of them has a stream here, even a dead one (31), or has an object, a
    /// ref, or another HEAD than the first here (33). The first of those, in rising order of their
    /// names, decides. Then everything is as it was. `Answer::Memory(0)`: an allocation failed, and
    /// every tenant has what it had.
    pub fn merge(&mut self, other: &Service<N>) -> Answer
        ensures { Merges (merge_refusal other.now self.old) other.now self.old result self.new }
    {
        match merge_tenants(
            self.alloc,
            &mut self.pool,
            &mut self.tenants,
            &other.pool,
            &other.tenants,
        ) {
            Ok(answer) => answer,
            Err(_) => Answer::Memory(0),
        }
    }
}
