//! What the operator takes from a tenant's repository: the objects that its refs do not reach.
//!
//! After a force push the old commits are still there, and so is what a removed ref held.
//! Queries and exports go by the refs, but `cat` still reads these objects, and the pool still
//! holds their contents. A compaction takes them out of the tenant's table, and changes nothing
//! else of it.

ghost use Rattle.std.specs.Prelude.{◌≡◌, ◌≢◌, ℕ, List, [], false, None, IfOk, OnErr, OnOk};
ghost use Rattle.std.specs.Str.{bytes_eq};
ghost use Rattle.export_text.specs.Marking.{reached_flags};
ghost use Rattle.git_model.specs.Repository.{Repository};
ghost use Rattle.tenant_stream.specs.Carrying.{HasAmpleHoldsLeft};
ghost use Rattle.tenant_tables.specs.IsBackedBy.{IsBackedBy, PreservesOthers};
ghost use Rattle.tenant_service.specs.Compacting.{AnswersUnless, AreReached, Compacts, CompactsOne};
ghost use Rattle.tenant_service.specs.Compacting.{HasCompacted, IsCompacted, IsSpared, compacted};
ghost use Rattle.tenant_service.specs.{HeldObjects.{last_held}, OneStep.{store}};
ghost use Rattle.tenant_service.specs.Removing.{removal_refusal, with_stream};
ghost use Rattle.tenant_service.specs.{Soundness.{IsSoundTenantState}, TenantState.{Idle, held_of}};
ghost use Rattle.tenant_service.specs.Tenants.{Accounts, AreSound, Stands, holding_in, holdings};
ghost use Rattle.service_steps.specs.declared.answer.Answer.TheVariants as answer;

use crate::service::Service;
use crate::tenant::{Tenant, has_stream};
use crate::tenants::{has_room, name_of};
use content_pool::Pool;
use export_text::reached::reached;
use git_objects::{Memory, Naming};
use indexmap::IndexMap;
use service_steps::{Answer, ServiceFault};
use std::alloc::Global;
use std::mem;
use tenant_refs::TenantName;
use tenant_tables::{Objects, Sight, Table, copied_table};

// The places that have a flag, in their order.
fn flagged_places(alloc: Global, flags: &[bool]) -> Result<Vec<usize>, Memory>
    ensures { (repository : Repository) → flags.now ≡ reached_flags repository
        → IfOk result (λ places. AreReached repository places.items) }
{
    let mut places = Vec::new(alloc);
    for (place, is_reached) in flags.iter().enumerate() {
        if *is_reached {
            places.push(place)?;
        }
    }
    Ok(places)
}

// The places of what the refs of a tenant reach, among the objects of its last checkpoint.
fn reached_places<N: Naming>(
    alloc: Global,
    pool: &Pool<N>,
    tenant: &Tenant,
) -> Result<Vec<usize>, Memory>
    requires stands { Stands N.digest_of pool.now tenant.now }
    requires sound { IsSoundTenantState N.digest_of (holding_in pool.now tenant.now) }
    ensures { IfOk result
        (λ places. AreReached (last_held (holding_in pool.now tenant.now)) places.items) }
{
    let objects = Objects::of(pool, &tenant.table, Sight::Committed);
    let flags = reached(alloc, &objects, &tenant.refs)?;
    flagged_places(alloc, &flags)
}

// Puts a table in the place of another one, which is released. This is a function of its own so
// that the release has a proof of its own.
fn put_table<N: Naming>(pool: &mut Pool<N>, kept: &mut Table, table: Table)
    requires { IsBackedBy N.digest_of pool.old kept.old.entries }
    ensures table { kept.new ≡ table }
    ensures others { PreservesOthers pool.old kept.old.entries pool.new [] }
{
    mem::replace(kept, table).release(pool);
}

// Leaves a tenant, which has no stream, only the objects at these places. There is nothing to do if
// these are all. If memory runs out, the tenant is as it was.
fn leave_places<N: Naming>(
    alloc: Global,
    pool: &mut Pool<N>,
    tenant: &mut Tenant,
    places: &[usize],
) -> Result<(), Memory>
    requires stands { Stands N.digest_of pool.old tenant.old }
    requires room { HasAmpleHoldsLeft pool.old }
    requires sound { IsSoundTenantState N.digest_of (holding_in pool.old tenant.old) }
    requires idle { with_stream (holding_in pool.old tenant.old) ≡ None }
    requires places { AreReached (last_held (holding_in pool.old tenant.old)) places.now }
    ensures ok { OnOk result (HasCompacted N.digest_of pool.old tenant.old pool.new tenant.new) }
    ensures err { OnErr result (IsSpared pool.old tenant.old pool.new tenant.new) }
{
    if places.len() == tenant.table.len() {
        return Ok(());
    }
    let table = copied_table(alloc, pool, &mut tenant.table, places)?;
    put_table(pool, &mut tenant.table, table);
    tenant.chain.clear();
    Ok(())
}

// Leaves a tenant, which has no stream, only what its refs reach. If memory runs out, the tenant is
// as it was.
fn leave_reached<N: Naming>(
    alloc: Global,
    pool: &mut Pool<N>,
    tenant: &mut Tenant,
) -> Result<(), Memory>
    requires stands { Stands N.digest_of pool.old tenant.old }
    requires room { HasAmpleHoldsLeft pool.old }
    requires sound { IsSoundTenantState N.digest_of (holding_in pool.old tenant.old) }
    requires idle { with_stream (holding_in pool.old tenant.old) ≡ None }
    ensures ok { OnOk result (HasCompacted N.digest_of pool.old tenant.old pool.new tenant.new) }
    ensures err { OnErr result (IsSpared pool.old tenant.old pool.new tenant.new) }
{
    let places = reached_places(alloc, pool, tenant)?;
    leave_places(alloc, pool, tenant, &places)
}

// Compacts a tenant. 31 if it has a stream.
fn compact_one<N: Naming>(alloc: Global, pool: &mut Pool<N>, tenant: &mut Tenant) -> Answer
    requires stands { Stands N.digest_of pool.old tenant.old }
    requires room { HasAmpleHoldsLeft pool.old }
    requires sound { IsSoundTenantState N.digest_of (holding_in pool.old tenant.old) }
    ensures { CompactsOne N.digest_of pool.old tenant.old result pool.new tenant.new }
{
    if has_stream(tenant) {
        return ServiceFault::StreamIsOpen.answer();
    }
    match leave_reached(alloc, pool, tenant) {
        Ok(()) => Answer::Ok,
        Err(_) => Answer::Memory(0),
    }
}

// Compacts the tenant of this name. 32 if the name is bad, and 31 if it has a stream.
fn compact<N: Naming>(
    alloc: Global,
    pool: &mut Pool<N>,
    tenants: &mut IndexMap<TenantName, Tenant>,
    tenant: &[u8],
) -> Answer
    requires accounts { Accounts N.digest_of pool.old tenants.old.entries }
    requires sound { AreSound N.digest_of (holdings pool.old tenants.old.entries) }
    ensures { Compacts N.digest_of tenant.now (store pool.old tenants.old.entries) result
        (store pool.new tenants.new.entries) }
{
    let name = match name_of(tenant) {
        Ok(name) => name,
        Err(fault) => return fault.answer(),
    };
    has_room(pool, tenants);
    match tenants.get_mut(&name) {
        Some(tenant) => compact_one(alloc, pool, tenant),
        None => Answer::Ok,
    }
}

impl<N: Naming> Service<N> {
    /// Empties a tenant's repository of the objects that its refs do not reach, as
    /// `git gc --prune=now` does: what a force push or a ref that was removed has left. This is for
    /// the operator. The refs and HEAD stay as they are, and so do all objects that the refs reach,
    /// in their order, with their names and contents. The contents that went are freed, unless
    /// another tenant has them. Every other tenant has what it had. The work grows with the
    /// objects of the tenant and the bytes of those that are reached, and a little with the number
    /// of tenants.
    ///
    /// A tenant that was never seen has nothing to lose: the answer is `Answer::Ok`.
    ///
    /// `Answer::Fault`: 32 if the name is bad, and 31 if the tenant has a stream, even a dead one.
    /// `Answer::Memory(0)`: an allocation failed. After each of these everything is as it was.
    pub fn compact_tenant(&mut self, tenant: &[u8]) -> Answer
        ensures answer { AnswersUnless (removal_refusal tenant.now self.old) result }
        ensures own { result ≡ answer.Ok → held_of tenant.now self.new
            ≡ Idle (compacted (last_held (held_of tenant.now self.old))) }
        ensures whole { result ≡ answer.Ok → IsCompacted
            (last_held (held_of tenant.now self.old)) (last_held (held_of tenant.now self.new)) }
        ensures others { (other : List ℕ) → bytes_eq other tenant.now ≡ false
            → held_of other self.new ≡ held_of other self.old }
        ensures refused { result ≢ answer.Ok → self.new ≡ self.old }
    {
        compact(self.alloc, &mut self.pool, &mut self.tenants, tenant)
    }
}
