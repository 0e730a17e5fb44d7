//! What the operator takes from a tenant: its stream, or all that is held of it.

ghost use Rattle.std.specs.{Prelude.{◌≡◌, ℕ, List, false, None, IsSome, is_some}, Str.{bytes_eq}};
ghost use Rattle.content_pool.specs.Pool.{Cells};
ghost use Rattle.tenant_service.specs.TenantState.{Idle, empty_repository, held_of};
ghost use Rattle.tenant_service.specs.{HeldObjects.{last_held}, Tenants.{Accounts, holdings}};
ghost use Rattle.tenant_service.specs.OneStep.{store};
ghost use Rattle.tenant_service.specs.Removing.{Abandons, Removes, abandon_refusal, all_but};
ghost use Rattle.tenant_service.specs.Removing.{answer_unless, removal_refusal, with_stream};

use crate::service::Service;
use crate::tenant::{Tenant, abandon, has_stream, release};
use crate::tenants::name_of;
use content_pool::Pool;
use git_objects::Naming;
use indexmap::IndexMap;
use service_steps::{Answer, ServiceFault};
use tenant_refs::TenantName;

// Gives up the stream of the tenant of this name. 32 if the name is bad, and 30 if there is no
// stream.
fn abandon_stream<N: Naming>(
    pool: &mut Pool<N>,
    tenants: &mut IndexMap<TenantName, Tenant>,
    tenant: &[u8],
) -> Answer
    requires { Accounts N.digest_of pool.old tenants.old.entries }
    ensures { Abandons N.digest_of tenant.now (store pool.old tenants.old.entries) result
        (store pool.new tenants.new.entries) }
{
    let name = match name_of(tenant) {
        Ok(name) => name,
        Err(fault) => return fault.answer(),
    };
    match tenants.get_mut(&name) {
        Some(tenant) => abandon(pool, tenant),
        None => ServiceFault::NoStream.answer(),
    }
}

/// Whether the tenant of this name has a stream, running or dead.
pub fn is_streaming(tenants: &IndexMap<TenantName, Tenant>, name: &TenantName) -> bool
    ensures { (pool : Cells)
        → result ≡ is_some (with_stream (held_of name.now (holdings pool tenants.now.entries))) }
{
    match tenants.get(name) {
        Some(tenant) => has_stream(tenant),
        None => false,
    }
}

// Takes the tenant of this name out of the tenants, and releases its contents. 32 if the name is
// bad, and 31 if it has a stream.
fn remove<N: Naming>(
    pool: &mut Pool<N>,
    tenants: &mut IndexMap<TenantName, Tenant>,
    tenant: &[u8],
) -> Answer
    requires { Accounts N.digest_of pool.old tenants.old.entries }
    ensures { Removes N.digest_of tenant.now (store pool.old tenants.old.entries) result
        (store pool.new tenants.new.entries) }
{
    let name = match name_of(tenant) {
        Ok(name) => name,
        Err(fault) => return fault.answer(),
    };
    if is_streaming(tenants, &name) {
        return ServiceFault::StreamIsOpen.answer();
    }
    if let Some(removed) = tenants.shift_remove(&name) {
        release(pool, removed);
    }
    Answer::Ok
}

impl<N: Naming> Service<N> {
    /// Gives up the stream of a tenant, running or dead. This is for the operator. What is left is
    /// what the End of a refused stream leaves: the last checkpoint, and no stream. Every other
    /// tenant has what it had. Takes no memory.
    ///
    /// `Answer::Fault`: 32 if the name is bad, and 30 if the tenant has no stream. Then everything
    /// is as it was.
    pub fn abandon(&mut self, tenant: &[u8]) -> Answer
        ensures answer { result ≡ answer_unless (abandon_refusal tenant.now self.old) }
        ensures own { held_of tenant.now self.new ≡ Idle (last_held (held_of tenant.now self.old)) }
        ensures others { (other : List ℕ) → bytes_eq other tenant.now ≡ false
            → held_of other self.new ≡ held_of other self.old }
        ensures refused { IsSome (abandon_refusal tenant.now self.old) → self.new ≡ self.old }
    {
        abandon_stream(&mut self.pool, &mut self.tenants, tenant)
    }

    /// Removes a tenant: its objects, refs and HEAD, and its name. This is for the operator. The
    /// service then has what it would have if it had never seen the tenant, and the name can be
    /// used again. The contents that no other tenant has are freed. Every other tenant has what it
    /// had. Takes no memory. The work grows with the objects of the tenant, and a little with the
    /// number of tenants.
    ///
    /// A tenant that was never seen is removed too: the answer is `Answer::Ok`.
    ///
    /// `Answer::Fault`: 32 if the name is bad, and 31 if the tenant has a stream, even a dead one.
    /// Then everything is as it was.
    pub fn remove_tenant(&mut self, tenant: &[u8]) -> Answer
        ensures answer { result ≡ answer_unless (removal_refusal tenant.now self.old) }
        ensures removed { removal_refusal tenant.now self.old ≡ None
            → self.new ≡ all_but tenant.now self.old }
        ensures own { removal_refusal tenant.now self.old ≡ None
            → held_of tenant.now self.new ≡ Idle empty_repository }
        ensures others { (other : List ℕ) → bytes_eq other tenant.now ≡ false
            → held_of other self.new ≡ held_of other self.old }
        ensures refused { IsSome (removal_refusal tenant.now self.old) → self.new ≡ self.old }
    {
        remove(&mut self.pool, &mut self.tenants, tenant)
    }
}
