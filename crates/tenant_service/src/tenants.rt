//! All tenants of a service, by their names, and the calls of one of them.
//!
//! The pool is lent to each call. After the call the pool and the tables agree again (`Accounts`),
//! and every other tenant has what it had.

ghost use Rattle.std.specs.Prelude.{◌≡◌, ◌<◌, ◌++◌, ◌∷◌, ℕ, List, [], length, OnOk, OnErr, true};
ghost use Rattle.std.specs.{Prelude.{false, None, Ok, Err, MatchResult, count_by}, Map.{lookup}};
ghost use Rattle.std.specs.Str.{bytes_eq};
ghost use Rattle.tenant_refs.specs.TenantName.{is_tenant_name as names_tenant};
ghost use Rattle.tenant_service.specs.{Alone.{Open, Feed, End, Ask}, OneStep.{restarted_at}};
ghost use Rattle.tenant_service.specs.Tenants.{Accounts, AreSound, holdings, has_committed};
ghost use Rattle.tenant_service.specs.OneStep.{store, Calls, Serves, Steps, restarted};
ghost use Rattle.tenant_stream.specs.Carrying.{HasAmpleHoldsLeft};

use crate::tenant::{Tenant, ask, ask_nobody, end, feed, new_tenant, open, restart};
use content_pool::Pool;
use git_objects::{Memory, Naming};
use indexmap::IndexMap;
use service_steps::{Answer, ServiceFault, Step};
use std::alloc::Global;
use tenant_refs::TenantName;

/// A fact for proofs: no tenant holds a content twice, and there are fewer than 2^63 tenants.
pub fn has_room<N: Naming>(pool: &Pool<N>, tenants: &IndexMap<TenantName, Tenant>)
    requires { Accounts N.digest_of pool.now tenants.now.entries }
    ensures { HasAmpleHoldsLeft pool.now }
{
    let count = tenants.len();
    prove!(count < 1 << 63);
}

/// Adds a tenant, whose name is new. `Memory` (90) if there is no room for it; then nothing has
/// changed.
pub fn add_tenant(
    tenants: &mut IndexMap<TenantName, Tenant>,
    name: TenantName,
    tenant: Tenant,
) -> Result<(), Memory>
    requires { lookup (bytes_eq name) tenants.old.entries ≡ None }
    ensures ok { OnOk result (tenants.new.entries ≡ tenants.old.entries ++ (name, tenant) ∷ []) }
    ensures err { OnErr result (tenants.new.entries ≡ tenants.old.entries) }
{
    match tenants.insert(name, tenant) {
        Ok(before) => {
            drop(before);
            Ok(())
        }
        Err(refused) => {
            drop(refused);
            Err(Memory)
        }
    }
}

// Opens a stream of a tenant that was not seen before.
fn open_new<N: Naming>(
    alloc: Global,
    pool: &Pool<N>,
    tenants: &mut IndexMap<TenantName, Tenant>,
    name: TenantName,
) -> Answer
    requires accounts { Accounts N.digest_of pool.now tenants.old.entries }
    requires named { names_tenant name ≡ true }
    requires new { lookup (bytes_eq name) tenants.old.entries ≡ None }
    ensures { Serves N.digest_of name Open (store pool.now tenants.old.entries) result
        [] [] (store pool.now tenants.new.entries) }
{
    let mut tenant = new_tenant(alloc);
    let answer = open(alloc, pool, &mut tenant);
    match add_tenant(tenants, name, tenant) {
        Ok(()) => answer,
        Err(_) => Answer::Memory(0),
    }
}

// Closes the stream of the tenant at this place. Places count from 0, in the order in which the
// tenants were seen.
fn restart_at<N: Naming>(
    pool: &mut Pool<N>,
    tenants: &mut IndexMap<TenantName, Tenant>,
    place: usize,
)
    requires accounts { Accounts N.digest_of pool.old tenants.old.entries }
    requires within { place < length tenants.old.entries }
    ensures accounts { Accounts N.digest_of pool.new tenants.new.entries }
    ensures len { length tenants.new.entries ≡ length tenants.old.entries }
    ensures closed { holdings pool.new tenants.new.entries
        ≡ restarted_at place (holdings pool.old tenants.old.entries) }
{
    if let Some(tenant) = tenants.get_index_mut(place) {
        restart(pool, tenant);
    }
}

/// Closes all streams, and goes back to the last checkpoint of every tenant. Takes no memory.
pub fn restart_all<N: Naming>(pool: &mut Pool<N>, tenants: &mut IndexMap<TenantName, Tenant>)
    requires { Accounts N.digest_of pool.old tenants.old.entries }
    ensures accounts { Accounts N.digest_of pool.new tenants.new.entries }
    ensures closed { holdings pool.new tenants.new.entries
        ≡ restarted (holdings pool.old tenants.old.entries) }
{
    for place in 0..tenants.len() {
        restart_at(pool, tenants, place);
    }
}

/// The name of a tenant. 32 if the text is not a tenant name. Takes no memory.
pub fn name_of(tenant: &[u8]) -> Result<TenantName, ServiceFault>
    ensures { MatchResult result
        (λ name. (names_tenant tenant.now ≡ true) × (name ≡ tenant.now))
        (λ fault. (names_tenant tenant.now ≡ false) × (fault ≡ ServiceFault.BadTenantName)) }
{
    match TenantName::read(tenant) {
        Ok(name) => Ok(name),
        Err(_) => Err(ServiceFault::BadTenantName),
    }
}

// Opens a stream of the tenant of this name. 32 if the name is bad, and 31 if it has a stream.
//
// `Memory(0)` if there is no room for a tenant that was not seen before, or for a copy of the refs;
// then nothing has changed.
fn open_stream<N: Naming>(
    alloc: Global,
    pool: &Pool<N>,
    tenants: &mut IndexMap<TenantName, Tenant>,
    tenant: &[u8],
) -> Answer
    requires { Accounts N.digest_of pool.now tenants.old.entries }
    ensures { (out : List ℕ) → Calls N.digest_of (names_tenant tenant.now) tenant.now Open
        (store pool.now tenants.old.entries) result out out (store pool.now tenants.new.entries) }
{
    let name = match name_of(tenant) {
        Ok(name) => name,
        Err(fault) => return fault.answer(),
    };
    match tenants.get_mut(&name) {
        Some(tenant) => open(alloc, pool, tenant),
        None => open_new(alloc, pool, tenants, name),
    }
}

// Feeds the stream of the tenant of this name, and appends what it prints to `out`. 32 if the name
// is bad, and 30 if it has no stream.
fn feed_stream<N: Naming>(
    pool: &mut Pool<N>,
    tenants: &mut IndexMap<TenantName, Tenant>,
    tenant: &[u8],
    bytes: &[u8],
    out: &mut Vec<u8>,
) -> Answer
    requires accounts { Accounts N.digest_of pool.old tenants.old.entries }
    requires sound { AreSound N.digest_of (holdings pool.old tenants.old.entries) }
    ensures { Calls N.digest_of (names_tenant tenant.now) tenant.now (Feed bytes.now)
        (store pool.old tenants.old.entries) result
        out.old.items out.new.items (store pool.new tenants.new.entries) }
{
    let name = match name_of(tenant) {
        Ok(name) => name,
        Err(fault) => return fault.answer(),
    };
    has_room(pool, tenants);
    match tenants.get_mut(&name) {
        Some(tenant) => feed(pool, tenant, bytes, out),
        None => ServiceFault::NoStream.answer(),
    }
}

// Ends the stream of the tenant of this name, and appends the reply of its end to `out`. 32 if the
// name is bad, and 30 if it has no stream.
fn end_stream<N: Naming>(
    pool: &mut Pool<N>,
    tenants: &mut IndexMap<TenantName, Tenant>,
    tenant: &[u8],
    out: &mut Vec<u8>,
) -> Answer
    requires accounts { Accounts N.digest_of pool.old tenants.old.entries }
    requires sound { AreSound N.digest_of (holdings pool.old tenants.old.entries) }
    ensures { Calls N.digest_of (names_tenant tenant.now) tenant.now End
        (store pool.old tenants.old.entries) result
        out.old.items out.new.items (store pool.new tenants.new.entries) }
{
    let name = match name_of(tenant) {
        Ok(name) => name,
        Err(fault) => return fault.answer(),
    };
    has_room(pool, tenants);
    match tenants.get_mut(&name) {
        Some(tenant) => end(pool, tenant, out),
        None => ServiceFault::NoStream.answer(),
    }
}

// Answers a query of the tenant of this name, and appends the answer to `out`. 32 if the name is
// bad. What is held of every tenant stays as it was.
fn answer_query<N: Naming>(
    alloc: Global,
    pool: &Pool<N>,
    tenants: &mut IndexMap<TenantName, Tenant>,
    tenant: &[u8],
    query: &[u8],
    out: &mut Vec<u8>,
) -> Answer
    requires accounts { Accounts N.digest_of pool.now tenants.old.entries }
    requires sound { AreSound N.digest_of (holdings pool.now tenants.old.entries) }
    ensures { Calls N.digest_of (names_tenant tenant.now) tenant.now (Ask query.now)
        (store pool.now tenants.old.entries) result
        out.old.items out.new.items (store pool.now tenants.new.entries) }
{
    let name = match name_of(tenant) {
        Ok(name) => name,
        Err(fault) => return fault.answer(),
    };
    match tenants.get_mut(&name) {
        Some(tenant) => ask(alloc, pool, tenant, query, out),
        None => ask_nobody(alloc, pool, query, out),
    }
}

/// Takes one step, and appends the bytes of its reply to `out`. 32 if the tenant's name is bad.
pub fn take_step<N: Naming>(
    alloc: Global,
    pool: &mut Pool<N>,
    tenants: &mut IndexMap<TenantName, Tenant>,
    step: Step<'_>,
    out: &mut Vec<u8>,
) -> Answer
    requires accounts { Accounts N.digest_of pool.old tenants.old.entries }
    requires sound { AreSound N.digest_of (holdings pool.old tenants.old.entries) }
    ensures { Steps N.digest_of step.entry (store pool.old tenants.old.entries) result
        out.old.items out.new.items (store pool.new tenants.new.entries) }
{
    match step {
        Step::Open { tenant } => open_stream(alloc, pool, tenants, tenant),
        Step::Feed { tenant, bytes } => feed_stream(pool, tenants, tenant, bytes, out),
        Step::End { tenant } => end_stream(pool, tenants, tenant, out),
        Step::Ask { tenant, query } => answer_query(alloc, pool, tenants, tenant, query, out),
        Step::Restart => {
            restart_all(pool, tenants);
            Answer::Ok
        }
    }
}

// Whether a tenant has a committed object.
fn has_committed(tenant: &Tenant) -> bool
    ensures { result ≡ has_committed tenant.now.table }
{
    tenant.table.committed_len() > 0
}

/// The number of tenants that have a committed object.
pub fn count_committed(tenants: &IndexMap<TenantName, Tenant>) -> usize
    ensures { result ≡ count_by (λ e. has_committed e.1.table) tenants.now.entries }
{
    let mut count = 0;
    let many = tenants.len();
    for place in 0..many {
        let (_, tenant) = tenants.get_index(place).unwrap();
        if has_committed(tenant) {
            count += 1;
        }
    }
    count
}
