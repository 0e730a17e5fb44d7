//! Copies of a tenant's repository to an empty tenant, by the steps of a service.
//!
//! This module has the steps of a copy. What they leave is the law of exports, which
//! `Service::copy_tenant` states. By that law most copies are made by the places of the objects
//! alone, without the steps, and leave the same.

ghost use Rattle.std.specs.{Prelude.{◌≡◌, ℕ, List, None, false}, Str.{bytes_eq}};
ghost use Rattle.content_pool.specs.Pool.{Cells};
ghost use Rattle.import_session.specs.Session.{repository_in};
ghost use Rattle.tenant_service.specs.Copying.{HasTaken, IsExport, IsImport, copy_refusal};
ghost use Rattle.tenant_service.specs.Copying.{first_refusal as first_refused, has_nothing};
ghost use Rattle.tenant_service.specs.{Copying.{held_refusal}, TenantState.{held_of}};
ghost use Rattle.tenant_service.specs.Tenants.{holding_in, holdings};

use crate::service::Service;
use crate::tenant::{OpenStream, Tenant};
use crate::tenants::name_of;
use git_objects::Naming;
use indexmap::IndexMap;
use service_steps::{Answer, ServiceFault, Step};
use std::alloc::Global;
use tenant_refs::{FIRST_HEAD, Refs, TenantName};
use tenant_tables::Table;

// The query to the tenant that is copied.
const EXPORT: &[u8] = b"export";

// Whether a repository has no object, no ref, and the first HEAD.
fn has_nothing(table: &Table, refs: &Refs) -> bool
    ensures { (pool : Cells) → result ≡ has_nothing (repository_in pool table.now refs.now) }
{
    table.len() == 0 && refs.len() == 0 && refs.head() == FIRST_HEAD
}

/// Why a tenant takes no copy.
pub fn refusal_of(tenant: &Tenant) -> Option<ServiceFault>
    ensures { (pool : Cells) → result ≡ held_refusal (holding_in pool tenant.now) }
{
    match &tenant.phase {
        OpenStream::Closed => {
            if has_nothing(&tenant.table, &tenant.refs) {
                None
            } else {
                Some(ServiceFault::TenantNotEmpty)
            }
        }
        _ => Some(ServiceFault::StreamIsOpen),
    }
}

/// Why a copy of `from` to `to` is refused before its first step: one of the two names is bad (32),
/// `to` has a stream, even a dead one (31), or `to` has an object, a ref, or another HEAD than the
/// first (33). They are checked in this order. `None` if the copy is not refused. Takes no memory.
pub fn copy_refusal(
    tenants: &IndexMap<TenantName, Tenant>,
    from: &[u8],
    to: &[u8],
) -> Option<ServiceFault>
    ensures { (pool : Cells)
        → result ≡ copy_refusal from.now to.now (holdings pool tenants.now.entries) }
{
    if let Err(fault) = name_of(from) {
        return Some(fault);
    }
    match name_of(to) {
        Ok(name) => match tenants.get(&name) {
            Some(tenant) => refusal_of(tenant),
            None => None,
        },
        Err(fault) => Some(fault),
    }
}

// The first of two answers that is not Ok, else Ok.
fn first_refusal(first: Answer, second: Answer) -> Answer
    ensures { result ≡ first_refused first second }
{
    match first {
        Answer::Ok => second,
        refusal => refusal,
    }
}

// Opens a stream, feeds it a text, and ends it, even if the text was refused.
fn import<N: Naming>(alloc: Global, service: &mut Service<N>, to: &[u8], text: &[u8]) -> Answer
    ensures taken { HasTaken N.digest_of service.old service.new
        (λ run. IsImport to.now text.now run result) }
    ensures others { (tenant : List ℕ) → bytes_eq tenant to.now ≡ false
        → held_of tenant service.new ≡ held_of tenant service.old }
{
    let mut out = Vec::new(alloc);
    match service.step(Step::Open { tenant: to }, &mut out) {
        Answer::Ok => {}
        refusal => return refusal,
    }
    let fed = service.step(
        Step::Feed {
            tenant: to,
            bytes: text,
        },
        &mut out,
    );
    let ended = service.step(Step::End { tenant: to }, &mut out);
    first_refusal(fed, ended)
}

// Takes the steps of a copy: an Ask `export` of `from`, and then Open, one Feed of that text, and
// End of `to`. The answer is the first of theirs that is not Ok, else Ok.
fn copy_by_steps<N: Naming>(
    alloc: Global,
    service: &mut Service<N>,
    from: &[u8],
    to: &[u8],
) -> Answer
    ensures taken { HasTaken N.digest_of service.old service.new
        (λ run. IsExport from.now to.now run result) }
    ensures others { (tenant : List ℕ) → bytes_eq tenant to.now ≡ false
        → held_of tenant service.new ≡ held_of tenant service.old }
{
    let mut text = Vec::new(alloc);
    let export = Step::Ask {
        tenant: from,
        query: EXPORT,
    };
    match service.step(export, &mut text) {
        Answer::Ok => import(alloc, service, to, &text),
        refusal => refusal,
    }
}

/// Copies a repository, as a run of the steps of a copy does: an Ask `export` of `from`, and then
/// Open, one Feed of that text, and End of `to`. The answer is the first of theirs that is not Ok,
/// else Ok. The steps are taken only if the objects cannot be copied by their places; their replies
/// take memory from `alloc`.
pub fn copy<N: Naming>(alloc: Global, service: &mut Service<N>, from: &[u8], to: &[u8]) -> Answer
    requires { copy_refusal from.now to.now service.old ≡ None }
    ensures taken { HasTaken N.digest_of service.old service.new
        (λ run. IsExport from.now to.now run result) }
    ensures others { (tenant : List ℕ) → bytes_eq tenant to.now ≡ false
        → held_of tenant service.new ≡ held_of tenant service.old }
{
    match service.copy_by_places(from, to) {
        Some(answer) => answer,
        None => copy_by_steps(alloc, service, from, to),
    }
}
