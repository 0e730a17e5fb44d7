//! The calls of the operator.

ghost use Rattle.std.specs.Prelude.{◌≡◌, IsSome};
ghost use Rattle.sha1.specs.Sha1.{sha1};
ghost use Rattle.tenant_service.specs.Removing.{abandon_refusal, answer_unless, removal_refusal};
ghost use Rattle.gitpool_c.specs.{Held.{service_in}, Numbers.{number_of}};
ghost use Rattle.gitpool_c.specs.Operating.{Copies, Compacts, IsAbandoned, IsRemoved};

use crate::handle::{Handle, put, taken};
use crate::numbers::number_of;
use std::alloc::Global;

/// Copies a tenant's repository to an empty tenant.
#[unsafe(no_mangle)]
pub extern "C" fn gitpool_copy(alloc: Global, service: &mut Handle, from: &[u8], to: &[u8]) -> u32
    requires { IsSome service.old.kept }
    ensures filled { IsSome service.new.kept }
    ensures copied { Copies sha1 from.now to.now (service_in service.old.kept) result
        (service_in service.new.kept) }
{
    let mut kept = taken(alloc, service);
    let answer = kept.service.copy_tenant(from, to);
    put(service, kept);
    number_of(answer)
}

/// Removes a tenant.
#[unsafe(no_mangle)]
pub extern "C" fn gitpool_remove(alloc: Global, service: &mut Handle, tenant: &[u8]) -> u32
    requires { IsSome service.old.kept }
    ensures filled { IsSome service.new.kept }
    ensures number { result ≡ number_of
        (answer_unless (removal_refusal tenant.now (service_in service.old.kept))) }
    ensures removed { IsRemoved tenant.now (service_in service.old.kept)
        (service_in service.new.kept) }
{
    let mut kept = taken(alloc, service);
    let answer = kept.service.remove_tenant(tenant);
    put(service, kept);
    number_of(answer)
}

/// Empties a tenant's repository of the objects that its refs do not reach.
#[unsafe(no_mangle)]
pub extern "C" fn gitpool_compact(alloc: Global, service: &mut Handle, tenant: &[u8]) -> u32
    requires { IsSome service.old.kept }
    ensures filled { IsSome service.new.kept }
    ensures compacted { Compacts tenant.now (service_in service.old.kept) result
        (service_in service.new.kept) }
{
    let mut kept = taken(alloc, service);
    let answer = kept.service.compact_tenant(tenant);
    put(service, kept);
    number_of(answer)
}

/// Gives up the stream of a tenant.
#[unsafe(no_mangle)]
pub extern "C" fn gitpool_abandon(alloc: Global, service: &mut Handle, tenant: &[u8]) -> u32
    requires { IsSome service.old.kept }
    ensures filled { IsSome service.new.kept }
    ensures number { result ≡ number_of
        (answer_unless (abandon_refusal tenant.now (service_in service.old.kept))) }
    ensures abandoned { IsAbandoned tenant.now (service_in service.old.kept)
        (service_in service.new.kept) }
{
    let mut kept = taken(alloc, service);
    let answer = kept.service.abandon(tenant);
    put(service, kept);
    number_of(answer)
}
