//! How many commits a range has, in the repository of one tenant of a service.

ghost use Rattle.std.specs.Prelude.{◌≡◌, ℕ, List, Ok, IfOk, length};
ghost use Rattle.revisions.specs.Logs.{range_log};
ghost use Rattle.tenant_service.specs.{TenantState.{held_of}, HeldObjects.{last_held}};

use git_objects::Naming;
use revisions::{Fault, range};
use std::alloc::Global;
use tenant_service::Service;
use tenant_tables::Sight;

/// How many commits a range as `main..topic` has, at the tenant's last checkpoint. The faults are
/// those of `range`; a tenant that was never seen has no revision (16).
pub fn count_commits<N: Naming>(
    alloc: Global,
    service: &Service<N>,
    tenant: &[u8],
    text: &[u8],
) -> Result<usize, Fault>
    ensures { let repository = last_held (held_of tenant.now service.now) in
        IfOk result (λ count. (ids : List (List ℕ)) × (length ids ≡ count)
        × (range_log repository.objects repository.refs text.now ≡ Ok ids)) }
{
    service.is_sound();
    let Some((pool, table, refs)) = service.view(tenant) else {
        return Err(Fault::UnknownRevision);
    };
    let commits = range(alloc, pool, table, Sight::Committed, refs, text)?;
    Ok(commits.len())
}
