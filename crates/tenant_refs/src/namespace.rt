//! The full names of the refs of a tenant among those of all tenants: gitnamespaces(7).

ghost use Rattle.std.specs.Prelude.{◌≡◌, IfOk};
ghost use Rattle.tenant_refs.specs.FullName.{full_name, namespaces, IsFullNameOfNoOther};

use crate::tenant_name::TenantName;
use git_names::{Memory, RefName};
use std::alloc::Global;

/// The prefix of all refs of a tenant among those of all tenants: `refs/namespaces/<part>/` for
/// each part of the tenant's name, which is given as bytes.
///
/// For `a/b` it is `refs/namespaces/a/refs/namespaces/b/`. `Memory` (90) if there is no room for
/// it.
pub fn namespaces(alloc: Global, tenant: &[u8]) -> Result<Vec<u8>, Memory>
    ensures { IfOk result (λ front. front.items ≡ namespaces tenant.now) }
{
    let mut front = Vec::new(alloc);
    for part in tenant.split(|byte| *byte == b'/') {
        front.extend_from_slice(b"refs/namespaces/")?;
        front.extend_from_slice(part)?;
        front.push(b'/')?;
    }
    Ok(front)
}

/// The full name of a ref of a tenant: `refs/namespaces/<part>/` for each part of the tenant's
/// name, and then the ref.
///
/// For the tenant `a/b` and the ref `refs/heads/m` it is
/// `refs/namespaces/a/refs/namespaces/b/refs/heads/m`. No other tenant and no other ref has the
/// same full name. `Memory` (90) if there is no room for it.
pub fn full_name(alloc: Global, tenant: &TenantName, ref_name: &RefName) -> Result<Vec<u8>, Memory>
    ensures name { IfOk result (λ full. full.items ≡ full_name tenant.now ref_name.now) }
    ensures one { IfOk result (λ full. IsFullNameOfNoOther full.items tenant.now ref_name.now) }
{
    let mut full = namespaces(alloc, tenant.as_bytes())?;
    full.extend_from_slice(ref_name.as_bytes())?;
    Ok(full)
}
