//! What a save writes, without a copy of any content.

ghost use Rattle.std.specs.Prelude.{◌≡◌, IfOk, map};
ghost use Rattle.pool_file_format.specs.Shown.{lent_object_of, lent_file};
ghost use Rattle.pool_file_checks.specs.Repositories.{raw_of};
ghost use Rattle.pool_file.specs.{Worth.{AllStand, to_save}, Lent.{objects_lent}};

use crate::content::ListedContent;
use crate::listing::listed_contents;
use crate::numbers::numbers_by_slot;
use crate::tenant_view::TenantView;
use crate::tenants::{raw_tenants, tenants_to_save};
use content_pool::Pool;
use git_names::{Memory, Naming};
use pool_file_format::{LentObject, RawTenant};
use std::alloc::Global;

/// The objects in the order of the file, and the tenants with the numbers of their objects.
#[derive(Drop)]
pub struct Plan<'a> {
    pub objects: Vec<LentObject<'a>>,
    pub tenants: Vec<RawTenant>,
}

// The contents as they are written.
fn lent_objects<'a>(
    alloc: Global,
    contents: &[ListedContent<'a>],
) -> Result<Vec<LentObject<'a>>, Memory>
    ensures { IfOk result
        (λ objects. map lent_object_of objects.items ≡ objects_lent contents.now) }
{
    let mut objects = Vec::with_capacity(alloc, contents.len())?;
    for listed in contents {
        objects.push(LentObject {
            kind: listed.content.kind,
            bytes: listed.content.bytes,
        })?;
    }
    Ok(objects)
}

/// The file of the tenants that are worth saving.
///
/// `Memory` (90) if there is no memory for it.
pub fn planned<'a, N: Naming>(
    alloc: Global,
    pool: &'a Pool<N>,
    tenants: &[TenantView<'a>],
) -> Result<Plan<'a>, Memory>
    requires { AllStand N.digest_of pool.now tenants.now }
    ensures { IfOk result
        (λ plan. lent_file plan.objects.items plan.tenants.items
        ≡ raw_of 2 (to_save pool.now tenants.now)) }
{
    let saved = tenants_to_save(alloc, tenants)?;
    let listing = listed_contents(alloc, pool, &saved)?;
    let numbers = numbers_by_slot(alloc, &listing.contents, listing.slots)?;
    let tenants = raw_tenants(alloc, &numbers, &saved)?;
    let objects = lent_objects(alloc, &listing.contents)?;
    Ok(Plan { objects, tenants })
}
