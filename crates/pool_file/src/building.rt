//! Building what a good file says: its contents in one pool, and the tenants over it.

ghost use Rattle.std.specs.Prelude.{◌≡◌, [], ◌∷◌, true, All, IfOk, IfSome, OnOk};
ghost use Rattle.content_pool.specs.Pool.{IsLive, IsVacant};
ghost use Rattle.tenant_refs.specs.TenantName.{IsTenantName, is_tenant_name};
ghost use Rattle.tenant_tables.specs.{IsBackedBy.{IsBackedBy}, Room.{HasHoldsLeftBeside}};
ghost use Rattle.pool_file_format.specs.Shown.{objects_of, tenant_of, tenants_of, file_of};
ghost use Rattle.pool_file_checks.specs.{Checks.{Passes}, Own.{names_of}, Quick.{KnowsSums}};
ghost use Rattle.pool_file_checks.specs.{Whole.{file_checks}, Saved.{saved_in}};
ghost use Rattle.pool_file.specs.{Loading.{loaded_repositories, AreTenants}, Tables.{BeginAlike}};
ghost use Rattle.pool_file.specs.Building.{objects_at, IsChecked, AreUnder, Builds, AddsTenants};
ghost use Rattle.pool_file.specs.Building.{SharesFront};

use crate::contents::{release_contents, store_contents};
use crate::refs::load_refs;
use crate::relatives::{Relatives, Shared};
use crate::tables::load_table;
use crate::tenant::Tenant;
use content_pool::{Pool, Slot};
use git_names::{Memory, Name, Naming};
use pool_file_checks::{Judged, KnownSums};
use pool_file_format::{RawFile, RawTenant};
use std::alloc::Global;
use tenant_refs::TenantName;
use tenant_tables::Table;

fn read_tenant_name(text: &[u8]) -> TenantName
    requires { IsTenantName text.now }
    ensures name { result ≡ text.now }
    ensures well_formed { is_tenant_name result ≡ true }
{
    TenantName::read(text).unwrap()
}

// Builds a tenant of a file whose contents lie in these slots. It shares its first `count` objects
// with another table.
fn build_tenant<N: Naming>(
    alloc: Global,
    pool: &mut Pool<N>,
    slots: &[Slot],
    names: &[Name],
    known: &KnownSums,
    tenant: &RawTenant,
    other: &mut Table,
    count: usize,
) -> Result<Tenant, Memory>
    requires live { All (IsLive pool.old) slots.now }
    requires room { HasHoldsLeftBeside pool.old [] }
    requires named { names.now ≡ names_of N.digest_of (objects_at pool.old slots.now) }
    requires known { KnowsSums N.digest_of (objects_at pool.old slots.now) known.now }
    requires checked { IsChecked N.digest_of (objects_at pool.old slots.now)
        (tenant_of tenant.now) }
    requires other { IsBackedBy N.digest_of pool.old other.old.entries }
    requires alike { BeginAlike other.old.entries slots.now tenant.now.numbers.items count }
    ensures same { other.new ≡ other.old }
    ensures builds { IfOk result (λ t. Builds N.digest_of (objects_at pool.old slots.now)
        (tenant_of tenant.now) pool.old pool.new t) }
{
    let name = read_tenant_name(&tenant.name);
    let table = load_table(
        alloc,
        pool,
        slots,
        names,
        known,
        &tenant.numbers,
        other,
        count,
    )?;
    let refs = load_refs(alloc, &table, tenant)?;
    Ok(Tenant { name, table, refs })
}

// A fact for proofs: a tenant holds a slot at most once, and there are fewer than 2^63 tenants.
fn has_room<N: Naming>(pool: &Pool<N>, slots: &[Slot], tenants: &Vec<Tenant>)
    requires { AreUnder N.digest_of slots.now pool.now tenants.now.items }
    ensures { HasHoldsLeftBeside pool.now [] }
{
    let _few = tenants.len();
}

// Builds a tenant that shares no objects.
fn build_alone<N: Naming>(
    alloc: Global,
    pool: &mut Pool<N>,
    slots: &[Slot],
    names: &[Name],
    known: &KnownSums,
    tenant: &RawTenant,
) -> Result<Tenant, Memory>
    requires live { All (IsLive pool.old) slots.now }
    requires room { HasHoldsLeftBeside pool.old [] }
    requires named { names.now ≡ names_of N.digest_of (objects_at pool.old slots.now) }
    requires known { KnowsSums N.digest_of (objects_at pool.old slots.now) known.now }
    requires checked { IsChecked N.digest_of (objects_at pool.old slots.now)
        (tenant_of tenant.now) }
    ensures builds { IfOk result (λ t. Builds N.digest_of (objects_at pool.old slots.now)
        (tenant_of tenant.now) pool.old pool.new t) }
{
    let mut none = Table::new(alloc);
    build_tenant(alloc, pool, slots, names, known, tenant, &mut none, 0)
}

// Builds a tenant that shares objects with one of these.
fn build_beside<N: Naming>(
    alloc: Global,
    pool: &mut Pool<N>,
    slots: &[Slot],
    names: &[Name],
    known: &KnownSums,
    tenants: &mut Vec<Tenant>,
    shared: Shared,
    tenant: &RawTenant,
) -> Result<Tenant, Memory>
    requires under { AreUnder N.digest_of slots.now pool.old tenants.old.items }
    requires shared { SharesFront slots.now tenant.now.numbers.items tenants.old.items shared }
    requires live { All (IsLive pool.old) slots.now }
    requires room { HasHoldsLeftBeside pool.old [] }
    requires named { names.now ≡ names_of N.digest_of (objects_at pool.old slots.now) }
    requires known { KnowsSums N.digest_of (objects_at pool.old slots.now) known.now }
    requires checked { IsChecked N.digest_of (objects_at pool.old slots.now)
        (tenant_of tenant.now) }
    ensures same { tenants.new.items ≡ tenants.old.items }
    ensures builds { IfOk result (λ t. Builds N.digest_of (objects_at pool.old slots.now)
        (tenant_of tenant.now) pool.old pool.new t) }
{
    match tenants.get_mut(shared.place) {
        Some(other) => {
            let table = &mut other.table;
            build_tenant(
                alloc,
                pool,
                slots,
                names,
                known,
                tenant,
                table,
                shared.count,
            )
        }
        None => build_alone(alloc, pool, slots, names, known, tenant),
    }
}

fn build_next<N: Naming>(
    alloc: Global,
    pool: &mut Pool<N>,
    slots: &[Slot],
    names: &[Name],
    known: &KnownSums,
    tenants: &mut Vec<Tenant>,
    shared: Option<Shared>,
    tenant: &RawTenant,
) -> Result<Tenant, Memory>
    requires under { AreUnder N.digest_of slots.now pool.old tenants.old.items }
    requires shared { IfSome shared
        (SharesFront slots.now tenant.now.numbers.items tenants.old.items) }
    requires named { names.now ≡ names_of N.digest_of (objects_at pool.old slots.now) }
    requires known { KnowsSums N.digest_of (objects_at pool.old slots.now) known.now }
    requires checked { IsChecked N.digest_of (objects_at pool.old slots.now)
        (tenant_of tenant.now) }
    ensures same { tenants.new.items ≡ tenants.old.items }
    ensures builds { IfOk result (λ t. Builds N.digest_of (objects_at pool.old slots.now)
        (tenant_of tenant.now) pool.old pool.new t) }
{
    has_room(pool, slots, tenants);
    match shared {
        Some(shared) => build_beside(alloc, pool, slots, names, known, tenants, shared, tenant),
        None => build_alone(alloc, pool, slots, names, known, tenant),
    }
}

fn add_tenant<N: Naming>(
    alloc: Global,
    pool: &mut Pool<N>,
    slots: &[Slot],
    names: &[Name],
    known: &KnownSums,
    relatives: &mut Relatives,
    tenants: &mut Vec<Tenant>,
    tenant: &RawTenant,
) -> Result<(), Memory>
    requires under { AreUnder N.digest_of slots.now pool.old tenants.old.items }
    requires named { names.now ≡ names_of N.digest_of (objects_at pool.old slots.now) }
    requires known { KnowsSums N.digest_of (objects_at pool.old slots.now) known.now }
    requires checked { IsChecked N.digest_of (objects_at pool.old slots.now)
        (tenant_of tenant.now) }
    ensures { OnOk result (AddsTenants N.digest_of slots.now pool.old tenants.old.items
        (tenant_of tenant.now ∷ []) pool.new tenants.new.items) }
{
    let shared = relatives.choose(slots, tenants, &tenant.numbers);
    relatives.note(&tenant.numbers, shared)?;
    let built = build_next(alloc, pool, slots, names, known, tenants, shared, tenant)?;
    tenants.push(built)?;
    Ok(())
}

fn add_tenants<N: Naming>(
    alloc: Global,
    pool: &mut Pool<N>,
    slots: &[Slot],
    names: &[Name],
    known: &KnownSums,
    tenants: &mut Vec<Tenant>,
    all: &[RawTenant],
) -> Result<(), Memory>
    requires under { AreUnder N.digest_of slots.now pool.old tenants.old.items }
    requires named { names.now ≡ names_of N.digest_of (objects_at pool.old slots.now) }
    requires known { KnowsSums N.digest_of (objects_at pool.old slots.now) known.now }
    requires checked { All (IsChecked N.digest_of (objects_at pool.old slots.now))
        (tenants_of all.now) }
    ensures { OnOk result (AddsTenants N.digest_of slots.now pool.old tenants.old.items
        (tenants_of all.now) pool.new tenants.new.items) }
{
    let mut relatives = Relatives::new(alloc);
    for tenant in all {
        add_tenant(
            alloc,
            pool,
            slots,
            names,
            known,
            &mut relatives,
            tenants,
            tenant,
        )?;
    }
    Ok(())
}

// Puts the contents into the pool, builds the tenants over them, and releases the file's own holds.
fn fill<N: Naming>(
    alloc: Global,
    pool: &mut Pool<N>,
    tenants: &mut Vec<Tenant>,
    names: &[Name],
    known: &KnownSums,
    file: RawFile,
) -> Result<(), Memory>
    requires named { names.now ≡ names_of N.digest_of (objects_of file.objects.items) }
    requires known { KnowsSums N.digest_of (objects_of file.objects.items) known.now }
    requires vacant { IsVacant pool.old }
    requires none { tenants.old.items ≡ [] }
    requires checked { Passes (file_checks N.digest_of (file_of file)) }
    ensures says { OnOk result (loaded_repositories pool.new tenants.new.items
        ≡ saved_in N.digest_of (file_of file)) }
    ensures tenants { OnOk result (AreTenants N.digest_of pool.new tenants.new.items) }
{
    let RawFile {
        version: _,
        objects,
        tenants: all,
    } = file;
    let slots = store_contents(alloc, pool, names, objects)?;
    add_tenants(alloc, pool, &slots, names, known, tenants, &all)?;
    release_contents(pool, &slots);
    Ok(())
}

/// Builds what a judged file says: the pool that has each content once, and the tenants over it in
/// the order of the file. Each content is moved into the pool, under the name that was made when
/// the file was judged. A tree whose summary was found then is not read again.
///
/// `Memory` (90) if there is no memory for them.
pub fn build<N: Naming>(
    alloc: Global,
    naming: N,
    judged: Judged,
) -> Result<(Pool<N>, Vec<Tenant>), Memory>
    requires named { judged.names.items
        ≡ names_of N.digest_of (objects_of judged.file.objects.items) }
    requires known { KnowsSums N.digest_of (objects_of judged.file.objects.items) judged.known }
    requires checked { Passes (file_checks N.digest_of (file_of judged.file)) }
    ensures says { IfOk result
        (λ r. loaded_repositories r.0 r.1.items ≡ saved_in N.digest_of (file_of judged.file)) }
    ensures tenants { IfOk result (λ r. AreTenants N.digest_of r.0 r.1.items) }
{
    let Judged { file, names, known } = judged;
    let mut pool = Pool::with_capacity(alloc, naming, file.objects.len())?;
    let mut tenants = Vec::new(alloc);
    fill(alloc, &mut pool, &mut tenants, &names, &known, file)?;
    Ok((pool, tenants))
}
