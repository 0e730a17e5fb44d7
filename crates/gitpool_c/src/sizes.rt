//! A list of what each tenant has.

ghost use Rattle.std.specs.Prelude.{◌≡◌, ◌≢◌, None, IsSome, IfOk, true, false, length, map};
ghost use Rattle.tenant_service.specs.Sizes.{sizes_of, sizes_told};
ghost use Rattle.gitpool_c.specs.Held.{listed_in, service_in};
ghost use Rattle.gitpool_c.specs.Listing.{Lists, ShowsAt, listed_told};

use crate::handle::{Handle, fill, free, put, taken};
use crate::kept::{Kept, ListedSizes};
use crate::numbers::OUT_OF_MEMORY;
use crate::reply::copy_front;
use git_names::{Memory, Sha1Naming};
use std::alloc::Global;
use tenant_service::{Service, TenantSizes};

/// What one tenant has, for C.
#[repr(C)]
#[derive(Drop)]
pub struct SizesRow {
    pub objects: u64,
    pub bytes: u64,
    pub own_bytes: u64,
    pub refs: u64,
    pub tenant_length: usize,
}

// What a tenant has, with a copy of its name.
fn listed(alloc: Global, sizes: &TenantSizes<'_>) -> Result<ListedSizes, Memory>
    ensures { IfOk result (λ one. listed_told one ≡ sizes_told sizes.now) }
{
    Ok(ListedSizes {
        tenant: Vec::from_slice(alloc, sizes.tenant)?,
        objects: sizes.objects,
        bytes: sizes.bytes,
        own_bytes: sizes.own_bytes,
        refs: sizes.refs,
    })
}

// The same of each tenant.
fn all_listed(alloc: Global, all: &[TenantSizes<'_>]) -> Result<Vec<ListedSizes>, Memory>
    ensures { IfOk result (λ list. map listed_told list.items ≡ map sizes_told all.now) }
{
    let mut list = Vec::new(alloc);
    for sizes in all {
        let one = listed(alloc, sizes)?;
        list.push(one)?;
    }
    Ok(list)
}

// What each tenant of a service has.
fn list_of(alloc: Global, service: &Service<Sha1Naming>) -> Result<Vec<ListedSizes>, Memory>
    ensures { IfOk result (λ list. map listed_told list.items ≡ sizes_of service.now) }
{
    let all = service.sizes()?;
    all_listed(alloc, &all)
}

// Fills a handle with a list. After a fault it is as it was.
fn list(alloc: Global, service: &Service<Sha1Naming>, sizes: &mut Handle) -> Result<(), Memory>
    ensures { Lists service.now sizes.old.kept result sizes.new.kept }
{
    let list = list_of(alloc, service)?;
    let mut kept = Kept::of(alloc, Service::new(alloc, Sha1Naming));
    kept.sizes = list;
    fill(alloc, sizes, kept)
}

/// Lists what each tenant has.
#[unsafe(no_mangle)]
pub extern "C" fn gitpool_list_sizes(alloc: Global, service: &mut Handle, sizes: &mut Handle) -> u32
    requires { IsSome service.old.kept }
    ensures kept { service.new.kept ≡ service.old.kept }
    ensures filled { result ≡ 0 → IsSome sizes.new.kept }
    ensures listed { result ≡ 0
        → map listed_told (listed_in sizes.new.kept) ≡ sizes_of (service_in service.old.kept) }
    ensures refused { result ≢ 0 → result ≡ 90 }
    ensures same { result ≢ 0 → sizes.new.kept ≡ sizes.old.kept }
{
    let kept = taken(alloc, service);
    let outcome = list(alloc, &kept.service, sizes);
    put(service, kept);
    match outcome {
        Ok(()) => 0,
        Err(_) => OUT_OF_MEMORY,
    }
}

/// The number of tenants in a list.
#[unsafe(no_mangle)]
pub extern "C" fn gitpool_sizes_count(alloc: Global, sizes: &mut Handle) -> usize
    requires { IsSome sizes.old.kept }
    ensures same { sizes.new.kept ≡ sizes.old.kept }
    ensures count { result ≡ length (listed_in sizes.old.kept) }
{
    let kept = taken(alloc, sizes);
    let count = kept.sizes.len();
    put(sizes, kept);
    count
}

// Shows what is at a place of a list, if anything is.
fn show(list: &[ListedSizes], place: usize, told: &mut SizesRow, room: &mut [u8]) -> bool
    ensures { ShowsAt list.now place result told.old told.new room.old room.new }
{
    let Some(one) = list.get(place) else {
        return false;
    };
    *told = SizesRow {
        objects: one.objects,
        bytes: one.bytes,
        own_bytes: one.own_bytes,
        refs: one.refs,
        tenant_length: one.tenant.len(),
    };
    copy_front(&one.tenant, room);
    true
}

/// Tells what the tenant at a place of a list has.
#[unsafe(no_mangle)]
pub extern "C" fn gitpool_sizes_at(
    alloc: Global,
    sizes: &mut Handle,
    place: usize,
    told: &mut SizesRow,
    room: &mut [u8],
) -> bool
    requires { IsSome sizes.old.kept }
    ensures same { sizes.new.kept ≡ sizes.old.kept }
    ensures shown { ShowsAt (listed_in sizes.old.kept) place result told.old told.new
        room.old room.new }
{
    let kept = taken(alloc, sizes);
    let is_there = show(&kept.sizes, place, told, room);
    put(sizes, kept);
    is_there
}

/// Gives the memory of a list back.
#[unsafe(no_mangle)]
pub extern "C" fn gitpool_sizes_free(alloc: Global, sizes: &mut Handle)
    requires { IsSome sizes.old.kept }
    ensures { sizes.new.kept ≡ None }
{
    free(alloc, sizes);
}
