//! A service: where it comes from, what is stored in it, and its end.

ghost use Rattle.std.specs.Prelude.{◌≡◌, ◌≢◌, [], None, IsSome, IfOk};
ghost use Rattle.sha1.specs.Sha1.{sha1};
ghost use Rattle.pool_file_checks.specs.Repositories.{file_text};
ghost use Rattle.tenant_service.specs.{Headline.{told_by_reply}, Saved.{saved_of}};
ghost use Rattle.gitpool_c.specs.{Held.{service_in, told_in}, Loads.{HasLoaded, LoadsBytes, Saves}};
ghost use Rattle.gitpool_c.specs.{Numbers.{number_of}, Totals.{IsTotal}};

use crate::handle::{Handle, fill, free, put, taken};
use crate::kept::Kept;
use crate::numbers::{OUT_OF_MEMORY, number_of};
use byte_devices::Counted;
use git_names::{Memory, Sha1Naming};
use std::alloc::Global;
use tenant_service::{Answer, Fault, Service};

/// How much all tenants have together.
#[repr(C)]
#[derive(Drop)]
pub struct Totals {
    pub contents: u64,
    pub bytes: u64,
    pub tenants: u64,
}

/// Makes a service without tenants.
#[unsafe(no_mangle)]
pub extern "C" fn gitpool_new(alloc: Global, service: &mut Handle) -> u32
    ensures filled { result ≡ 0 → IsSome service.new.kept }
    ensures empty { result ≡ 0 → service_in service.new.kept ≡ [] }
    ensures refused { result ≢ 0 → result ≡ 90 }
    ensures same { result ≢ 0 → service.new.kept ≡ service.old.kept }
{
    let kept = Kept::of(alloc, Service::new(alloc, Sha1Naming));
    match fill(alloc, service, kept) {
        Ok(()) => 0,
        Err(_) => OUT_OF_MEMORY,
    }
}

// The service of the bytes of a pool file.
fn loaded(alloc: Global, file: &[u8]) -> Result<Service<Sha1Naming>, Fault>
    ensures { LoadsBytes sha1 file.now result }
{
    let mut reader = Counted::new(file);
    Service::load(alloc, Sha1Naming, &mut reader)
}

/// Makes the service of the bytes of a pool file.
#[unsafe(no_mangle)]
pub extern "C" fn gitpool_load(alloc: Global, service: &mut Handle, file: &[u8]) -> u32
    ensures { HasLoaded sha1 file.now service.old.kept result service.new.kept }
{
    let made = match loaded(alloc, file) {
        Ok(made) => made,
        Err(fault) => return fault.code() as u32,
    };
    match fill(alloc, service, Kept::of(alloc, made)) {
        Ok(()) => 0,
        Err(_) => OUT_OF_MEMORY,
    }
}

// The bytes of the pool file of a service. A vector refuses a write only if there is no memory.
fn file_of(alloc: Global, service: &Service<Sha1Naming>) -> Result<Vec<u8>, Memory>
    ensures { IfOk result (λ bytes. bytes.items ≡ file_text sha1 (saved_of service.now)) }
{
    let mut writer = Counted::new(Vec::new(alloc));
    match service.save(&mut writer) {
        Ok(()) => Ok(writer.into_inner()),
        Err(_) => Err(Memory),
    }
}

// Saves a service into a reply, which is empty if there is no memory.
fn save(alloc: Global, kept: &Kept, told: &mut Kept) -> Answer
    ensures saved { Saves sha1 kept.now.service (told_by_reply told.new.reply) }
    ensures answer { result ≡ told.new.reply.answer }
{
    told.reply.bytes.clear();
    let answer = match file_of(alloc, &kept.service) {
        Ok(bytes) => {
            told.reply.bytes = bytes;
            Answer::Ok
        }
        Err(_) => Answer::Memory(0),
    };
    told.reply.answer = answer;
    answer
}

/// Saves the repositories of all tenants, as the bytes of the reply.
#[unsafe(no_mangle)]
pub extern "C" fn gitpool_save(alloc: Global, service: &mut Handle, reply: &mut Handle) -> u32
    requires service { IsSome service.old.kept }
    requires reply { IsSome reply.old.kept }
    ensures same { service.new.kept ≡ service.old.kept }
    ensures replied { IsSome reply.new.kept }
    ensures number { result ≡ number_of (told_in reply.new.kept).answer }
    ensures saved { Saves sha1 (service_in service.old.kept) (told_in reply.new.kept) }
{
    let kept = taken(alloc, service);
    let mut told = taken(alloc, reply);
    let answer = save(alloc, &kept, &mut told);
    put(service, kept);
    put(reply, told);
    number_of(answer)
}

// How much is stored in a service.
fn totals_of(service: &Service<Sha1Naming>) -> Totals
    ensures { IsTotal service.now result }
{
    let (contents, bytes) = service.stored();
    let tenants = service.tenants();
    Totals {
        contents,
        bytes,
        tenants,
    }
}

/// Tells how much is stored.
#[unsafe(no_mangle)]
pub extern "C" fn gitpool_stored(alloc: Global, service: &mut Handle, totals: &mut Totals)
    requires { IsSome service.old.kept }
    ensures same { service.new.kept ≡ service.old.kept }
    ensures stored { IsTotal (service_in service.old.kept) totals.new }
{
    let kept = taken(alloc, service);
    *totals = totals_of(&kept.service);
    put(service, kept);
}

/// Gives the memory of a service back.
#[unsafe(no_mangle)]
pub extern "C" fn gitpool_free(alloc: Global, service: &mut Handle)
    requires { IsSome service.old.kept }
    ensures { service.new.kept ≡ None }
{
    free(alloc, service);
}
