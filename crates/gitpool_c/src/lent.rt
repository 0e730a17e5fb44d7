//! A service of bytes that its caller lends: their contents are not copied.

ghost use Rattle.sha1.specs.Sha1.{sha1};
ghost use Rattle.gitpool_c.specs.Loads.{HasLoaded, LoadsBytes};

use crate::handle::{Handle, fill};
use crate::kept::Kept;
use crate::numbers::OUT_OF_MEMORY;
use byte_devices::Counted;
use git_names::Sha1Naming;
use lending_readers::LentBytes;
use std::alloc::Global;
use tenant_service::{Fault, Service};

// The service of the bytes of a pool file.
fn loaded_lent(alloc: Global, file: &'static [u8]) -> Result<Service<Sha1Naming>, Fault>
    ensures { LoadsBytes sha1 file.now result }
{
    let mut reader = Counted::new(LentBytes::new(file));
    Service::load_lent(alloc, Sha1Naming, &mut reader)
}

/// Makes the service of the bytes of a pool file, which stay as they are for as long as the process
/// lives. It answers and leaves what `gitpool_load` does of the same bytes.
#[unsafe(no_mangle)]
pub extern "C" fn gitpool_load_lent(alloc: Global, service: &mut Handle, file: &'static [u8]) -> u32
    ensures { HasLoaded sha1 file.now service.old.kept result service.new.kept }
{
    let made = match loaded_lent(alloc, file) {
        Ok(made) => made,
        Err(fault) => return fault.code() as u32,
    };
    match fill(alloc, service, Kept::of(alloc, made)) {
        Ok(()) => 0,
        Err(_) => OUT_OF_MEMORY,
    }
}
