//! Tenants that go from one pool file to another: extracted to a file of their own, and merged from
//! one.

use crate::pools::{Missing, load};
use crate::run_fault::RunFault;
use gitpool::{Answer, Counted, Service, Sha1Naming};
use lock_files::LockFile;
use std::fs;
use std::io::ErrorKind;
use std::mem::forget;
use std::os::unix::fs::MetadataExt;

/// Writes a pool file that has one tenant alone to the path `file`. If there is a file, it is
/// replaced as a save replaces a pool file, and nobody else may be at work on it (68). The pool
/// file at `pool`, from which the service was loaded, is refused (68): its other tenants would be
/// lost.
///
/// 32 if the name of the tenant is bad; 68 if the new file cannot be made, written, renamed or
/// synced; 90 if memory ran out. What was at `file` is then as it was, unless only the sync of its
/// folder failed.
pub fn extract(
    rt: &HostRuntime,
    service: &Service<Sha1Naming>,
    tenant: &str,
    file: &str,
    pool: &str,
) -> Result<(), RunFault> {
    if is_same_file(rt, file, pool)? {
        return Err(RunFault::Device);
    }
    let new = LockFile::take(rt, file)?;
    let outcome = extract_as(rt, service, tenant, &new);
    if outcome.is_err() {
        new.remove(rt);
    }
    outcome
}

// Whether two paths lead to one file.
fn is_same_file(rt: &HostRuntime, one: &str, other: &str) -> Result<bool, RunFault> {
    match fs::metadata(rt, one) {
        Ok(found) => {
            let known = fs::metadata(rt, other)?;
            Ok(found.dev() == known.dev() && found.ino() == known.ino())
        }
        Err(error) if error.kind() == ErrorKind::NotFound => Ok(false),
        Err(error) => Err(RunFault::from(error)),
    }
}

fn extract_as(
    rt: &HostRuntime,
    service: &Service<Sha1Naming>,
    tenant: &str,
    new: &LockFile,
) -> Result<(), RunFault> {
    let mut writer = Counted::new(new.file()?);
    service.extract(tenant.as_bytes(), &mut writer)?;
    Ok(new.replace(rt)?)
}

/// Adds the tenants of the pool file at `file`, which is only read, and not locked.
///
/// 60 to 67 and 69 if that file is refused; 68 if it cannot be opened or read; otherwise as
/// `Service::merge` answers.
pub fn merge(
    rt: &HostRuntime,
    service: &mut Service<Sha1Naming>,
    file: &str,
) -> Result<Answer, RunFault> {
    let other = load(rt, file, Missing::Refused)?;
    let answer = service.merge(&other);
    forget(other);
    Ok(answer)
}
