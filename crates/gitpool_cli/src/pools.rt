//! Services in pool files: loaded as a run begins, saved at its end or while it goes on.

use crate::run_fault::RunFault;
use gitpool::{Counted, Service, Sha1Naming};
use lending_readers::ChunkedFile;
use lock_files::{LockFile, NextFile};
use std::fs::File;
use std::io::{BufReader, ErrorKind, Read};

// How many bytes are read at once of what is no file, such as a pipe. More would copy large
// contents twice.
const READ_AHEAD: usize = 32_768;

// How a pool file begins that a save of this program writes: the eight bytes of the format, and its
// version, 2.
const SAVED_FRONT: [u8; 12] = *b"gitpool\n\0\0\0\x02";

/// What a run begins with if there is no pool file.
#[derive(Clone, Copy)]
pub enum Missing {
    /// A service that has seen no tenant.
    Empty,
    /// Nothing: the run is refused (68).
    Refused,
}

/// Loads the service in a pool file, which lends its contents: they stay in memory as they were
/// read, to the end of the process. If there is no file, `missing` says what the run begins with.
///
/// 60 to 67 and 69 if the file is refused; 68 if it cannot be opened or read; 90 if memory ran out.
pub fn load(
    rt: &HostRuntime,
    pool: &str,
    missing: Missing,
) -> Result<Service<Sha1Naming>, RunFault> {
    match File::open(rt, pool) {
        Ok(file) => load_from(rt, file),
        Err(error) => match (error.kind(), missing) {
            (ErrorKind::NotFound, Missing::Empty) => Ok(Service::new(rt.alloc(), Sha1Naming)),
            _ => Err(RunFault::from(error)),
        },
    }
}

fn load_from(rt: &HostRuntime, file: File) -> Result<Service<Sha1Naming>, RunFault> {
    let found = file.metadata()?;
    if found.is_file() {
        load_lent(rt, file, found.len())
    } else {
        load_copied(rt, file)
    }
}

fn load_lent(rt: &HostRuntime, file: File, length: u64) -> Result<Service<Sha1Naming>, RunFault> {
    let mut reader = Counted::new(ChunkedFile::new(rt.alloc(), file, length)?);
    Ok(Service::load_lent(rt.alloc(), Sha1Naming, &mut reader)?)
}

// What is no file cannot be read from a place on.
fn load_copied(rt: &HostRuntime, file: File) -> Result<Service<Sha1Naming>, RunFault> {
    let mut reader = Counted::new(BufReader::with_capacity(rt.alloc(), READ_AHEAD, file)?);
    Ok(Service::load(rt.alloc(), Sha1Naming, &mut reader)?)
}

/// Whether the pool file is there, and of the version that a save writes.
pub fn is_current(rt: &HostRuntime, pool: &str) -> bool {
    match File::open(rt, pool) {
        Ok(file) => begins_as_saved(file),
        Err(_) => false,
    }
}

fn begins_as_saved(mut file: File) -> bool {
    let mut front = [0; SAVED_FRONT.len()];
    file.read_exact(&mut front).is_ok() && front == SAVED_FRONT
}

/// Saves what every tenant has at its last checkpoint: the new file takes the place of the pool
/// file when it is whole and on the disk.
///
/// 68 if the new file cannot be made, written, renamed or synced; 90 if memory ran out. The pool
/// file is then as it was, unless only the sync of its folder failed, and the new file is removed.
pub fn save(
    rt: &HostRuntime,
    service: &Service<Sha1Naming>,
    new: &LockFile,
) -> Result<(), RunFault> {
    let outcome = save_as(rt, service, new);
    if outcome.is_err() {
        new.remove(rt);
    }
    outcome
}

fn save_as(
    rt: &HostRuntime,
    service: &Service<Sha1Naming>,
    new: &LockFile,
) -> Result<(), RunFault> {
    let mut writer = Counted::new(new.file()?);
    service.save(&mut writer)?;
    Ok(new.replace(rt)?)
}

/// Saves as `save` does, and keeps the lock file, so that the pool file can be saved again.
pub fn save_again(
    rt: &HostRuntime,
    service: &Service<Sha1Naming>,
    lock: &LockFile,
) -> Result<(), RunFault> {
    let next = lock.next(rt)?;
    let outcome = save_by(rt, service, lock, &next);
    if outcome.is_err() {
        next.remove(rt);
    }
    outcome
}

fn save_by(
    rt: &HostRuntime,
    service: &Service<Sha1Naming>,
    lock: &LockFile,
    next: &NextFile,
) -> Result<(), RunFault> {
    let mut writer = Counted::new(next.file());
    service.save(&mut writer)?;
    Ok(lock.replace_by(rt, next)?)
}
