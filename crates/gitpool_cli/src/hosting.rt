//! A run that stays: it answers steps and the operator's requests, and saves whenever it is asked
//! to. The lock file of the pool file is held from the begin of the run to its end.

use crate::pools::{Missing, load, save_again};
use crate::run_fault::RunFault;
use gitpool::{Counted, PoolPlace, Service, Sha1Naming, WriteFault};
use lock_files::{LockFile, NextFile};
use std::io::BufReader;
use std::mem::forget;

// The place of a locked pool file.
#[derive(Drop)]
struct LockedPlace<'a> {
    rt: &'a HostRuntime,
    lock: &'a LockFile,
}

impl<'a> PoolPlace for LockedPlace<'a> {
    type NewFile = NextFile;

    fn begin(&mut self) -> Result<NextFile, WriteFault> {
        self.lock.next(self.rt)
    }

    fn put_in_place(&mut self, new: NextFile) -> Result<(), WriteFault> {
        match self.lock.replace_by(self.rt, &new) {
            Ok(()) => Ok(()),
            Err(fault) => {
                new.remove(self.rt);
                Err(fault)
            }
        }
    }

    fn give_up(&mut self, new: NextFile) {
        new.remove(self.rt);
    }
}

/// Answers frames of steps and of requests, up to the end of the input, and saves at the end, even
/// after frames that were refused. If another run works on the pool file, this one is refused (68).
pub fn run_hosted(rt: &HostRuntime, pool: &str) -> Result<(), RunFault> {
    let lock = LockFile::take(rt, pool)?;
    let outcome = load_and_host(rt, &lock);
    lock.remove(rt);
    outcome
}

fn load_and_host(rt: &HostRuntime, lock: &LockFile) -> Result<(), RunFault> {
    let mut service = load(rt, lock.locked_path(), Missing::Empty)?;
    let outcome = host(rt, &mut service, lock);
    let saved = save_again(rt, &service, lock);
    forget(service);
    outcome.and(saved)
}

fn host(
    rt: &HostRuntime,
    service: &mut Service<Sha1Naming>,
    lock: &LockFile,
) -> Result<(), RunFault> {
    let mut place = LockedPlace { rt, lock };
    let mut reader = Counted::new(BufReader::new(rt.alloc(), rt.stdin())?);
    let mut writer = Counted::new(rt.stdout());
    Ok(gitpool::host(rt.alloc(), service, &mut place, &mut reader, &mut writer)?)
}
