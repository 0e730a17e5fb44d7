//! The lock file beside a file, which takes its name when it replaces it. Whoever wants to replace
//! the file takes the lock file before the file is read, so only one at a time works on it.
//!
//! If a symbolic link names the file, the locked file is the one to which the link leads: the lock
//! file is beside that one, and the link stays.

use crate::links::followed;
use crate::named_files::{has_name, make_new, remove_if_named};
use crate::next_file::{NextFile, name_of, remove_left};
use crate::replacements::put;
use byte_devices::WriteFault;
use std::fs::{File, OpenOptions};
use std::io::ErrorKind;
use std::{fs, io};

// What the name of the lock file has after the name of the locked file.
const NEW: &str = ".new";

/// The lock file of one file, held. Nobody else has it while this value lasts. If the process is
/// killed, the lock file stays, unlocked, and the next `take` removes it.
#[derive(Drop)]
pub struct LockFile {
    locked: String,
    name: String,
    // An error if no lock file could be made; `replace` is then refused with it.
    file: Result<File, WriteFault>,
}

impl LockFile {
    /// Makes the lock file of the file at `path`, and locks it. `path` may lead to no file yet.
    /// Removes the lock file and the next file of a process that was killed.
    ///
    /// `Device` (68) if somebody else has the lock file, if something that is no file has its name,
    /// as a symbolic link, or if the links of `path` cannot be followed. `Memory` (90) if memory ran
    /// out. If the lock file cannot be made for another reason, as in a folder that may not be
    /// written, `take` succeeds, and `file`, `replace` and `next` are refused (68).
    pub fn take(rt: &HostRuntime, path: &str) -> Result<LockFile, WriteFault> {
        let locked = followed(rt, path)?;
        let name = format!(in rt.alloc(); "{locked}{NEW}")?;
        let next = name_of(rt, &locked)?;
        let file = match make(rt, &locked, &name) {
            Ok(file) => {
                remove_left(rt, &next);
                Ok(file)
            }
            Err(error) if refuses(error.kind()) => return Err(WriteFault::from(error)),
            Err(error) => Err(WriteFault::from(error)),
        };
        Ok(LockFile { locked, name, file })
    }

    /// The path of the locked file, with symbolic links followed.
    pub fn locked_path(&self) -> &str {
        &self.locked
    }

    /// The lock file, which is empty until it is written; or the fault for which it was not made.
    pub fn file(&self) -> Result<&File, WriteFault> {
        match &self.file {
            Ok(file) => Ok(file),
            Err(fault) => Err(*fault),
        }
    }

    /// Gives the lock file the name of the locked file, once it is on the disk, and syncs the
    /// folder. It keeps the locked file's mode, and its owner and group if the system allows it.
    /// The lock ends with that.
    ///
    /// `Device` (68) if a call fails, or if another file has the name of the lock file. The locked
    /// file is then as it was, unless only the sync of the folder failed: it is then the new file,
    /// and may be the old one again after a loss of power.
    pub fn replace(&self, rt: &HostRuntime) -> Result<(), WriteFault> {
        put(rt, self.file()?, &self.name, &self.locked)
    }

    /// Makes a file that can replace the locked file while the lock file stays, and stays locked.
    ///
    /// `Device` (68) if the lock file was not made, or if this file cannot be made. `Memory` (90)
    /// if memory ran out.
    pub fn next(&self, rt: &HostRuntime) -> Result<NextFile, WriteFault> {
        self.file()?;
        NextFile::make(rt, &self.locked)
    }

    /// Does what `replace` does, with `next` in place of the lock file, which stays.
    ///
    /// `Device` (68) if a call fails, or if another file has the name of the lock file or of
    /// `next`. The locked file is then as after a refused `replace`.
    pub fn replace_by(&self, rt: &HostRuntime, next: &NextFile) -> Result<(), WriteFault> {
        if !has_name(rt, &self.name, self.file()?)? {
            return Err(WriteFault::Device);
        }
        next.put(rt, &self.locked)
    }

    /// Removes the lock file, unless its name belongs to another file. A failure is ignored: the
    /// next `take` removes the lock file.
    pub fn remove(&self, rt: &HostRuntime) {
        if let Ok(file) = &self.file {
            remove_if_named(rt, &self.name, file);
        }
    }
}

// Whether `take` is refused because no lock file could be made: somebody else has it, or memory ran
// out.
fn refuses(kind: ErrorKind) -> bool {
    matches!(
        kind,
        ErrorKind::WouldBlock | ErrorKind::AlreadyExists | ErrorKind::OutOfMemory
    )
}

// The file is always created anew, so nobody has it open already or has chosen where it leads. It
// is used through a duplicate, whose descriptor is not that of a standard stream: if a standard
// stream is closed, the file gets its descriptor, and what is written to the stream would go into
// the file.
fn make(rt: &HostRuntime, locked: &str, name: &str) -> io::Result<File> {
    remove_unlocked(rt, name)?;
    let file = make_new(rt, locked, name)?;
    let held = hold(rt, name, &file);
    if matches!(&held, Err(error) if error.kind() != ErrorKind::WouldBlock) {
        let _ = fs::remove_file(rt, name);
    }
    held
}

// The file that was just made, locked.
fn hold(rt: &HostRuntime, name: &str, made: &File) -> io::Result<File> {
    let file = made.try_clone()?;
    lock(rt, name, &file)?;
    Ok(file)
}

// Removes the lock file of a process that was killed. Only a file is opened: a link would lead
// elsewhere, and the open of a FIFO waits for a reader.
fn remove_unlocked(rt: &HostRuntime, name: &str) -> io::Result<()> {
    match fs::symlink_metadata(rt, name) {
        Ok(found) if found.is_file() => remove_file_left(rt, name),
        Ok(_) => Err(io::Error::from(ErrorKind::AlreadyExists)),
        Err(error) if error.kind() == ErrorKind::NotFound => Ok(()),
        Err(error) => Err(error),
    }
}

// Somebody else may have taken the name away since it was looked at.
fn remove_file_left(rt: &HostRuntime, name: &str) -> io::Result<()> {
    match OpenOptions::new().write(true).open(rt, name) {
        Ok(file) => {
            lock(rt, name, &file)?;
            fs::remove_file(rt, name)
        }
        Err(error) if error.kind() == ErrorKind::NotFound => Ok(()),
        Err(error) => Err(error),
    }
}

// Locks a file of this name. Only the holder of the lock takes the name away. So if the file still
// has its name when it is locked, it is ours; otherwise somebody else was quicker.
fn lock(rt: &HostRuntime, name: &str, file: &File) -> io::Result<()> {
    file.try_lock()?;
    if has_name(rt, name, file)? {
        Ok(())
    } else {
        Err(io::Error::from(ErrorKind::WouldBlock))
    }
}
