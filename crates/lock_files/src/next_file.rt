//! A file that is to replace a locked file while the lock stays, so that whoever holds the lock can
//! replace the locked file again and again.

use crate::named_files::{make_new, remove_if_named};
use crate::replacements::put;
use byte_devices::WriteFault;
use std::fs::File;
use std::io::Write;
use std::{fs, io};

// What the name of the next file has after the name of the locked file.
const NEXT: &str = ".next";

/// A file beside a locked file. `LockFile::next` makes it, and `LockFile::replace_by` gives it the
/// name of the locked file. If the process is killed before that, it stays, and the next
/// `LockFile::take` removes it.
#[derive(Drop)]
pub struct NextFile {
    name: String,
    file: File,
}

impl NextFile {
    // Whoever calls this holds the lock, so what has the name is left from an earlier run.
    pub(crate) fn make(rt: &HostRuntime, locked: &str) -> Result<NextFile, WriteFault> {
        let name = name_of(rt, locked)?;
        remove_left(rt, &name);
        let made = make_new(rt, locked, &name)?;
        match made.try_clone() {
            Ok(file) => Ok(NextFile { name, file }),
            Err(error) => {
                remove_left(rt, &name);
                Err(WriteFault::from(error))
            }
        }
    }

    /// The file, which is empty until it is written.
    pub fn file(&self) -> &File {
        &self.file
    }

    /// Removes the file, unless its name belongs to another file. A failure is ignored: the next
    /// `LockFile::next` or `LockFile::take` removes it.
    pub fn remove(&self, rt: &HostRuntime) {
        remove_if_named(rt, &self.name, &self.file);
    }

    // Gives the file the name of the locked file. It is synced before, and its folder after.
    pub(crate) fn put(&self, rt: &HostRuntime, locked: &str) -> Result<(), WriteFault> {
        put(rt, &self.file, &self.name, locked)
    }
}

impl Write for NextFile {
    fn write(&mut self, buf: &[u8]) -> io::Result<usize> {
        self.file.write(buf)
    }

    fn flush(&mut self) -> io::Result<()> {
        self.file.flush()
    }
}

/// The name of the next file of the locked file at `locked`. `Memory` (90) if memory ran out.
pub(crate) fn name_of(rt: &HostRuntime, locked: &str) -> Result<String, WriteFault> {
    Ok(format!(in rt.alloc(); "{locked}{NEXT}")?)
}

/// Removes the next file of a process that was killed. Whoever calls this holds the lock. A failure
/// is ignored: no next file can then be made.
pub(crate) fn remove_left(rt: &HostRuntime, name: &str) {
    let _ = fs::remove_file(rt, name);
}
