//! Open files that have a name in a folder: whether a file still has its name, and files that are
//! made anew under one.

use std::fs::{File, OpenOptions};
use std::io::ErrorKind;
use std::os::unix::fs::{MetadataExt, OpenOptionsExt};
use std::{fs, io};

// The mode of a new file beside a locked file, until it has that of the locked file.
const PRIVATE: u32 = 0o600;

// The mode of a new file if there is no locked file, less the bits that umask(2) takes away.
const SHARED: u32 = 0o666;

/// Whether this file has the name still. A link of that name is not followed.
pub(crate) fn has_name(rt: &HostRuntime, name: &str, file: &File) -> io::Result<bool> {
    match fs::symlink_metadata(rt, name) {
        Ok(named) => {
            let held = file.metadata()?;
            Ok(named.dev() == held.dev() && named.ino() == held.ino())
        }
        Err(error) if error.kind() == ErrorKind::NotFound => Ok(false),
        Err(error) => Err(error),
    }
}

/// Makes a file of this name, to be written, if nothing has the name yet. Only its owner may read
/// it if there is a file at `locked`.
pub(crate) fn make_new(rt: &HostRuntime, locked: &str, name: &str) -> io::Result<File> {
    let mode = if fs::exists(rt, locked)? {
        PRIVATE
    } else {
        SHARED
    };
    OpenOptions::new()
        .write(true)
        .create_new(true)
        .mode(mode)
        .open(rt, name)
}

/// Removes the file of this name if it is still this one. A failure is ignored.
pub(crate) fn remove_if_named(rt: &HostRuntime, name: &str, file: &File) {
    if matches!(has_name(rt, name, file), Ok(true)) {
        let _ = fs::remove_file(rt, name);
    }
}
