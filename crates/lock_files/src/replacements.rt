//! A file that takes the name of another one, with its mode, and survives a loss of power.

use crate::named_files::has_name;
use byte_devices::WriteFault;
use std::fs::{File, Permissions};
use std::os::unix::fs::{MetadataExt, PermissionsExt, fchown};
use std::os::unix::io::AsFd;
use std::path::Path;
use std::{fs, io};

// The bits of a mode that are kept with the group.
const KEPT: u32 = 0o777;

// The owner's bits of a mode, and those of all others.
const OF_OWNER: u32 = 0o700;

const OF_OTHERS: u32 = 0o007;

// How far the group's bits of a mode are from those of all others.
const GROUP_TO_OTHERS: u32 = 3;

/// Gives `file`, which has the name `name`, the name of the file at `locked`, once it is on the
/// disk, and then syncs the folder. The file gets the mode of the file that it replaces, and its
/// owner and group if the system allows it.
///
/// `Device` (68) if a call fails, or if another file has the name `name`. The file at `locked` is
/// then as it was, unless only the sync of the folder failed: it is then the new file, and may be
/// the old one again after a loss of power.
pub(crate) fn put(
    rt: &HostRuntime,
    file: &File,
    name: &str,
    locked: &str,
) -> Result<(), WriteFault> {
    keep_mode(rt, locked, file);
    file.sync_all()?;
    let folder = folder_of(rt, locked)?;
    if !has_name(rt, name, file)? {
        return Err(WriteFault::Device);
    }
    fs::rename(rt, name, locked)?;
    folder.sync_all()?;
    Ok(())
}

// The folder of the file at `path`, open.
fn folder_of(rt: &HostRuntime, path: &str) -> io::Result<File> {
    match Path::new(path).parent() {
        Some(folder) if !folder.as_str().is_empty() => File::open(rt, folder),
        _ => File::open(rt, "."),
    }
}

// Gives the new file the owner, the group and the mode of the locked file, as far as the system
// allows it. What the system refuses only leaves the file to fewer users.
fn keep_mode(rt: &HostRuntime, locked: &str, file: &File) {
    let Ok(old) = fs::metadata(rt, locked) else {
        return;
    };
    let _ = fchown(file.as_fd(), Some(old.uid()), None);
    let mode = match fchown(file.as_fd(), None, Some(old.gid())) {
        Ok(()) => old.mode() & KEPT,
        Err(_) => without_group(old.mode()),
    };
    let _ = file.set_permissions(Permissions::from_mode(mode));
}

// The mode of a file that has lost its group. The members of the old group are now among the
// others, so the others may do only what both could. The new group may do nothing.
fn without_group(mode: u32) -> u32 {
    let of_both = mode & (mode >> GROUP_TO_OTHERS) & OF_OTHERS;
    mode & OF_OWNER | of_both
}
