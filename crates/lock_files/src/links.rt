//! Files that are named by a symbolic link: symlink(7).

use byte_devices::WriteFault;
use std::fs;
use std::io::ErrorKind;
use std::path::{Path, PathBuf};

// The most links that are followed in a chain: as many as Linux follows.
const LINKS_LIMIT: u8 = 40;

/// The path of the file to which `path` leads: `path` itself, unless it names a symbolic link.
/// Links are followed to their end, even if there is no file yet.
///
/// `Device` (68) if a link cannot be read, or if there are more than 40 in a chain, as in a circle.
/// `Memory` (90) if memory ran out.
pub(crate) fn followed(rt: &HostRuntime, path: &str) -> Result<String, WriteFault> {
    let mut path = Path::new(path).to_path_buf(rt.alloc())?;
    for _ in 0..LINKS_LIMIT {
        if !is_link(rt, path.as_path())? {
            return Ok(path.into_string());
        }
        path = target(rt, path.as_path())?;
    }
    if is_link(rt, path.as_path())? {
        return Err(WriteFault::Device);
    }
    Ok(path.into_string())
}

fn is_link(rt: &HostRuntime, path: Path<'_>) -> Result<bool, WriteFault> {
    match fs::symlink_metadata(rt, path) {
        Ok(found) => Ok(found.is_symlink()),
        Err(error) if error.kind() == ErrorKind::NotFound => Ok(false),
        Err(error) => Err(WriteFault::from(error)),
    }
}

// The target of a link is relative to the folder of the link, unless it begins at the root.
fn target(rt: &HostRuntime, link: Path<'_>) -> Result<PathBuf, WriteFault> {
    let said = link.read_link(rt)?;
    match link.parent() {
        Some(folder) => Ok(folder.join(rt.alloc(), said.as_path())?),
        None => Ok(said),
    }
}
