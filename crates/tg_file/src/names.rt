//! What has a name in a folder.
use crate::fault::PathFault;
use std::io::ErrorKind;
use std::os::unix::fs::MetadataExt;
use std::{fs, io};

/// The length of the file with this name, or `None` if nothing has the name. A link, a folder, a device and a file with
/// a second name are refused. No link is followed at the end of the path.
pub(crate) fn file_length(rt: &HostRuntime, path: &str) -> Result<Option<u64>, PathFault> {
    let found = match fs::symlink_metadata(rt, path) {
        Ok(found) => found,
        Err(error) if error.kind() == ErrorKind::NotFound => return Ok(None),
        Err(error) => return Err(error.into()),
    };
    if found.is_symlink() {
        Err(PathFault::Link)
    } else if found.is_dir() {
        Err(PathFault::Folder)
    } else if !found.is_file() {
        Err(PathFault::NotAFile)
    } else if found.nlink() != 1 {
        Err(PathFault::SecondName)
    } else {
        Ok(Some(found.len()))
    }
}

/// Whether a name is free for a file. An empty file with this name is as good as none.
pub(crate) fn is_free(rt: &HostRuntime, path: &str) -> bool {
    matches!(file_length(rt, path), Ok(None | Some(0)))
}

/// The folder of a file that is there.
pub(crate) fn open_folder(rt: &HostRuntime, path: &str) -> io::Result<fs::File> {
    let mut folder = fs::canonicalize(rt, path)?;
    folder.pop();
    fs::File::open(rt, folder.as_str())
}
