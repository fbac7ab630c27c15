//! The disk of a file at a path.
ghost use Rattle.std.specs.Prelude.{◌≡◌, false, IfOk, OnOk};
ghost use Rattle.tg_file.specs.Found.{IsAsFound};

use crate::fault::PathFault;
use crate::names::{file_length, is_free, open_folder};
use crate::new_name::NewName;
use sqlite_disk::{Disk, Files, Start};
use sqlite_std_file::{FileFrom, open};
use std::fs;
use std::io::ErrorKind;

/// A file that was made under another name, and its names.
#[derive(Drop)]
pub struct NewFile<D: Disk> {
    pub disk: D,
    pub name: NewName,
}

/// Opens and locks the file at a path. The lock is there until the disk is dropped. The file is as it was, and a crash
/// leaves it so.
///
/// The refusals are those of [`PathFault`], of which [`PathFault::Missing`] says that no file has the name. A refused
/// call changes no file. It may leave an empty file PATH-wal.
pub fn open_disk<S: Start>(rt: &HostRuntime, path: &str, start: S) -> Result<FileFrom<S>, PathFault>
    ensures { IfOk result (IsAsFound ⟦<FileFrom<S> as Disk>⟧ S.Start.db) }
{
    match file_length(rt, path)? {
        Some(_) => lock_disk(rt, path, start),
        None => Err(PathFault::Missing),
    }
}

/// Makes and locks a file PATH.new, if nothing has the name PATH. The file is empty. It gets the name PATH by
/// [`NewName::rename`], once its contents are on the disk.
///
/// The refusals are those of [`PathFault`]. [`PathFault::AlreadyThere`] says that a file has the name PATH. A refused
/// call changes no file. It may leave an empty file PATH.new, or PATH.new-wal. The next call takes both as its own.
pub fn make_disk<S: Start>(
    rt: &HostRuntime,
    path: &str,
    start: S,
) -> Result<NewFile<FileFrom<S>>, PathFault>
    ensures found { IfOk result (λ made. IsAsFound ⟦<FileFrom<S> as Disk>⟧ S.Start.db made.disk) }
    ensures named { IfOk result (λ made. (made.name.is_renamed ≡ false) × (made.name.is_lasting ≡ false)) }
{
    refuse_if_there(rt, path)?;
    let first = format!(in rt.alloc(); "{path}.new")?;
    if !is_free(rt, first.as_str()) {
        return Err(PathFault::NewNameTaken);
    }
    let disk = match lock_disk(rt, first.as_str(), start) {
        Err(PathFault::Io(error)) if error.kind() == ErrorKind::NotFound => {
            return Err(PathFault::NoFolder);
        }
        locked => locked?,
    };
    // Another process may have made the file, before this one had the lock.
    refuse_if_there(rt, path)?;
    let folder = open_folder(rt, first.as_str())?;
    let last = String::from_str(rt.alloc(), path)?;
    let name = NewName {
        first,
        last,
        folder,
        is_renamed: false,
        is_lasting: false,
    };
    Ok(NewFile { disk, name })
}

// Refuses a path at which something is.
fn refuse_if_there(rt: &HostRuntime, path: &str) -> Result<(), PathFault> {
    match file_length(rt, path)? {
        Some(_) => Err(PathFault::AlreadyThere),
        None => Ok(()),
    }
}

// Opens and locks a file, or makes it, and removes the empty log that comes with it.
fn lock_disk<S: Start>(rt: &HostRuntime, path: &str, start: S) -> Result<FileFrom<S>, PathFault>
    ensures { IfOk result (IsAsFound ⟦<FileFrom<S> as Disk>⟧ S.Start.db) }
{
    if !S::mixes() {
        return Err(PathFault::TooWary);
    }
    let log_path = format!(in rt.alloc(); "{path}-wal")?;
    if !is_free(rt, log_path.as_str()) {
        return Err(PathFault::OthersLog);
    }
    let Files { mut log, db } = open(rt, path, start)?;
    if log.len()? != 0 {
        return Err(PathFault::OthersLog);
    }
    fs::remove_file(rt, log_path.as_str())?;
    Ok(db)
}
