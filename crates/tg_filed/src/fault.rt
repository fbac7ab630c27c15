//! Why no store is kept at a path.
use sqlite_disk::Disk;
use std::{fmt, io};
use tg_file::PathFault;
use tg_keep::FileFault;
use tg_kept::{Lost, NotOpened};
use thiserror::Error;

/// Why no store is begun at a path. Each message is written to follow the path and a colon.
#[derive(Clone, Copy, Debug, Error)]
pub enum BeginFault {
    /// The file can't be made at this path.
    #[error("{0}")]
    Path(PathFault),
    /// The lines of the opening can't be put into the new file.
    #[error("{0}")]
    File(FileFault),
    /// The new file can't get its name.
    #[error("the new file can't be renamed: {0}")]
    Rename(io::Error),
    /// The file has its name, but a crash may take the name away. The file may be opened.
    #[error("the file has its name, but its folder can't be synced: {0}")]
    Folder(io::Error),
}

impl From<PathFault> for BeginFault {
    fn from(why: PathFault) -> BeginFault {
        BeginFault::Path(why)
    }
}

/// Why no store goes on from the file at a path. Each message is written to follow the path and a colon.
#[derive(Drop)]
pub enum PathOpenFault<D: Disk> {
    /// The file can't be opened at this path.
    Path(PathFault),
    /// The file was opened, and no store goes on from it.
    Kept(NotOpened<D>),
}

impl<D: Disk> fmt::Display for PathOpenFault<D> {
    fn fmt<W: fmt::Write>(&self, f: &mut fmt::Formatter<W>) -> fmt::Result {
        match self {
            PathOpenFault::Path(why) => write!(f, "{why}"),
            PathOpenFault::Kept(refused) => write!(f, "{}", refused.why),
        }
    }
}

/// Why a run over a file ends early.
#[derive(Drop)]
pub enum RunFault<D: Disk> {
    /// No store goes on from the file.
    Open(PathOpenFault<D>),
    /// A batch couldn't be put into the file. Its replies weren't handed out.
    Lost(Lost<D>),
}

impl<D: Disk> fmt::Display for RunFault<D> {
    fn fmt<W: fmt::Write>(&self, f: &mut fmt::Formatter<W>) -> fmt::Result {
        match self {
            RunFault::Open(fault) => write!(f, "{fault}"),
            RunFault::Lost(lost) => write!(f, "{}", lost.why),
        }
    }
}
