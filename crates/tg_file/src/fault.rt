//! Why a file isn't opened or made at a path.
use sqlite_std_file::OpenError;
use std::alloc::AllocError;
use std::io;
use std::io::ErrorKind;
use thiserror::Error;

/// Why a file isn't opened or made. Each message is written to follow the path and a colon.
#[derive(Clone, Copy, Debug, Error)]
pub enum PathFault {
    /// A file was to be opened, and there is none.
    #[error("no file has this name: begin a store here, or give the name of its file")]
    Missing,
    /// A file was to be made, and there is one.
    #[error("a file has this name already: open it, or give another name")]
    AlreadyThere,
    /// A file was to be made, and something has its other name.
    #[error("something has this name with `.new` after it: remove it, if a call left it there that was cut off")]
    NewNameTaken,
    /// A file was to be made, and its folder isn't there.
    #[error("the folder of this name isn't there: make it first")]
    NoFolder,
    /// The name is a link.
    #[error("the name is a link: give the name that it leads to")]
    Link,
    /// The name is a folder.
    #[error("the name is a folder: give the name of a file in it")]
    Folder,
    /// The name is a device, a pipe or a socket.
    #[error("the name is neither a file nor a folder: give the name of a file")]
    NotAFile,
    /// The file has a second name, so another program may change it by that name.
    #[error("the file has a second name, by a hard link: remove one of the names, or copy the file")]
    SecondName,
    /// Another process, or another part of this one, has the file open.
    #[error("the file is in use: end the process that has it open")]
    InUse,
    /// The name with `-wal` after it isn't an empty file.
    #[error("the name with `-wal` after it is another program's: give another name, or move that file")]
    OthersLog,
    /// The name with `-journal` after it has something to play back.
    #[error("the name with `-journal` after it is another program's: give another name, or move that file")]
    OthersJournal,
    /// This process may not use the file or its folder.
    #[error("no permission to read and write the file, and to make a file in its folder")]
    NoPermission,
    /// A torn write was supposed to leave any bytes. Files of lines need more.
    #[error("files of lines suppose that a torn write leaves each byte old or new: open it as `Unknown`")]
    TooWary,
    /// There was no memory for a name.
    #[error("out of memory")]
    OutOfMemory,
    /// Another call of the system failed.
    #[error("the file can't be opened or made: {0}")]
    Io(io::Error),
}

impl From<io::Error> for PathFault {
    fn from(error: io::Error) -> PathFault {
        match error.kind() {
            ErrorKind::PermissionDenied => PathFault::NoPermission,
            ErrorKind::OutOfMemory => PathFault::OutOfMemory,
            _ => PathFault::Io(error),
        }
    }
}

impl From<AllocError> for PathFault {
    fn from(_error: AllocError) -> PathFault {
        PathFault::OutOfMemory
    }
}

impl From<OpenError> for PathFault {
    fn from(error: OpenError) -> PathFault {
        match error {
            OpenError::Io(error) => error.into(),
            OpenError::OutOfMemory => PathFault::OutOfMemory,
            OpenError::Busy => PathFault::InUse,
            OpenError::HotJournal => PathFault::OthersJournal,
        }
    }
}
