//! Why a run on a kept store ends early.
use tg_keep::FileFault;
use tg_script::ScriptFault;
use thiserror::Error;

/// Why a run on a kept store ended before the end of its script.
#[derive(Clone, Copy, Debug, Error)]
pub enum KeptFault {
    /// The script met this fault. All lines before it were answered, and their entries are in the file. `OutOfMemory`
    /// says that there was no memory for a part or for its replies. Then no line of that part was answered.
    #[error("{0}")]
    Script(ScriptFault),
    /// The entries of a part couldn't be put into the file, or the file couldn't be closed. No line of that part was
    /// answered.
    #[error("{0}")]
    Lost(FileFault),
}
