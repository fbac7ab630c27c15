//! Why a kept file isn't opened again.
use tg_entries::TextFault;
use tg_keep::FileFault;
use tg_revive::ReviveFault;
use thiserror::Error;

/// Why no store goes on from a file.
#[derive(Clone, Copy, Debug, Error)]
pub enum KeptOpenFault {
    /// The file wasn't opened: a call of the disk failed, memory ran out, the file is no kept file, or it is damaged.
    #[error("{0}")]
    File(FileFault),
    /// The lines of the file are none of a legal history. The number is that of the line in the file, counted from 1.
    /// Or memory ran out while they were read.
    #[error("the file's history: {0}")]
    Text(TextFault),
    /// There is no room in the heap for the store of this history.
    #[error("the file's store: {0}")]
    Store(ReviveFault),
}

impl From<FileFault> for KeptOpenFault {
    ghost use Rattle.std.specs.Prelude.{◌≡◌};
    ghost use Rattle.tg_kept.specs.declared.fault.KeptOpenFault.TheVariants.{File};

    ghost from_gives = { λ why fault. fault ≡ File why };

    fn from(why: FileFault) -> KeptOpenFault {
        KeptOpenFault::File(why)
    }
}

impl From<TextFault> for KeptOpenFault {
    ghost use Rattle.std.specs.Prelude.{◌≡◌};
    ghost use Rattle.tg_kept.specs.declared.fault.KeptOpenFault.TheVariants.{Text};

    ghost from_gives = { λ why fault. fault ≡ Text why };

    fn from(why: TextFault) -> KeptOpenFault {
        KeptOpenFault::Text(why)
    }
}

impl From<ReviveFault> for KeptOpenFault {
    ghost use Rattle.std.specs.Prelude.{◌≡◌};
    ghost use Rattle.tg_kept.specs.declared.fault.KeptOpenFault.TheVariants.{Store};

    ghost from_gives = { λ why fault. fault ≡ Store why };

    fn from(why: ReviveFault) -> KeptOpenFault {
        KeptOpenFault::Store(why)
    }
}
