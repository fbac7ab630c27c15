//! The history of a kept file that the words of the command line name.
ghost use Rattle.std.specs.Prelude.{ℕ, List, IfOk, OnOk};
ghost use Rattle.tg_entries.specs.Kept.{IsTextOf};
ghost use Rattle.tg_found.specs.Kept.{kept_text};
ghost use Rattle.tg_keep.specs.Opened.{MayOpen};

use crate::fault::PlainFault;
use std::fs::{self, Files};
use tg_entries::History;
use tg_found::{KeptFault, TornEnd, UnreadFile, kept_history};
use tg_keep::FileFault;

/// A kept file that a program was given.
#[derive(Clone, Copy)]
pub(crate) struct KeptFile<'a> {
    /// The name of the program.
    pub(crate) program: &'a str,
    /// The name of the file.
    pub(crate) path: &'a str,
}

impl KeptFile<'_> {
    /// The history that the file says, up to its last whole line. An end that was cut off is reported on standard
    /// error. `Kept` if the file isn't read, and then standard error says why.
    pub(crate) fn history<R: AllocGlobal + Eprint + Files>(
        self,
        rt: &R,
    ) -> Result<History, PlainFault>
        ensures { IfOk result (λ history. (file : List ℕ) × MayOpen file × IsTextOf (kept_text file) history) }
    {
        match fs::read(rt, self.path) {
            Ok(file) => self.history_in(rt, file.as_slice()),
            Err(error) => Err(self.refuse(rt, &[], KeptFault::File(FileFault::Io(error)))),
        }
    }

    // The history that these bytes of the file say.
    fn history_in<R: AllocGlobal + Eprint>(self, rt: &R, file: &[u8]) -> Result<History, PlainFault>
        ensures text { IfOk result (IsTextOf (kept_text file.now)) }
        ensures opens { OnOk result (MayOpen file.now) }
    {
        match kept_history(rt.alloc(), file) {
            Ok(kept) => {
                self.report(rt, kept.torn);
                Ok(kept.history)
            }
            Err(why) => Err(self.refuse(rt, file, why)),
        }
    }

    // Reports the end that was cut off, if there is one.
    fn report<R: Eprint>(self, rt: &R, torn: Option<TornEnd>) {
        let KeptFile { program, path } = self;
        if let Some(end) = torn {
            let _ = eprintln!(rt; "{program}: {path}: {end}");
        }
    }

    // Says why the file isn't read, and what would be right. The fault that the program ends with.
    fn refuse<R: Eprint>(self, rt: &R, bytes: &[u8], why: KeptFault) -> PlainFault {
        let KeptFile { program, path } = self;
        let unread = UnreadFile { bytes, why };
        let _ = match unread.advice() {
            Some(advice) => eprintln!(rt; "{program}: {path}: {unread}; {advice}"),
            None => eprintln!(rt; "{program}: {path}: {unread}"),
        };
        PlainFault::Kept(why)
    }
}
