//! Why the program ends before the whole script was run.
ghost use Rattle.std.specs.Prelude.{◌≡◌};
ghost use Rattle.tgstore.specs.Faults.{status_of_stop};

use crate::keeping::KeepFault;
use crate::resuming::HistoryFault;
use crate::start::StartFault;
use std::alloc::{AllocError, AllocFailed};
use tg_script::ScriptFault;
use tg_threads::RaceFault;
use thiserror::Error;

/// Why the program ended before the whole script was run. It is the line on standard error, after the program's name.
#[derive(Clone, Copy, Debug, Error)]
pub enum Stop {
    /// A word of the command line is no text.
    #[error("bad words")]
    BadWords,
    /// The help couldn't be written.
    #[error("write failed")]
    HelpUnwritten,
    /// Nothing was read, since a run can't start.
    #[error(transparent)]
    Start(StartFault),
    /// Nothing of the script was read, since the run can't go on from the history.
    #[error(transparent)]
    Resume(HistoryFault),
    /// Nothing of the script was read, since what is asked for can't be kept in the file.
    #[error(transparent)]
    Keep(KeepFault),
    /// The run met this fault.
    #[error(transparent)]
    Script(ScriptFault),
    /// The race met this fault.
    #[error(transparent)]
    Race(RaceFault),
}

/// Why the program ended, and why a line of the script is bad, if that was asked for.
#[derive(Clone, Copy)]
pub(crate) struct Failure {
    pub stop: Stop,
    pub reason: Option<&'static str>,
}

impl From<Stop> for Failure {
    ghost use Rattle.std.specs.Prelude.{◌≡◌};

    ghost from_gives = { λ stop failure. failure.stop ≡ stop };

    fn from(stop: Stop) -> Failure {
        Failure { stop, reason: None }
    }
}

impl From<AllocError> for Stop {
    ghost use Rattle.std.specs.Prelude.{◌≡◌};
    ghost use Rattle.tgstore.specs.declared.start.StartFault.TheVariants.{OutOfMemory};
    ghost use Rattle.tgstore.specs.declared.stop.Stop.TheVariants.{Start};

    ghost from_gives = { λ _ stop. stop ≡ Start OutOfMemory };

    fn from(_error: AllocError) -> Stop {
        Stop::Start(StartFault::OutOfMemory)
    }
}

impl<T: Drop> From<AllocFailed<T>> for Stop {
    ghost use Rattle.std.specs.Prelude.{◌≡◌};
    ghost use Rattle.tgstore.specs.declared.start.StartFault.TheVariants.{OutOfMemory};
    ghost use Rattle.tgstore.specs.declared.stop.Stop.TheVariants.{Start};

    ghost from_gives = { λ _ stop. stop ≡ Start OutOfMemory };

    fn from(_refused: AllocFailed<T>) -> Stop {
        Stop::Start(StartFault::OutOfMemory)
    }
}

impl Stop {
    /// The exit status. It is 2 if the words of the command line are at fault, else 1.
    pub fn status(self) -> u8
        ensures { result ≡ status_of_stop self }
    {
        match self {
            Stop::BadWords
            | Stop::Start(StartFault::BadStock | StartFault::BadLimits | StartFault::StrictRace)
            | Stop::Keep(_)
            | Stop::Resume(
                HistoryFault::OtherWorkers { .. }
                | HistoryFault::OtherVertices { .. }
                | HistoryFault::NobodyActs,
            ) => 2,
            Stop::HelpUnwritten
            | Stop::Start(StartFault::OutOfMemory)
            | Stop::Resume(HistoryFault::Text(_) | HistoryFault::Store(_))
            | Stop::Script(_)
            | Stop::Race(_) => 1,
        }
    }
}
