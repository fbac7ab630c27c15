//! What a run starts from, and what is wrong with it before any input is read.
ghost use Rattle.std.specs.Prelude.{◌≡◌, false, true, IfOk, IfErr, OnOk};
ghost use Rattle.tg_text.specs.Stock.{IsStockText};
ghost use Rattle.tgstore.specs.Ranges.{AreInRange};
ghost use Rattle.tgstore.specs.Starts.{MayHoldWorkers, IsReady, IsResumeFault, IsStartFault};

use crate::settings::{Asked, Options};
use std::alloc::{AllocError, Global};
use tg_script::{Helpers, Limits, Settings, StockFault, StockItem, read_stock};
use thiserror::Error;

/// The settings of a run, which it is given beside its script.
#[derive(Debug, Drop)]
pub struct Start {
    pub settings: Settings,
    /// Whether each worker's lines are run on a thread of their own.
    pub race: bool,
    /// Whether the text of the history is written in the place of replies.
    pub entries: bool,
    /// Whether it is said why a line is bad.
    pub why: bool,
    /// Whether a line that is denied or refused fails the run. A race isn't strict.
    pub strict: bool,
    /// The kinds of the boxes for the vertices that are made, in order.
    pub stock: Vec<StockItem>,
}

/// The settings of a run that goes on from a history, which it is given beside its script and the history.
#[derive(Debug, Drop)]
pub struct ResumedStart {
    pub helpers: Helpers,
    /// How many blocks the heap may have.
    pub limits: Limits,
    /// The numbers that the words ask of the history.
    pub asked: Asked,
    /// Whether entries are written in the place of replies.
    pub entries: bool,
    /// Whether it is said why a line is bad.
    pub why: bool,
    /// Whether a line that is denied or refused fails the run. A race isn't strict.
    pub strict: bool,
    /// Whether each worker's lines are run on a thread of their own.
    pub race: bool,
    /// The kinds of the boxes that are left to make, in order.
    pub stock: Vec<StockItem>,
}

/// Why a run can't start. The first reason that holds is returned, in this order. Only memory may run out before the
/// others are checked.
#[derive(Clone, Copy, PartialEq, Eq, Debug, Error)]
pub enum StartFault {
    /// The text is that of no stock.
    #[error("bad stock")]
    BadStock,
    /// Fewer vertices may be made than there are workers.
    #[error("bad limits")]
    BadLimits,
    /// A race was to be strict.
    #[error("--strict doesn't see the lines of a race: give --strict or --race, and not both")]
    StrictRace,
    /// There was no memory for the boxes.
    #[error("out of memory")]
    OutOfMemory,
}

impl From<AllocError> for StartFault {
    ghost use Rattle.std.specs.Prelude.{◌≡◌};
    ghost use Rattle.tgstore.specs.declared.start.StartFault.TheVariants.{OutOfMemory};

    ghost from_gives = { λ _ e. e ≡ OutOfMemory };

    fn from(_error: AllocError) -> StartFault {
        StartFault::OutOfMemory
    }
}

impl From<StockFault> for StartFault {
    ghost use Rattle.std.specs.Prelude.{◌≡◌};
    ghost use Rattle.tgstore.specs.Faults.{start_fault_of};

    ghost from_gives = { λ fault e. e ≡ start_fault_of fault };

    fn from(fault: StockFault) -> StartFault {
        match fault {
            StockFault::BadStock => StartFault::BadStock,
            StockFault::OutOfMemory => StartFault::OutOfMemory,
        }
    }
}

/// The start for which the options ask. It is refused with `BadStock`, then `BadLimits`, then `StrictRace`, exactly if
/// they hold, or with `OutOfMemory`. A bad stock is found whatever memory there is.
pub fn prepare(alloc: Global, options: &Options) -> Result<Start, StartFault>
    requires { AreInRange options.now.settings }
    ensures settings { IfOk result (λ start. (start.settings ≡ options.now.settings) × MayHoldWorkers start.settings) }
    ensures race { IfOk result (λ start. start.race ≡ options.now.race) }
    ensures entries { IfOk result (λ start. start.entries ≡ options.now.entries) }
    ensures why { IfOk result (λ start. start.why ≡ options.now.why) }
    ensures strict { IfOk result (λ start. start.strict ≡ options.now.strict) }
    ensures no_race { IfOk result (λ start. start.race ≡ true → start.strict ≡ false) }
    ensures stock { IfOk result (λ start. IsStockText options.now.stock.now start.stock.items) }
    ensures ready { IfOk result IsReady }
    ensures refused { IfErr result (IsStartFault options.now) }
{
    let settings = options.settings;
    let stock = read_stock(alloc, options.stock.as_bytes())?;
    if settings.max_vertices < settings.workers {
        return Err(StartFault::BadLimits);
    }
    if options.race && options.strict {
        return Err(StartFault::StrictRace);
    }
    Ok(Start {
        settings,
        race: options.race,
        entries: options.entries,
        why: options.why,
        strict: options.strict,
        stock,
    })
}

/// The start for which the options ask, if the run goes on from a history. It is refused with `BadStock`, then
/// `StrictRace`, exactly if they hold, or with `OutOfMemory`. A bad stock is found whatever memory there is.
pub fn prepare_resumed(alloc: Global, options: &Options) -> Result<ResumedStart, StartFault>
    ensures numbers { IfOk result (λ start. (start.helpers ≡ options.now.settings.helpers) × (start.limits ≡ options.now.settings.limits)) }
    ensures asked { IfOk result (λ start. start.asked ≡ options.now.asked) }
    ensures entries { IfOk result (λ start. start.entries ≡ options.now.entries) }
    ensures why { IfOk result (λ start. start.why ≡ options.now.why) }
    ensures strict { IfOk result (λ start. start.strict ≡ options.now.strict) }
    ensures stock { IfOk result (λ start. IsStockText options.now.stock.now start.stock.items) }
    ensures race { IfOk result (λ start. start.race ≡ options.now.race) }
    ensures no_race { IfOk result (λ start. start.race ≡ true → start.strict ≡ false) }
    ensures refused { IfErr result (IsResumeFault options.now) }
{
    let stock = read_stock(alloc, options.stock.as_bytes())?;
    if options.race && options.strict {
        return Err(StartFault::StrictRace);
    }
    let Settings {
        helpers,
        limits,
        ..
    } = options.settings;
    Ok(ResumedStart {
        helpers,
        limits,
        asked: options.asked,
        entries: options.entries,
        why: options.why,
        strict: options.strict,
        race: options.race,
        stock,
    })
}
