//! How a run goes on from the history of a file.
ghost use Rattle.std.specs.Prelude.{◌≡◌, ◌≢◌, IfErr, IfOk, IfSome, MatchOption, OnOk, Some};
ghost use Rattle.tg_entries.specs.Kept.{IsTextOf};
ghost use Rattle.tg_revive.specs.Reviving.{entries_made_before};
ghost use Rattle.tg_threads.specs.Race.{MayRaceOn};
ghost use Rattle.tgstore.specs.Resumed.{IsAsked, IsOnwardAfter, IsOther, IsResumed, IsRunAfter, MayGoOnward, MeetsAsked, limit_of, workers_of};

use crate::boxes::new_drafts;
use crate::onward::{Onward, auditor_of, race_after};
use crate::settings::Asked;
use crate::start::ResumedStart;
use crate::stop::Stop;
use crate::streams::BLOCK;
use std::alloc::Global;
use std::io::{BufReader, Read};
use tg_entries::{History, HistoryStart, TextFault, read_history};
use tg_payload::LawPayload;
use tg_revive::{ByLaw, ReviveFault, store_after};
use tg_script::RunOn;
use tg_threads::RaceOn;
use thiserror::Error;

/// Why a run doesn't go on from a history. Nothing of the script was read.
#[derive(Clone, Copy, Debug, Error)]
pub enum HistoryFault {
    /// The file couldn't be read, or has no text of a history.
    #[error("--resume: {0}")]
    Text(TextFault),
    /// The words ask for another number of workers than the history begins with.
    #[error("--workers {asked} differs from the {has} workers at the head of the history: leave --workers out")]
    OtherWorkers { asked: u64, has: u64 },
    /// The words ask for another limit of vertices than the history has.
    #[error("--vertices {asked} differs from the limit {has} of the history: leave --vertices out")]
    OtherVertices { asked: u64, has: u64 },
    /// No store goes on from the history.
    #[error("--resume: {0}")]
    Store(ReviveFault),
    /// A race was to go on from the history, and nobody acts at its end.
    #[error("--race: nobody is active at the end of the history, so no thread runs a line: leave --race out")]
    NobodyActs,
}

/// Makes the store and the boxes from which a run goes on, and the auditor of a race. The store is the store after the
/// history whose text is in the file, and the boxes are new boxes of the stock. The history has to be as the words ask.
pub(crate) fn go_on_from<F: Read + Drop>(
    alloc: Global,
    file: F,
    start: &ResumedStart,
) -> Result<Onward<LawPayload>, Stop>
    ensures resumed { IfOk result (λ from. IfSome (F.remaining file) (λ text. IsResumed text start.now from)) }
    ensures ready { IfOk result MayGoOnward }
{
    match history_of(alloc, file, start.asked) {
        Ok(history) => onward_after(alloc, history, start),
        Err(fault) => Err(Stop::Resume(fault)),
    }
}

// The history whose text is in the file. It has to be as the words ask.
fn history_of<F: Read + Drop>(alloc: Global, file: F, asked: Asked) -> Result<History, HistoryFault>
    ensures text { IfOk result (λ history. IfSome (F.remaining file) (λ text. IsTextOf text history)) }
    ensures met { IfOk result (λ history. MeetsAsked asked history.start) }
{
    match read_file(alloc, file) {
        Ok(history) => match check_asked(&history.start, asked) {
            Ok(()) => Ok(history),
            Err(fault) => Err(fault),
        },
        Err(fault) => Err(HistoryFault::Text(fault)),
    }
}

// The history whose text is in the file.
fn read_file<F: Read + Drop>(alloc: Global, file: F) -> Result<History, TextFault>
    ensures { IfOk result (λ history. IfSome (F.remaining file) (λ text. IsTextOf text history)) }
{
    let mut reader = BufReader::with_capacity(alloc, BLOCK, file)?;
    read_history(alloc, &mut reader)
}

// Checks that the history is as the words ask. Workers come first.
fn check_asked(begin: &HistoryStart, asked: Asked) -> Result<(), HistoryFault>
    ensures met { OnOk result (MeetsAsked asked begin.now) }
    ensures refused { IfErr result (IsOther asked begin.now) }
{
    let has = workers_of(begin);
    if let Some(asked) = other_than(asked.workers, has) {
        return Err(HistoryFault::OtherWorkers { asked, has });
    }
    let has = limit_of(begin);
    if let Some(asked) = other_than(asked.max_vertices, has) {
        return Err(HistoryFault::OtherVertices { asked, has });
    }
    Ok(())
}

/// The number that the words give, if it is another one than this.
pub(crate) fn other_than(asked: Option<u64>, has: u64) -> Option<u64>
    ensures { MatchOption result (IsAsked asked has) (λ n. (asked ≡ Some n) × (n ≢ has)) }
{
    match asked {
        None => None,
        Some(n) if n == has => None,
        Some(n) => Some(n),
    }
}

// How many workers are named at the head of a history.
fn workers_of(begin: &HistoryStart) -> u64
    ensures { result ≡ workers_of begin.now }
{
    match begin {
        HistoryStart::Opened(opening) => opening.workers(),
        HistoryStart::Shown(snapshot) => snapshot.picture().subjects().len() as u64,
    }
}

// How many vertices may ever be made by a history.
fn limit_of(begin: &HistoryStart) -> u64
    ensures { result ≡ limit_of begin.now }
{
    match begin {
        HistoryStart::Opened(opening) => opening.max_vertices(),
        HistoryStart::Shown(snapshot) => snapshot.picture().limit(),
    }
}

// How many entries were made before a history.
fn entries_made_before(begin: &HistoryStart) -> u64
    ensures { result ≡ entries_made_before begin.now }
{
    match begin {
        HistoryStart::Opened(_) => 0,
        HistoryStart::Shown(snapshot) => snapshot.entries(),
    }
}

// What a run or a race goes on from after this history.
fn onward_after(
    alloc: Global,
    history: History,
    start: &ResumedStart,
) -> Result<Onward<LawPayload>, Stop>
    ensures after { IfOk result (IsOnwardAfter history start.now) }
    ensures ready { IfOk result MayGoOnward }
{
    if start.race {
        return match race_of(alloc, history, start) {
            Ok(on) => Ok(Onward::Race(on)),
            Err(stop) => Err(stop),
        };
    }
    match run_after(alloc, history, start) {
        Ok(from) => Ok(Onward::Lines(from)),
        Err(stop) => Err(stop),
    }
}

// What a race goes on from after this history. Its auditor is at the head of the history.
fn race_of(
    alloc: Global,
    history: History,
    start: &ResumedStart,
) -> Result<RaceOn<LawPayload>, Stop>
    ensures after { IfOk result (λ on. IsRunAfter history start.now on.from) }
    ensures ready { IfOk result MayRaceOn }
{
    let auditor = auditor_of(alloc, &history.start)?;
    match run_after(alloc, history, start) {
        Ok(from) => race_after(from, auditor),
        Err(stop) => {
            drop(auditor);
            Err(stop)
        }
    }
}

// What a run goes on from after this history.
fn run_after(
    alloc: Global,
    history: History,
    start: &ResumedStart,
) -> Result<RunOn<LawPayload>, Stop>
    ensures { IfOk result (IsRunAfter history start.now) }
{
    let stock = new_drafts(alloc, &start.stock)?;
    let skipped = entries_made_before(&history.start);
    let mut maker = ByLaw { alloc };
    match store_after(alloc, history, start.limits, &mut maker) {
        Ok(store) => Ok(RunOn {
            store,
            helpers: start.helpers,
            stock,
            skipped,
        }),
        Err(fault) => Err(Stop::Resume(HistoryFault::Store(fault))),
    }
}
