//! A run on a store that is kept in a file.
ghost use Rattle.std.specs.Prelude.{◌≡◌, IfNone, IfOk, IfSome, OnOk};
ghost use Rattle.tg_entries.specs.declared.kept.HistoryStart.TheVariants.{Opened};
ghost use Rattle.tg_script.specs.Parts.{IsWaiting};
ghost use Rattle.tgstore.specs.Keeping.{IsKeepFault, IsKeptAlone};
ghost use Rattle.tgstore.specs.Ranges.{AreInRange};
ghost use Rattle.tgstore.specs.Resumed.{MeetsAsked};
ghost use Rattle.tgstore.specs.Starts.{IsReady};

use crate::boxes::new_drafts;
use crate::host::{Handles, RunHost};
use crate::kept_streams::{OpenedStreams, Streams, open_streams, serve_kept};
use crate::on_threads::OnThreads;
use crate::resuming::other_than;
use crate::settings::{Asked, Options};
use crate::start::{Start, StartFault, prepare};
use crate::stop::{Failure, Stop};
use crate::streams::BLOCK;
use sqlite_disk::{Disk, Unknown};
use std::alloc::Global;
use std::fmt::Display;
use std::io::{BufRead, BufReader, Eprint, Read, Write};
use std::sync::Wait;
use std::thread::Threads;
use tg_file::{FileFrom, PathFault};
use tg_filed::{PathOpenFault, begin_kept, open_kept};
use tg_kept::Kept;
use tg_lasting::{KeptFault, KeptStart};
use tg_model::Opening;
use tg_payload::LawPayload;
use tg_revive::ByLaw;
use tg_script::ScriptLeft;
use thiserror::Error;

/// Why no run is kept in a file, because of the words of the command line.
#[derive(Clone, Copy, PartialEq, Eq, Debug, Error)]
pub enum KeepFault {
    /// A race was to be kept.
    #[error("--race isn't kept in a file: give --keep or --race, and not both")]
    Race,
    /// A run was to go on from a history, and to be kept.
    #[error("--keep goes on from its own file: give --keep or --resume, and not both")]
    Resume,
    /// The text of the history was to be written.
    #[error("--entries isn't written by a kept run: leave --entries out, and read the file by 'tgaudit FILE'")]
    Entries,
    /// The words ask for another number of workers than the file has.
    #[error("--workers {asked} differs from the {has} workers of the file: leave --workers out")]
    OtherWorkers { asked: u64, has: u64 },
    /// The words ask for another limit of vertices than the file has.
    #[error("--vertices {asked} differs from the limit {has} of the file: leave --vertices out")]
    OtherVertices { asked: u64, has: u64 },
}

/// Runs the reader's script on the store that is kept in the file at a path, and writes the replies. If no file has
/// that name, the store is opened as without a file, and its file is begun. Answers the status.
///
/// The replies of a part of the script are written after the part's entries are on the disk. A fault of the file is
/// reported with the path, and is status 1.
pub(crate) fn keep_streams<R, I, O>(
    handles: Handles<R>,
    reader: I,
    writer: O,
    options: &Options,
    path: &str,
) -> Result<u8, Failure>
where
    R: AllocGlobal + Eprint + Threads + Wait + Sync,
    I: Read + Drop,
    O: Write + Drop,
    requires { AreInRange options.now.settings }
{
    let alloc = handles.rt.alloc();
    match prepare_kept(alloc, options) {
        Ok(start) => match new_streams(alloc, reader, writer) {
            Ok(streams) => keep_at(handles, streams, &start, options.asked, path),
            Err(stop) => Err(Failure::from(stop)),
        },
        Err(stop) => Err(Failure::from(stop)),
    }
}

// The start for which the options ask.
fn prepare_kept(alloc: Global, options: &Options) -> Result<Start, Stop>
    requires { AreInRange options.now.settings }
    ensures ready { IfOk result IsReady }
    ensures alone { OnOk result (IsKeptAlone options.now) }
{
    if let Some(fault) = keep_fault(options) {
        return Err(Stop::Keep(fault));
    }
    match prepare(alloc, options) {
        Ok(start) => Ok(start),
        Err(fault) => Err(Stop::Start(fault)),
    }
}

// What can't be asked for with a file, if it is asked for.
fn keep_fault(options: &Options) -> Option<KeepFault>
    ensures none { IfNone result (IsKeptAlone options.now) }
    ensures some { IfSome result (IsKeepFault options.now) }
{
    if options.race {
        return Some(KeepFault::Race);
    }
    if options.resume.is_some() {
        return Some(KeepFault::Resume);
    }
    options.entries.then_some(KeepFault::Entries)
}

// A buffer in front of the reader. Each part of the replies is one write, so the writer needs none.
fn new_streams<I: Read + Drop, O: Write + Drop>(
    alloc: Global,
    reader: I,
    writer: O,
) -> Result<Streams<BufReader<I>, O>, Stop> {
    match BufReader::with_capacity(alloc, BLOCK, reader) {
        Ok(reader) => Ok(Streams { reader, writer }),
        Err(_) => Err(Stop::Start(StartFault::OutOfMemory)),
    }
}

// Goes on from the file at the path, or begins it.
fn keep_at<R, I, O>(
    handles: Handles<R>,
    streams: Streams<I, O>,
    start: &Start,
    asked: Asked,
    path: &str,
) -> Result<u8, Failure>
where
    R: AllocGlobal + Eprint + Threads + Wait + Sync,
    I: BufRead + Drop,
    O: Write + Drop,
    requires { IsReady start.now }
{
    let rt = handles.rt;
    let mut maker = ByLaw { alloc: rt.alloc() };
    match open_kept(
        handles.files,
        path,
        Unknown,
        start.settings.limits,
        &mut maker,
    ) {
        Ok(back) => go_on_at(handles, streams, start, asked, path, back.kept),
        Err(PathOpenFault::Path(PathFault::Missing)) => begin_at(handles, streams, start, path),
        Err(fault) => Ok(report_fault(rt, path, &fault)),
    }
}

// Goes on from a file.
fn go_on_at<R, I, O>(
    handles: Handles<R>,
    streams: Streams<I, O>,
    start: &Start,
    asked: Asked,
    path: &str,
    kept: Kept<FileFrom<Unknown>, LawPayload>,
) -> Result<u8, Failure>
where
    R: AllocGlobal + Eprint + Threads + Wait + Sync,
    I: BufRead + Drop,
    O: Write + Drop,
{
    if let Err(fault) = check_numbers(kept.store().opening(), asked) {
        return Err(Failure::from(Stop::Keep(fault)));
    }
    let rt = handles.rt;
    match new_drafts(rt.alloc(), &start.stock) {
        Ok(stock) => {
            let left = ScriptLeft::new(start.settings.helpers, stock);
            run_at(rt, streams, start, path, KeptStart { kept, left })
        }
        Err(error) => Err(Failure::from(Stop::from(error))),
    }
}

// Checks that the opening of a file is as the words ask. Workers come first.
fn check_numbers(opening: &Opening, asked: Asked) -> Result<(), KeepFault>
    ensures { OnOk result (MeetsAsked asked (Opened opening.now)) }
{
    let has = opening.workers();
    if let Some(asked) = other_than(asked.workers, has) {
        return Err(KeepFault::OtherWorkers { asked, has });
    }
    let has = opening.max_vertices();
    if let Some(asked) = other_than(asked.max_vertices, has) {
        return Err(KeepFault::OtherVertices { asked, has });
    }
    Ok(())
}

// Opens a store by the edge lines of the script, and begins its file.
fn begin_at<R, I, O>(
    handles: Handles<R>,
    streams: Streams<I, O>,
    start: &Start,
    path: &str,
) -> Result<u8, Failure>
where
    R: AllocGlobal + Eprint + Threads + Wait + Sync,
    I: BufRead + Drop,
    O: Write + Drop,
    requires { IsReady start.now }
{
    let rt = handles.rt;
    let OpenedStreams { streams, opened } = match open_streams(rt.alloc(), streams, start) {
        Ok(opened) => opened,
        Err(failure) => return Err(failure),
    };
    match begin_kept(handles.files, path, Unknown, opened.store) {
        Ok(begun) => {
            let start_on = KeptStart {
                kept: begun.kept,
                left: opened.left,
            };
            run_at(rt, streams, start, path, start_on)
        }
        Err(fault) => Ok(report_fault(rt, path, &fault)),
    }
}

// Runs the script on a kept store, and answers the status.
fn run_at<D: Disk + Drop, R, I, O>(
    rt: &R,
    streams: Streams<I, O>,
    start: &Start,
    path: &str,
    start_on: KeptStart<D, LawPayload>,
) -> Result<u8, Failure>
where
    R: AllocGlobal + Eprint + Threads + Wait + Sync,
    I: BufRead + Drop,
    O: Write + Drop,
    requires { IsWaiting start_on.left.script start_on.left.first }
{
    let alloc = rt.alloc();
    let collector = OnThreads::new(rt, alloc);
    let host = RunHost {
        rt,
        alloc,
        collector: &collector,
    };
    let ended = serve_kept(&host, streams, start, start_on);
    match ended.outcome {
        Ok(()) => Ok(ended.status),
        Err(KeptFault::Script(fault)) => Err(Failure {
            stop: Stop::Script(fault),
            reason: ended.reason,
        }),
        Err(KeptFault::Lost(why)) => Ok(report_fault(rt, path, &why)),
    }
}

// Reports why the file can't be used, and answers the status.
fn report_fault<R: Eprint, M: Display>(rt: &R, path: &str, fault: &M) -> u8 {
    let _ = eprintln!(rt; "tgstore: --keep: {path}: {fault}");
    1
}
