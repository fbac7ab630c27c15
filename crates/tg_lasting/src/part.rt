//! One part of a script on a kept store.
ghost use Rattle.std.specs.Prelude.{◌≡◌, ◌+◌, OnOk, length};
ghost use Rattle.tg_script.specs.Inner.Counting.{MayCountInMemory};
ghost use Rattle.tg_script.specs.Parts.{IsWaiting, may_come};
ghost use Rattle.tg_lasting.specs.Answering.{TakesReplies, HandsPart, IsPartDone, IsReadyScript, KeepsPart, MayHandPart, MayKeepPart, RepliesTo, ServesPart, is_cut};

use crate::fault::KeptFault;
use sqlite_disk::Disk;
use std::alloc::Global;
use std::marker::Brand;
use std::sync::ledger::{Blank, Ledger};
use tg_keep::LineFile;
use tg_kept::keep_entries;
use tg_model::MAX_WORKERS;
use tg_payload::Payload;
use tg_script::{Bytes, Collector, Count, ScriptFault, ScriptRun, Sink, Watch, Written, put_all};
use tg_text::reason_of;

/// What a run on a kept store uses.
#[derive_where(Clone, Copy)]
pub struct KeptMeans<'a, C> {
    /// Where the parts, their replies and the lines of their entries take memory.
    pub alloc: Global,
    /// What makes the collections.
    pub collector: &'a C,
}

/// A script on a store, and the file that says the entries of the store.
#[derive(Drop)]
pub(crate) struct KeptScript<D: Disk, P: Payload> {
    pub run: ScriptRun<P>,
    pub file: LineFile<D>,
    /// Why the last line is bad, if it is.
    pub reason: Option<&'static str>,
}

/// The replies to the lines of a part, and how it ended.
#[derive(Drop)]
pub(crate) struct Replied {
    pub replies: Vec<u8>,
    pub outcome: Result<(), ScriptFault>,
    /// Whether a line feed came after the last line.
    pub is_ended: bool,
}

/// Answers the lines of a part, puts their entries into the file, and then writes their replies. The sink is finished.
/// Then the entries are given up.
///
/// After `Lost` no reply was written. After `Script` with `OutOfMemory` no reply was written, and no entry was put.
/// After another fault all lines before it were answered.
pub(crate) fn serve_part<D: Disk, P: Payload, C: Collector, K: Sink, W: Watch>(
    means: KeptMeans<C>,
    on: &mut KeptScript<D, P>,
    chunk: &[u8],
    sink: &mut K,
    watch: &mut W,
) -> Result<(), KeptFault>
    requires ready { C.Ready }
    requires script { IsReadyScript D.Disk on.old }
    ensures served { ServesPart D.Disk K.taken W.refused sink.old sink.new watch.old watch.new on.old on.new chunk.now result }
    ensures script { OnOk result (IsReadyScript D.Disk on.new) }
    ensures room { OnOk result (may_come on.new.run + length chunk.now ≡ may_come on.old.run) }
{
    let place = on.run.store().journal().len();
    let replied = reply_to(means, &mut on.run, chunk, watch);
    on.reason = reason_if_bad(on.run.last_line(), &replied);
    keep_part(means.alloc, on, place, &replied, sink)
}

// Puts the entries of a part that was answered into the file, and then writes its replies.
fn keep_part<D: Disk, P: Payload, K: Sink>(
    alloc: Global,
    on: &mut KeptScript<D, P>,
    place: u64,
    replied: &Replied,
    sink: &mut K,
) -> Result<(), KeptFault>
    requires { MayKeepPart D.Disk place on.old replied.now }
    ensures kept { KeepsPart D.Disk K.taken sink.old sink.new place on.old on.new replied.now result }
    ensures done { OnOk result (IsPartDone D.Disk on.old on.new replied.now) }
{
    if is_cut(replied.outcome) {
        return Err(KeptFault::Script(ScriptFault::OutOfMemory));
    }
    match keep_entries(alloc, on.run.store(), &mut on.file, place) {
        Ok(()) => hand_part(on, replied, sink),
        Err(why) => Err(KeptFault::Lost(why)),
    }
}

// Gives up the entries of a part, which are on the disk, and writes its replies.
fn hand_part<D: Disk, P: Payload, K: Sink>(
    on: &mut KeptScript<D, P>,
    replied: &Replied,
    sink: &mut K,
) -> Result<(), KeptFault>
    requires { MayHandPart D.Disk on.old replied.now }
    ensures handed { HandsPart D.Disk K.taken sink.old sink.new on.old on.new replied.now result }
    ensures done { OnOk result (IsPartDone D.Disk on.old on.new replied.now) }
{
    let made = on.run.store().journal().len();
    on.run.forget(made);
    if !hand_out(sink, &replied.replies) {
        return Err(KeptFault::Script(ScriptFault::WriteFailed));
    }
    match replied.outcome {
        Ok(()) => Ok(()),
        Err(fault) => Err(KeptFault::Script(fault)),
    }
}

// Whether there was no memory for the replies.
fn is_cut(outcome: Result<(), ScriptFault>) -> bool
    ensures { result ≡ is_cut outcome }
{
    match outcome {
        Ok(()) => false,
        Err(fault) => match fault {
            ScriptFault::WriteFailed => true,
            ScriptFault::ReadFailed
            | ScriptFault::InputTooLong
            | ScriptFault::LineTooLong { .. }
            | ScriptFault::BadLine { .. }
            | ScriptFault::OutOfMemory
            | ScriptFault::HeapFull
            | ScriptFault::BadLimits => false,
        },
    }
}

// Why the line is bad, if that ended the part. It is no line of an opening.
fn reason_if_bad(line: &[u8], replied: &Replied) -> Option<&'static str> {
    match replied.outcome {
        Err(ScriptFault::BadLine { .. }) => Some(reason_of(line, replied.is_ended, MAX_WORKERS)),
        _ => None,
    }
}

// Writes the replies, and finishes the sink. Answers whether that went well.
fn hand_out<K: Sink>(sink: &mut K, replies: &[u8]) -> bool
    ensures { TakesReplies (K.taken sink.old) replies.now result (K.taken sink.new) }
{
    match put_all(sink, replies) {
        Ok(()) => sink.finish(),
        Err(_) => false,
    }
}

// Answers the lines of a part, and keeps the replies in memory.
fn reply_to<P: Payload, C: Collector, W: Watch>(
    means: KeptMeans<C>,
    run: &mut ScriptRun<P>,
    chunk: &[u8],
    watch: &mut W,
) -> Replied
    requires ready { C.Ready }
    requires waits { IsWaiting run.old.begun.script run.old.begun.first }
    ensures ran { RepliesTo W.refused watch.old watch.new run.old run.new chunk.now result }
    ensures held { run.new.begun.run.store.handed ≡ run.old.begun.run.store.handed }
{
    let blanks = PartBlanks {
        asked: Blank::new(1),
        failures: Blank::new(1),
    };
    reply_counted::<P, C, W, Brand, Brand>(means, run, chunk, watch, blanks)
}

// What counts how often a part in memory is asked for bytes, and how often memory for replies is lacking.
#[derive(Drop)]
struct PartBlanks {
    asked: Blank,
    failures: Blank,
}

// The counts are those of the ledgers A and F.
fn reply_counted<P: Payload, C: Collector, W: Watch, A: Ledger, F: Ledger>(
    means: KeptMeans<C>,
    run: &mut ScriptRun<P>,
    chunk: &[u8],
    watch: &mut W,
    blanks: PartBlanks,
) -> Replied
    requires ready { C.Ready }
    requires waits { IsWaiting run.old.begun.script run.old.begun.first }
    requires countable { MayCountInMemory A.name A.parts F.name F.parts blanks.asked blanks.failures }
    ensures ran { RepliesTo W.refused watch.old watch.new run.old run.new chunk.now result }
    ensures held { run.new.begun.run.store.handed ≡ run.old.begun.run.store.handed }
{
    let PartBlanks { asked, failures } = blanks;
    let mut source = Bytes::new(chunk, Count::<A>::new(asked));
    let mut sink = Written::new(means.alloc, Count::<F>::new(failures));
    let outcome = run.run_part(means.collector, &mut source, &mut sink, watch);
    let is_ended = !source.bytes.is_empty() || chunk.ends_with(b"\n");
    let Written { bytes, .. } = sink;
    Replied {
        replies: bytes,
        outcome,
        is_ended,
    }
}
