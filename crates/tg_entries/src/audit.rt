//! An audit of a text that comes line by line.
ghost use Rattle.std.specs.Prelude.{◌≡◌, ◌++◌, [], Bool, List, ℕ, IfOk, IfSome, IsTrue, OnOk};
ghost use Rattle.tg_entries.specs.declared.stage.Stage.TheVariants as Stage;
ghost use Rattle.tg_model.specs.Graph.{ProtectionGraph};
ghost use Rattle.tg_journal.specs.Auditing.{StandsAt};
ghost use Rattle.tg_saved.specs.Read.{HasReadSnapshot};
ghost use Rattle.tg_entries.specs.Read.{ReadsOn, HasEnded, HasEntered, HasHead, HasRead, HasReadTo, HasReopened, IsNext};
ghost use Rattle.tg_saved.specs.Texts.{edge_line_text, snapshot_text};
ghost use Rattle.tg_entries.specs.Texts.{IsAudited, deed_text, worker_text};

use crate::fault::{LineFault, LongFault};
use crate::joint::joint_line;
use crate::kept::{HistoryStart, Means};
use crate::long::long_stage;
use crate::part::{Part, check_part, is_reply};
use crate::read::{deed_part, read_deed, read_limits, worker_part};
use crate::stage::{Entered, Head, Stage};
use crate::write::VERSION;
use std::alloc::{AllocError, Global};
use std::io::BufRead;
use std::marker::Model;
use std::mem;
use std::sync::ledger::Ledger;
use tg_journal::{Auditor, Entry};
use tg_model::{Deed, Edge, MAX_LASTING_VERTICES, MAX_WORKERS, Reply, Value};
use tg_saved::{SNAPSHOT_VERSION, SnapshotStage, read_edge, read_value};
use tg_snapshot::Snapshot;
use tg_text::{Count, Written};

/// An audit of the text of a history, which is fed a line at a time. It keeps the line that it reads, and of the graph
/// no more than subjects reach. Contracts see how far it has read.
pub struct TextAudit<L: Ledger> {
    means: Means,
    stage: Stage,
    // What was read from a line, written again.
    again: Written<L>,
}

// It is written out, so that code that drops an audit doesn't prove again how each part of it is dropped.
impl<L: Ledger> Drop for TextAudit<L> {
    fn drop(self) {
        let Self {
            means: _,
            stage: _stage,
            again: _again,
        } = self;
    }
}

impl<L: Ledger> Model for TextAudit<L> {
    ghost use Rattle.tg_entries.specs.Read.{AuditedText};

    ghost Value = { AuditedText };

    ghost view = { λ a. record { keeps = a.means.keeps; stage = a.stage } };
}

impl<L: Ledger> TextAudit<L> {
    /// An audit that has read nothing. The count names its own buffer.
    pub fn new(alloc: Global, failures: Count<L>) -> TextAudit<L>
        ensures { HasRead [] result }
    {
        TextAudit::by(Means::auditing(alloc), failures)
    }

    /// An audit that has read nothing, and keeps the history that it reads, if this is asked for.
    pub(crate) fn by(means: Means, failures: Count<L>) -> TextAudit<L>
        ensures { result ≡ record { keeps = means.keeps; stage = Stage.Version } }
    {
        TextAudit {
            means,
            stage: Stage::Version,
            again: Written::new(means.alloc, failures),
        }
    }

    /// Reads the next line, with its line feed. `Ok` is returned only if the lines so far are the beginning of the text
    /// of a legal history of the opening that they give. A text may end after each count line. A line at fault ends the
    /// audit. Each later line is a bad line then.
    pub fn line(&mut self, line: &[u8]) -> Result<(), LineFault>
        ensures read { (text : List ℕ) → HasRead text self.old → OnOk result (HasRead (text ++ line.now) self.new) }
        ensures keeps { self.new.keeps ≡ self.old.keeps }
    {
        let stage = mem::replace(&mut self.stage, Stage::Stopped);
        let next = next_stage(self.means, &mut self.again, stage, line)?;
        drop(mem::replace(&mut self.stage, next));
        Ok(())
    }

    /// Reads the next line, of which the front is at hand. The front is longer than any line but an entry that lists
    /// edges. Its rest is read piece by piece, and compared. `Ok` and a fault mean what they do of [`TextAudit::line`].
    /// At a fault the rest may be read in part.
    pub(crate) fn long_line<R: BufRead>(
        &mut self,
        reader: &mut R,
        line: &mut Vec<u8>,
    ) -> Result<(), LongFault>
        ensures read { (text : List ℕ) → HasRead text self.old → OnOk result (ReadsOn self.old.keeps text line.old.items (R.remaining reader.old) (R.remaining reader.new) self.new.stage) }
        ensures keeps { self.new.keeps ≡ self.old.keeps }
    {
        let stage = mem::replace(&mut self.stage, Stage::Stopped);
        let next = long_stage(self.means, &mut self.again, stage, reader, line)?;
        drop(mem::replace(&mut self.stage, next));
        Ok(())
    }

    /// How many entries there are, if a text may end after the line that was read last. `None` if it may not.
    pub fn ended(&self) -> Option<u64>
        ensures { (text : List ℕ) → HasRead text self.now → IfSome result (IsAudited text) }
    {
        match &self.stage {
            Stage::Ended(entered) => Some(entered.count),
            _ => None,
        }
    }

    /// The audit, if a text may end after the line that was read last. `None` if it may not. Each later line is a bad
    /// line.
    pub(crate) fn finish(&mut self) -> Option<Entered>
        ensures { (text : List ℕ) → HasRead text self.old → IfSome result (HasEnded self.old.keeps text) }
    {
        let stage = mem::replace(&mut self.stage, Stage::Stopped);
        match stage {
            Stage::Ended(entered) => return Some(entered),
            other => drop(other),
        }
        None
    }
}

// Reads a line at a stage, and returns the next stage.
fn next_stage<L: Ledger>(
    means: Means,
    again: &mut Written<L>,
    stage: Stage,
    line: &[u8],
) -> Result<Stage, LineFault>
    ensures { (text : List ℕ) → HasReadTo means.keeps text stage → IfOk result (HasReadTo means.keeps (text ++ line.now)) }
{
    match stage {
        Stage::Version => version_line(line),
        Stage::Limits => limits_line(means.alloc, again, line),
        Stage::Opening(head) => opening_line(means, again, head, line),
        Stage::Saved(lines) => snapshot_line(means, again, lines, line),
        Stage::Joint(entered) => joint_line(means.alloc, again, entered, line),
        Stage::Entries(entered) | Stage::Ended(entered) => {
            entries_line(means.alloc, again, entered, line)
        }
        Stage::Stopped => Err(LineFault::BadLine),
    }
}

fn version_line(line: &[u8]) -> Result<Stage, LineFault>
    ensures { (keeps : Bool) → IfOk result (HasReadTo keeps line.now) }
{
    if line == VERSION {
        Ok(Stage::Limits)
    } else if line == SNAPSHOT_VERSION {
        Ok(Stage::Saved(SnapshotStage::Counts))
    } else {
        Err(LineFault::OtherVersion)
    }
}

// A line of the snapshot that the history goes on from.
fn snapshot_line<L: Ledger>(
    means: Means,
    again: &mut Written<L>,
    lines: SnapshotStage,
    line: &[u8],
) -> Result<Stage, LineFault>
    ensures { (text : List ℕ) → HasReadSnapshot text lines → IfOk result (HasReadTo means.keeps (text ++ line.now)) }
{
    match lines.next(means.alloc, again, line)? {
        SnapshotStage::Whole(snapshot) => Ok(Stage::Joint(reopen(means, snapshot)?)),
        next => Ok(Stage::Saved(next)),
    }
}

// The audit of a history that goes on from the snapshot. Fails only when out of memory.
fn reopen(means: Means, snapshot: Snapshot) -> Result<Entered, AllocError>
    ensures { (text : List ℕ) → text ≡ snapshot_text snapshot → IfOk result (HasReopened means.keeps text) }
{
    // Its lists are a snapshot, as this call says.
    let _ = snapshot.picture();
    let auditor = Auditor::reopen(means.alloc, &snapshot)?;
    Ok(Entered {
        auditor,
        count: 0,
        before: None,
        kept: means.begin(HistoryStart::Shown(snapshot)),
    })
}

fn limits_line<L: Ledger>(
    alloc: Global,
    again: &mut Written<L>,
    line: &[u8],
) -> Result<Stage, LineFault>
    ensures { (keeps : Bool) (text : List ℕ) → HasReadTo keeps text Stage.Limits → IfOk result (HasReadTo keeps (text ++ line.now)) }
{
    let (workers, max_vertices) = read_limits(alloc, line)?;
    if !may_open(workers, max_vertices) {
        return Err(LineFault::BadLine);
    }
    let limits = Part::Limits {
        workers,
        max_vertices,
    };
    check_part(again, &limits, line)?;
    Ok(Stage::Opening(Head {
        workers,
        max_vertices,
        values: Vec::new(alloc),
        edges: Vec::new(alloc),
    }))
}

// Whether an opening may have so many workers and vertices.
fn may_open(workers: u64, max_vertices: u64) -> bool {
    1 <= workers
        && workers <= MAX_WORKERS
        && workers <= max_vertices
        && max_vertices <= MAX_LASTING_VERTICES
}

// A line of an opening, or the first after it.
fn opening_line<L: Ledger>(
    means: Means,
    again: &mut Written<L>,
    head: Head,
    line: &[u8],
) -> Result<Stage, LineFault>
    ensures { (text : List ℕ) → HasHead text head → IfOk result (HasReadTo means.keeps (text ++ line.now)) }
{
    let mut head = head;
    if line.starts_with(b"worker ") {
        let value = next_value(means.alloc, again, line)?;
        add_value(&mut head, value)?;
        return Ok(Stage::Opening(head));
    }
    if line.starts_with(b"edge ") {
        let edge = next_edge(again, &head, line)?;
        add_edge(&mut head, edge)?;
        return Ok(Stage::Opening(head));
    }
    let entered = open(means, head)?;
    entries_line(means.alloc, again, entered, line)
}

// Reads the value of the next worker from the line.
fn next_value<L: Ledger>(
    alloc: Global,
    again: &mut Written<L>,
    line: &[u8],
) -> Result<Value, LineFault>
    ensures { IfOk result (λ value. line.now ≡ worker_text value) }
{
    let Some(word) = worker_part(line) else {
        return Err(LineFault::BadLine);
    };
    let Some(value) = read_value(alloc, word)? else {
        return Err(LineFault::BadLine);
    };
    check_part(again, &Part::Worker(&value), line)?;
    Ok(value)
}

// The value of the next worker, where one more may come.
fn add_value(head: &mut Head, value: Value) -> Result<(), LineFault>
    ensures { (text : List ℕ) → HasHead text head.old → OnOk result (HasHead (text ++ worker_text value) head.new) }
{
    if !may_have_value(head) || !value.fits() {
        return Err(LineFault::BadLine);
    }
    match head.values.push(value) {
        Ok(()) => Ok(()),
        Err(_) => Err(LineFault::OutOfMemory),
    }
}

// Whether one more worker's value may come: after an edge none.
fn may_have_value(head: &Head) -> bool
    ensures { IsTrue result → head.now.edges.items ≡ [] }
{
    head.edges.is_empty() && (head.values.len() as u64) < head.workers
}

// The edge after the others.
fn add_edge(head: &mut Head, edge: Edge) -> Result<(), LineFault>
    ensures { (text : List ℕ) → HasHead text head.old → OnOk result (HasHead (text ++ edge_line_text edge) head.new) }
{
    match head.edges.push(edge) {
        Ok(()) => Ok(()),
        Err(_) => Err(LineFault::OutOfMemory),
    }
}

// Reads an edge from the line, if all values came.
fn next_edge<L: Ledger>(again: &mut Written<L>, head: &Head, line: &[u8]) -> Result<Edge, LineFault>
    ensures { IfOk result (λ edge. line.now ≡ edge_line_text edge) }
{
    let Some(edge) = read_edge(line) else {
        return Err(LineFault::BadLine);
    };
    if !may_have_edge(head, edge) {
        return Err(LineFault::BadLine);
    }
    check_part(again, &Part::Edge(&edge), line)?;
    Ok(edge)
}

// Whether the edge may come: after all values, between two workers.
fn may_have_edge(head: &Head, edge: Edge) -> bool {
    head.values.len() as u64 == head.workers && edge.joins_workers(head.workers)
}

/// The audit of a history of the opening, where all of it came.
pub(crate) fn open(means: Means, head: Head) -> Result<Entered, LineFault>
    ensures { (text : List ℕ) → HasHead text head → IfOk result (HasEntered means.keeps text) }
{
    let Some(opening) = head.opening() else {
        return Err(LineFault::BadLine);
    };
    let auditor = Auditor::open(means.alloc, &opening)?;
    Ok(Entered {
        auditor,
        count: 0,
        before: None,
        kept: means.begin(HistoryStart::Opened(opening)),
    })
}

/// Reads an entry, or a count line.
pub(crate) fn entries_line<L: Ledger>(
    alloc: Global,
    again: &mut Written<L>,
    entered: Entered,
    line: &[u8],
) -> Result<Stage, LineFault>
    ensures { (keeps : Bool) (text : List ℕ) → HasEntered keeps text entered → IfOk result (HasReadTo keeps (text ++ line.now)) }
{
    if line.starts_with(b"entries ") {
        return end_line(again, entered, line);
    }
    let mut entered = entered;
    match entry_line(alloc, again, &mut entered, line) {
        Ok(()) => Ok(Stage::Entries(entered)),
        Err(why) => Err(why),
    }
}

// A count line: the number of entries so far.
fn end_line<L: Ledger>(
    again: &mut Written<L>,
    entered: Entered,
    line: &[u8],
) -> Result<Stage, LineFault>
    ensures { (keeps : Bool) (text : List ℕ) → HasEntered keeps text entered → IfOk result (HasReadTo keeps (text ++ line.now)) }
{
    check_part(again, &Part::End(entered.count), line)?;
    Ok(Stage::Ended(entered))
}

// The next entry.
fn entry_line<L: Ledger>(
    alloc: Global,
    again: &mut Written<L>,
    entered: &mut Entered,
    line: &[u8],
) -> Result<(), LineFault>
    ensures { (keeps : Bool) (text : List ℕ) → HasEntered keeps text entered.old → OnOk result (HasEntered keeps (text ++ line.now) entered.new) }
{
    let (worker, deed) = next_deed(alloc, again, deed_part(line))?;
    let Some(next) = entered.count.checked_add(1) else {
        return Err(LineFault::BadLine);
    };
    let at = entered.auditor.at();
    let Some(reply) = next_reply(again, &mut entered.auditor, worker, &deed, line)? else {
        return Err(LineFault::BadEntry { at });
    };
    entered.count = next;
    entered.keep(Entry {
        worker,
        deed,
        reply,
    })?;
    Ok(())
}

/// Who asks, and for what, where the part of a line in front of ` = ` is spelled as that is.
pub(crate) fn next_deed<L: Ledger>(
    alloc: Global,
    again: &mut Written<L>,
    part: Option<&str>,
) -> Result<(u64, Deed), LineFault>
    ensures { IfOk result (λ told. again.new.bytes.items ≡ deed_text told.0 told.1) }
{
    let Some(part) = part else {
        return Err(LineFault::BadLine);
    };
    let (worker, deed) = read_deed(alloc, part)?;
    let told = Part::Deed {
        worker,
        deed: &deed,
    };
    check_part(again, &told, part.as_bytes())?;
    Ok((worker, deed))
}

// The reply that the rules give the deed, if the line is that of the deed, which was written again, with this reply.
// Fails only when out of memory.
fn next_reply<L: Ledger>(
    again: &mut Written<L>,
    auditor: &mut Auditor,
    worker: u64,
    deed: &Deed,
    line: &[u8],
) -> Result<Option<Reply>, AllocError>
    requires { again.old.bytes.items ≡ deed_text worker deed.now }
    ensures { (g : ProtectionGraph) → StandsAt g auditor.old → IfOk result (λ told. IfSome told (λ reply. IsNext g auditor.old.at line.now auditor.new (record { worker = worker; deed = deed.now; reply = reply }))) }
{
    let Some(reply) = auditor.answer(worker, deed)? else {
        return Ok(None);
    };
    if !is_reply(again, &reply, line)? {
        return Ok(None);
    }
    Ok(Some(reply))
}
