//! An audit of a history that comes in parts.
ghost use Rattle.std.specs.Prelude.{◌≡◌, ◌+◌, [], ◌∷◌, true, None, Ok, IfOk, IfErr, OnOk, OnErr};
ghost use Rattle.tg_model.specs.Graph.{ProtectionGraph};
ghost use Rattle.tg_model.specs.Opened.{start_of};
ghost use Rattle.tg_journal.specs.Auditing.{FeedsEntries, FeedsPart, AuditAnswers, IsEnded, Passes, StandsAt};
ghost use Rattle.tg_journal.specs.Inner.Steps.{StopsBefore};
ghost use Rattle.tg_journal.specs.Live.{IsSweptGraph, graph_kept};

mod saved;

use crate::entry::Entry;
use crate::journal::Journal;
use crate::live::LiveGraph;
use crate::replay::{AuditFault, replay};
use std::alloc::{AllocError, Global};
use std::marker::Model;
use tg_model::{Deed, Opening, Reply};
use thiserror::Error;

/// An audit that has come to a place of a history. It keeps no entry, so a part of a history can be dropped after it
/// was fed. It may forget what no subject reaches, for good. So its memory depends on what can be reached, however many
/// vertices were made. Contracts see the graph that it keeps, its place, and whether it found a bad entry there. The
/// graph that it has come to is alike where subjects reach.
#[derive(Drop)]
pub struct Auditor {
    graph: LiveGraph,
    // How many entries passed, which is the place of the next.
    at: u64,
    // Whether the entry at that place is bad. Then no more is replayed: the graph is of no history.
    found_bad: bool,
    // It sweeps by itself where it has as many vertices.
    sweep_at: usize,
}

impl Model for Auditor {
    ghost use Rattle.tg_journal.specs.Live.{AuditState};

    ghost Value = { AuditState };

    ghost view = { λ a. record { kept = a.graph; at = a.at; found_bad = a.found_bad } };
}

// Fewer vertices are never swept by an audit itself.
const FIRST_SWEEP: usize = 65_536;

/// Why an auditor refused a part of a journal, or stopped in it. Each place is one in the whole history, counted from
/// 0.
#[derive(Clone, Copy, PartialEq, Eq, Debug, Error)]
pub enum PartFault {
    /// The part has the entries from `start` to before `end`. The next entry of the history is at `due`, which isn't
    /// among them nor at their end. Nothing was replayed.
    #[error("the part has entries {start}..{end}, and entry {due} comes next: feed the part that has it")]
    BadPlace { due: u64, start: u64, end: u64 },
    /// The first entry that isn't legal. The entries before it passed, and the auditor replays no more.
    #[error("entry {at} is not legal: the journal was altered, or is of another opening")]
    BadEntry { at: u64 },
    /// There was no memory to replay this entry. The entries before it passed.
    #[error("out of memory at entry {at}: free memory, and feed the same part again")]
    OutOfMemory { at: u64 },
}

impl Auditor {
    /// An audit of a history of this opening, from its first entry on. Fails only when out of memory.
    pub fn open(alloc: Global, opening: &Opening) -> Result<Auditor, AllocError>
        ensures stands { IfOk result (StandsAt (start_of opening.now)) }
        ensures first { IfOk result (λ auditor. auditor.at ≡ 0) }
    {
        Ok(Auditor {
            graph: LiveGraph::open(alloc, opening)?,
            at: 0,
            found_bad: false,
            sweep_at: FIRST_SWEEP,
        })
    }

    /// How many entries passed, which is the place of the next.
    pub fn at(&self) -> u64
        ensures { result ≡ self.now.at }
    {
        self.at
    }

    /// Replays what a part of a journal holds from the auditor's place on. `Ok` is returned only if that is a legal
    /// history of the graph so far. The auditor has then come to the graph and the place after the part. `BadPlace` is
    /// returned exactly if the part begins after the auditor's place or ends before it, and no bad entry was found
    /// before. Entries before the place passed already, and aren't replayed again. So a part that is fed twice changes
    /// nothing. After `OutOfMemory` the same part can be fed again. After `BadEntry` each later feed returns it again.
    /// The auditor [sweeps](Auditor::sweep) by itself, as [`Auditor::feed_entries`] does.
    pub fn feed(&mut self, part: &Journal) -> Result<(), PartFault>
        ensures { FeedsPart self.old self.new part.now.start part.now.entries result }
    {
        if self.found_bad {
            return Err(PartFault::BadEntry { at: self.at });
        }
        let (due, start, end) = (self.at, part.start(), part.len());
        if due < start || end < due {
            return Err(PartFault::BadPlace { due, start, end });
        }
        let passed = (due - start) as usize;
        match self.feed_entries(&part.entries()[passed..]) {
            Ok(()) => Ok(()),
            Err(AuditFault::BadEntry { at }) => Err(PartFault::BadEntry { at }),
            Err(AuditFault::OutOfMemory) => Err(PartFault::OutOfMemory { at: self.at }),
        }
    }

    /// Replays entries from outside a journal, as the next ones of the history. The caller knows their place. `Ok` is
    /// returned only if they are a legal history of the graph so far. The auditor has then come to the graph and the
    /// place after them. Otherwise the entries before [`Auditor::at`] passed. `BadEntry` has that place in the whole
    /// history. After `OutOfMemory` the auditor can be fed again from there. `OutOfMemory` is returned too after 2^64 -
    /// 1 entries, because the next has no place. The auditor [sweeps](Auditor::sweep) by itself if it has a quarter as
    /// many vertices again as the last sweep left. It needs at least 65,536 vertices, and doesn't sweep if nothing
    /// could be forgotten.
    pub fn feed_entries(&mut self, entries: &[Entry]) -> Result<(), AuditFault>
        ensures fed { FeedsEntries self.old self.new entries.now result }
        ensures ended { IsEnded self.old self.new result }
    {
        if self.found_bad {
            return Err(AuditFault::BadEntry { at: self.at });
        }
        for entry in entries {
            self.replay_next(entry)?;
        }
        Ok(())
    }

    // Replays the next entry.
    fn replay_next(&mut self, entry: &Entry) -> Result<(), AuditFault>
        ensures passed { (g : ProtectionGraph) → StandsAt g self.old → OnOk result (Passes g (entry.now ∷ []) self.new) }
        ensures place { OnOk result (self.new.at ≡ self.old.at + 1) }
        ensures stopped { IfErr result (StopsBefore self.old self.new entry.now) }
    {
        let next = self.next_place()?;
        self.sweep_where_due();
        if !replay(&mut self.graph, entry)? {
            self.found_bad = true;
            return Err(AuditFault::BadEntry { at: self.at });
        }
        self.at = next;
        Ok(())
    }

    // The place after the next entry. Fails only where there is none, since 2^64 - 1 entries passed.
    fn next_place(&self) -> Result<u64, AllocError>
        ensures { IfOk result (λ next. next ≡ self.now.at + 1) }
    {
        match self.at.checked_add(1) {
            Some(next) => Ok(next),
            None => Err(AllocError),
        }
    }

    /// Replays the next deed, whose reply isn't known. Returns the reply with which its entry is legal, and the auditor
    /// has then come to the graph and the place after that entry. Returns `None` if no entry with this deed is legal.
    /// Then its worker is no active subject, or the state of a new vertex doesn't fit its law. After a bad entry it
    /// returns `None` always. Sweeps by itself, as [`Auditor::feed_entries`] does. Fails only when out of memory, or
    /// after 2^64 - 1 entries, because the next has no place. Then, and after `None`, the auditor stays where it has
    /// come.
    pub fn answer(&mut self, worker: u64, deed: &Deed) -> Result<Option<Reply>, AllocError>
        ensures answered { (g : ProtectionGraph) → StandsAt g self.old → IfOk result (AuditAnswers g worker deed.now self.old self.new) }
        ensures refused { (g : ProtectionGraph) → StandsAt g self.old → OnErr result (StandsAt g self.new) }
        ensures place { OnErr result (self.new.at ≡ self.old.at) }
        ensures ended { self.old.found_bad ≡ true → (result ≡ Ok None) × (self.new ≡ self.old) }
    {
        if self.found_bad {
            return Ok(None);
        }
        let next = self.next_place()?;
        self.sweep_where_due();
        if !self.graph.is_subject(worker) || !deed.fits() {
            return Ok(None);
        }
        let reply = self.graph.apply(worker, deed)?;
        self.at = next;
        Ok(Some(reply))
    }

    /// Forgets all vertices that no subject reaches. No later entry can depend on them. The audit stays where it has
    /// come. Fails only when out of memory, and nothing is then forgotten.
    pub fn sweep(&mut self) -> Result<(), AllocError>
        ensures stays { (g : ProtectionGraph) → StandsAt g self.old → StandsAt g self.new }
        ensures place { (self.new.at ≡ self.old.at) × (self.new.found_bad ≡ self.old.found_bad) }
        ensures swept { OnOk result (IsSweptGraph (graph_kept self.old.kept) (graph_kept self.new.kept)) }
        ensures refused { OnErr result (self.new ≡ self.old) }
    {
        self.graph.sweep()
    }

    // Sweeps where there are a quarter as many vertices again as the last sweep left, unless nothing was given up
    // since. Lack of memory for it stops no audit: the next one comes where there are a quarter as many again.
    fn sweep_where_due(&mut self)
        ensures stays { (g : ProtectionGraph) → StandsAt g self.old → StandsAt g self.new }
        ensures place { (self.new.at ≡ self.old.at) × (self.new.found_bad ≡ self.old.found_bad) }
    {
        if self.graph.len() >= self.sweep_at {
            if self.graph.has_lost() {
                let _ = self.sweep();
            }
            let left = self.graph.len();
            self.sweep_at = left.saturating_add(left / 4).max(FIRST_SWEEP);
        }
    }
}
