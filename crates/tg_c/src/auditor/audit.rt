//! The audit that an auditor's handle leads to.
use crate::refusal::CallRefusal;
use tg_journal::{Auditor, Journal};
use tg_snapshot::Snapshot;

/// An audit of a history, which has come to a place, and ends at the first bad entry.
#[derive(Drop)]
pub struct Audit {
    pub auditor: Auditor,
}

impl Audit {
    ghost use Rattle.tg_c.specs.Audits.{FeedsJournal, SweepsAudit};
    ghost use Rattle.tg_c.specs.Saved.{IsShownAudit};

    /// Replays the journal from the audit's place on, and returns how many entries passed by then in all. Nothing is
    /// replayed if the journal doesn't hold that place, or if a bad entry was found before. Otherwise the audit comes
    /// to the end of the journal, to a bad entry, or to an entry at which memory ran out. After a lack of memory the
    /// audit goes on at the next feed.
    pub fn feed(&mut self, journal: &Journal) -> Result<u64, CallRefusal>
        ensures { FeedsJournal self.old self.new journal.now.start journal.now.entries result }
    {
        self.auditor.feed(journal)?;
        Ok(self.auditor.at())
    }

    /// Forgets the vertices that no worker reaches any more in the graph that the audit has come to. The audit's place
    /// is as it was. Fails only when out of memory. Then nothing is forgotten.
    pub fn sweep(&mut self) -> Result<(), CallRefusal>
        ensures { SweepsAudit self.old self.new result }
    {
        Ok(self.auditor.sweep()?)
    }

    /// Returns the snapshot of the graph that the audit has come to, at the audit's place. After a bad entry there is
    /// no snapshot. Otherwise it fails only when out of memory.
    pub fn show(&self) -> Result<Snapshot, CallRefusal>
        ensures { IsShownAudit self.now result }
    {
        match self.auditor.snapshot()? {
            Some(snapshot) => Ok(snapshot),
            None => Err(CallRefusal::BadEntry),
        }
    }
}
