//! How far the text of a snapshot was read.
ghost use Rattle.std.specs.Prelude.{◌≡◌, ◌++◌, List, ℕ, IfOk};
ghost use Rattle.tg_saved.specs.Read.{HasReadSnapshot};
ghost use Rattle.tg_saved.specs.Texts.{lines_text};

use crate::fault::SnapshotLineFault;
use crate::lines::ReadLines;
use crate::write::SNAPSHOT_VERSION;
use std::alloc::Global;
use std::sync::ledger::Ledger;
use tg_snapshot::Snapshot;
use tg_text::Written;

/// Which line of a snapshot's text may come next.
#[derive(Drop)]
pub enum SnapshotStage {
    /// The first one.
    Version,
    /// The one with the counts.
    Counts,
    /// A subject, a vertex, an edge, or the last one.
    Lines(ReadLines),
    /// There is no next line, because the last line came.
    Whole(Snapshot),
}

impl SnapshotStage {
    /// Reads the next line, with its line feed. What is read of it is written again into `again`, in the place of what
    /// was there. `Ok` is returned only if the line goes on with those before it, as the text of a snapshot.
    pub fn next<L: Ledger>(
        self,
        alloc: Global,
        again: &mut Written<L>,
        line: &[u8],
    ) -> Result<SnapshotStage, SnapshotLineFault>
        ensures { (text : List ℕ) → HasReadSnapshot text self → IfOk result (HasReadSnapshot (text ++ line.now)) }
    {
        match self {
            SnapshotStage::Version if line == SNAPSHOT_VERSION => Ok(SnapshotStage::Counts),
            SnapshotStage::Version => Err(SnapshotLineFault::OtherVersion),
            SnapshotStage::Counts => Ok(SnapshotStage::Lines(ReadLines::begin(
                alloc, again, line,
            )?)),
            SnapshotStage::Lines(lines) => next_line(alloc, again, lines, line),
            SnapshotStage::Whole(_) => Err(SnapshotLineFault::AfterEnd),
        }
    }
}

// Reads a line after the counts.
fn next_line<L: Ledger>(
    alloc: Global,
    again: &mut Written<L>,
    lines: ReadLines,
    line: &[u8],
) -> Result<SnapshotStage, SnapshotLineFault>
    ensures { (text : List ℕ) → text ≡ lines_text lines → IfOk result (HasReadSnapshot (text ++ line.now)) }
{
    if line.starts_with(b"picture ") {
        return Ok(SnapshotStage::Whole(lines.end(again, line)?));
    }
    let mut lines = lines;
    lines.add(alloc, again, line)?;
    Ok(SnapshotStage::Lines(lines))
}
