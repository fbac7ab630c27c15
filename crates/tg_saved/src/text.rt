//! The whole text of a snapshot, in memory.
ghost use Rattle.std.specs.Prelude.{◌≡◌, ◌++◌, ◌<◌, ◌≤◌, List, ℕ, IfOk, IfSome, length};
ghost use Rattle.tg_saved.specs.Read.{HasReadSnapshot};
ghost use Rattle.tg_saved.specs.Texts.{snapshot_text};

use crate::fault::SnapshotTextFault;
use crate::stage::SnapshotStage;
use crate::write::write_snapshot;
use std::alloc::{AllocError, Global};
use std::marker::Brand;
use std::sync::ledger::{Blank, Ledger};
use tg_snapshot::Snapshot;
use tg_text::{Count, WriteFailed, Written};

/// The text of a snapshot. Fails only when out of memory.
pub fn snapshot_bytes(alloc: Global, snapshot: &Snapshot) -> Result<Vec<u8>, AllocError>
    ensures { IfOk result (λ text. text.items ≡ snapshot_text snapshot.now) }
{
    bytes_named::<Brand>(alloc, Blank::new(1), snapshot)
}

// The ledger names the buffer.
fn bytes_named<L: Ledger>(
    alloc: Global,
    blank: Blank,
    snapshot: &Snapshot,
) -> Result<Vec<u8>, AllocError>
    requires name { blank.name ≡ L.name }
    requires parts { blank.parts ≡ L.parts }
    requires some { 0 < blank.parts }
    ensures { IfOk result (λ text. text.items ≡ snapshot_text snapshot.now) }
{
    let mut sink = Written::new(alloc, Count::<L>::new(blank));
    let written = write_snapshot(&mut sink, snapshot);
    let Written { bytes, .. } = sink;
    match written {
        Ok(()) => Ok(bytes),
        Err(WriteFailed) => Err(AllocError),
    }
}

/// The snapshot whose text the bytes are. Else the first line at fault, or that the end is cut off. Takes memory by the
/// snapshot, and by its longest line.
pub fn read_snapshot(alloc: Global, text: &[u8]) -> Result<Snapshot, SnapshotTextFault>
    ensures { IfOk result (λ snapshot. text.now ≡ snapshot_text snapshot) }
{
    read_named::<Brand>(alloc, Blank::new(1), text)
}

// The ledger names the buffer.
fn read_named<L: Ledger>(
    alloc: Global,
    blank: Blank,
    text: &[u8],
) -> Result<Snapshot, SnapshotTextFault>
    requires name { blank.name ≡ L.name }
    requires parts { blank.parts ≡ L.parts }
    requires some { 0 < blank.parts }
    ensures { IfOk result (λ snapshot. text.now ≡ snapshot_text snapshot) }
{
    let mut again = Written::new(alloc, Count::<L>::new(blank));
    read_lines(alloc, &mut again, text)
}

// All lines.
fn read_lines<L: Ledger>(
    alloc: Global,
    again: &mut Written<L>,
    text: &[u8],
) -> Result<Snapshot, SnapshotTextFault>
    ensures { IfOk result (λ snapshot. text.now ≡ snapshot_text snapshot) }
{
    let mut stage = SnapshotStage::Version;
    let mut rest = text;
    for number in 1..u64::MAX {
        if rest.is_empty() {
            return ended(stage, number);
        }
        let Some(len) = line_len(rest) else {
            return Err(SnapshotTextFault::CutOff { line: number });
        };
        let (line, behind) = rest.split_at(len);
        let next = next_stage(alloc, again, stage, number, line)?;
        stage = next;
        rest = behind;
    }
    Err(SnapshotTextFault::CutOff { line: u64::MAX })
}

// How many bytes the first line has, with its line feed. It is `None` if there is no line feed.
fn line_len(bytes: &[u8]) -> Option<usize>
    ensures { IfSome result (λ len. len ≤ length bytes.now) }
{
    for (at, byte) in bytes.iter().enumerate() {
        if *byte == b'\n' {
            return Some(at + 1);
        }
    }
    None
}

// Reads the line of this number.
fn next_stage<L: Ledger>(
    alloc: Global,
    again: &mut Written<L>,
    stage: SnapshotStage,
    number: u64,
    line: &[u8],
) -> Result<SnapshotStage, SnapshotTextFault>
    ensures { (text : List ℕ) → HasReadSnapshot text stage → IfOk result (HasReadSnapshot (text ++ line.now)) }
{
    match stage.next(alloc, again, line) {
        Ok(next) => Ok(next),
        Err(why) => Err(SnapshotTextFault::Line {
            line: why.line(number),
            why,
        }),
    }
}

// The snapshot, where its last line was read. The line of this number would come next.
fn ended(stage: SnapshotStage, number: u64) -> Result<Snapshot, SnapshotTextFault>
    ensures { (text : List ℕ) → HasReadSnapshot text stage → IfOk result (λ snapshot. text ≡ snapshot_text snapshot) }
{
    match stage {
        SnapshotStage::Whole(snapshot) => Ok(snapshot),
        _ => Err(SnapshotTextFault::CutOff { line: number }),
    }
}
