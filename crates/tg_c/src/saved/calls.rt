//! The calls on a snapshot in its place, in Rattle's own types. Some calls make an auditor or a store of a snapshot, or
//! a snapshot of an auditor.
ghost use Rattle.std.specs.Prelude.{◌≡◌, IfErr, IfOk, Err, Ok};
ghost use Rattle.tg_saved.specs.Texts.{snapshot_text};
ghost use Rattle.tg_c.specs.Again.{ReopensFrom};
ghost use Rattle.tg_c.specs.Saved.{AsksText, IsReadFault, IsReopenedAudit, IsShownAudit, ReopensAudit, Shows, line_told, read_refusal};
ghost use Rattle.tg_c.specs.declared.refusal.CallRefusal.TheVariants.{OutOfMemory};

use crate::auditor::audit::Audit;
use crate::auditor::place::AuditorPlace;
use crate::forms::LimitsIn;
use crate::held::Holder;
use crate::law_store::LawStore;
use crate::refusal::CallRefusal;
use crate::saved::again;
use crate::saved::kept::KeptSnapshot;
use crate::saved::place::SnapshotPlace;
use std::alloc::Global;
use tg_journal::Auditor;
use tg_saved::{SnapshotLineFault, SnapshotTextFault, read_snapshot, snapshot_bytes};

/// The snapshot whose text the bytes are, which no place has yet. The number of a line at fault goes to `line`.
pub fn read(alloc: Global, text: &[u8], line: &mut u64) -> Result<Box<KeptSnapshot>, CallRefusal>
    ensures read { IfOk result (λ kept. text.now ≡ snapshot_text kept.value.snapshot) }
    ensures line { IfOk result (λ _. line.new ≡ line.old) }
    ensures refused { IfErr result (IsReadFault line.old line.new) }
{
    match read_snapshot(alloc, text) {
        Ok(snapshot) => Ok(Box::new(alloc, KeptSnapshot { snapshot })?),
        Err(fault) => Err(told_of(fault, line)),
    }
}

// The refusal of a text that is no snapshot's text. A lack of memory leaves the line.
fn told_of(fault: SnapshotTextFault, line: &mut u64) -> CallRefusal
    ensures refusal { result ≡ read_refusal fault }
    ensures line { line.new ≡ line_told fault line.old }
{
    match fault {
        SnapshotTextFault::Line {
            why: SnapshotLineFault::OutOfMemory,
            ..
        } => CallRefusal::OutOfMemory,
        SnapshotTextFault::Line { line: at, .. } | SnapshotTextFault::CutOff { line: at } => {
            *line = at;
            CallRefusal::BadValues
        }
    }
}

/// The text of the snapshot.
pub fn text(alloc: Global, snapshot: &mut SnapshotPlace) -> Result<Vec<u8>, CallRefusal>
    ensures text { IfOk result (λ bytes. AsksText snapshot.old snapshot.new (Ok bytes.items)) }
    ensures refused { IfErr result (λ why. AsksText snapshot.old snapshot.new (Err why)) }
{
    Ok(snapshot.with_open(alloc, |kept| snapshot_bytes(alloc, &kept.snapshot))??)
}

/// The snapshot of the graph that the auditor has come to, which no place has yet.
pub fn show(alloc: Global, auditor: &mut AuditorPlace) -> Result<Box<KeptSnapshot>, CallRefusal>
    ensures shown { IfOk result (λ kept. Shows auditor.old auditor.new (Ok kept.value.snapshot)) }
    ensures refused { IfErr result (λ why. Shows auditor.old auditor.new (Err why)) }
{
    let shown = auditor.with_open(alloc, |audit| audit.show())?;
    Ok(Box::new(alloc, KeptSnapshot { snapshot: shown? })?)
}

/// An audit that goes on from the snapshot, which no place has yet.
pub fn reopen(alloc: Global, snapshot: &mut SnapshotPlace) -> Result<Box<Audit>, CallRefusal>
    ensures reopened { IfOk result (λ audit. ReopensAudit snapshot.old snapshot.new (Ok audit.value)) }
    ensures refused { IfErr result (λ why. ReopensAudit snapshot.old snapshot.new (Err why)) }
{
    let auditor = snapshot.with_open(alloc, |kept| Auditor::reopen(alloc, &kept.snapshot))??;
    Ok(Box::new(alloc, Audit { auditor })?)
}

/// A store that goes on from the snapshot, which no place has yet.
pub fn reopen_store(
    alloc: Global,
    snapshot: &mut SnapshotPlace,
    limits: &LimitsIn,
) -> Result<Box<LawStore>, CallRefusal>
    ensures reopened { IfOk result (λ opened. ReopensFrom snapshot.old snapshot.new limits.now (Ok opened.value.store)) }
    ensures refused { IfErr result (λ why. ReopensFrom snapshot.old snapshot.new limits.now (Err why)) }
{
    let store = snapshot.with_open(alloc, |kept| again::reopen(alloc, &kept.snapshot, limits))??;
    Ok(Box::new(alloc, store)?)
}
