//! A run over a file, from its opening on.
ghost use Rattle.std.specs.Prelude.{◌≡◌, IfErr, IfOk, OnOk, length};
ghost use Rattle.tg_kept.specs.Keeping.{LeavesStore};
ghost use Rattle.tg_filed.specs.Runs.{EndsRun, ServesFrom};

use crate::fault::RunFault;
use crate::open::open_kept;
use sqlite_disk::{Disk, Start};
use tg_file::FileFrom;
use tg_kept::{AskedBatch, Kept};
use tg_payload::Payload;
use tg_revive::Maker;
use tg_store::Limits;

/// What a run over a file is to do.
#[derive(Clone, Copy)]
pub struct AskedRun<'a> {
    /// The path of the file.
    pub path: &'a str,
    /// How large the heap may become.
    pub limits: Limits,
    /// The batches, in turn.
    pub batches: &'a [AskedBatch<'a>],
}

/// Opens a file, as [`open_kept`] does, and serves batch after batch, as [`Kept::serve_all`] does. It counts in
/// `answered` how many were answered.
///
/// The first store is the store that the file says. Each batch makes of it what the rules make. At `Ok` each content
/// that a crash may leave says exactly the history of the last store. After an error each content says the history
/// after the batches that were answered, and further entries that are legal there. So each reply that was handed out
/// is in each content that a crash may leave.
pub fn serve_file<S: Start, P: Payload, M: Maker<P>>(
    rt: &HostRuntime,
    start: S,
    maker: &mut M,
    asked: AskedRun,
    answered: &mut usize,
) -> Result<Kept<FileFrom<S>, P>, RunFault<FileFrom<S>>>
    ensures served { IfOk result (λ kept. ServesFrom (⟦<FileFrom<S> as Disk>⟧.is_clean kept.file.disk) S.Start.db asked.entry.limits asked.entry.batches.now kept.store) }
    ensures all { OnOk result (answered.new ≡ length asked.entry.batches.now) }
    ensures left { IfOk result (λ kept. LeavesStore ⟦<FileFrom<S> as Disk>⟧ kept.store kept.file.disk) }
    ensures ended { IfErr result (EndsRun ⟦<FileFrom<S> as Disk>⟧ S.Start.db asked.entry.limits asked.entry.batches.now answered.new) }
{
    *answered = 0;
    let back = match open_kept(rt, asked.path, start, asked.limits, maker) {
        Ok(back) => back,
        Err(fault) => return Err(RunFault::Open(fault)),
    };
    match back.kept.serve_all(rt.alloc(), asked.batches, answered) {
        Ok(kept) => Ok(kept),
        Err(lost) => Err(RunFault::Lost(lost)),
    }
}
