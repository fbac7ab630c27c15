//! Batches that are served one after the other.
use crate::kept::Kept;
use crate::lost::Lost;
use sqlite_disk::{Crash, Disk};
use std::alloc::Global;
use tg_keep::{LineFile, OpenedFile};
use tg_model::Command;
use tg_payload::Payload;

/// A worker's commands, as [`Kept::serve`] takes them.
#[derive(Clone, Copy)]
pub struct AskedBatch<'a> {
    pub worker: u64,
    pub commands: &'a [Command],
}

/// A file that was opened after a crash, and the outcome of the opening.
#[derive(Drop)]
pub struct Returned<D: Disk> {
    pub file: LineFile<D>,
    pub opened: OpenedFile,
}

impl<D: Disk, P: Payload> Kept<D, P> {
    ghost use Rattle.std.specs.Prelude.{◌≡◌, IfOk, IfErr, OnOk, length};
    ghost use Rattle.tg_kept.specs.Keeping.{LeavesStore};
    ghost use Rattle.tg_kept.specs.Runs.{LeavesAnsweredBatches, LosesRun, ServesInTurn};

    /// Serves batch after batch, as [`Kept::serve`] does, and counts in `answered` how many were answered. If a batch
    /// is lost, a crash leaves all entries of the answered batches, and a front of the entries of the lost batch.
    pub fn serve_all(
        self,
        alloc: Global,
        batches: &[AskedBatch],
        answered: &mut usize,
    ) -> Result<Kept<D, P>, Lost<D>>
        ensures served { IfOk result (λ kept. ServesInTurn batches.now self.store kept.store) }
        ensures all { OnOk result (answered.new ≡ length batches.now) }
        ensures left { IfOk result (λ kept. LeavesStore D.Disk kept.store kept.file.disk) }
        ensures calm { IfOk result (λ kept. D.is_clean kept.file.disk ≡ D.is_clean self.file.disk) }
        ensures lost { IfErr result (λ lost. LosesRun D.Disk batches.now answered.new self.store self.file.disk lost.disk) }
    {
        let mut kept = self;
        *answered = 0;
        for asked in batches {
            kept = kept.serve(alloc, asked.worker, asked.commands)?.kept;
            *answered += 1;
        }
        Ok(kept)
    }

    // Serves batch after batch, and returns the disk.
    fn serve_on(self, alloc: Global, batches: &[AskedBatch], answered: &mut usize) -> D
        ensures { LeavesAnsweredBatches D.Disk batches.now answered.new self.store result }
    {
        match self.serve_all(alloc, batches, answered) {
            Ok(kept) => kept.into_file().disk,
            Err(lost) => lost.disk,
        }
    }
}

impl<D: Crash, P: Payload> Kept<D, P> {
    ghost use Rattle.std.specs.Prelude.{IfOk};
    ghost use Rattle.tg_kept.specs.Runs.{ComesBackWith};

    /// The whole ladder. Batches are served until all are answered or one is lost. The machine crashes, and the file is
    /// opened again. Then the file says the history after all batches that were answered, and maybe further entries,
    /// which are legal. So each reply that was handed out is in the file.
    pub fn serve_until_crash(
        self,
        alloc: Global,
        batches: &[AskedBatch],
        answered: &mut usize,
    ) -> Result<Returned<D>, Lost<D>>
        ensures back { IfOk result (λ returned. ComesBackWith D.Disk batches.now answered.new self.store returned.file) }
    {
        let mut file = LineFile::new(self.serve_on(alloc, batches, answered));
        match file.crash_and_open(alloc) {
            Ok(opened) => Ok(Returned { file, opened }),
            Err(why) => Err(Lost {
                disk: file.disk,
                why,
            }),
        }
    }
}
