//! Deeds of a kept store, other than a worker's commands.
ghost use Rattle.std.specs.Prelude.{◌≡◌, ◌^◌, ◌≤◌, IfOk, IfErr, IsTrue};
ghost use Rattle.sqlite_disk.specs.Disk.{MoreFaults};
ghost use Rattle.tg_keep.specs.Opened.{is_of_disk};
ghost use Rattle.tg_model.specs.Making.{deed_making};
ghost use Rattle.tg_store.specs.Leaving.{leaving};
ghost use Rattle.tg_store.specs.Store.{graph_of_store};
ghost use Rattle.tg_store.specs.Withdrawing.{withdrawing};
ghost use Rattle.tg_kept.specs.Deeds.{AreNoneOr, AreOfHand, AreOfMaking, Hands, LeavesOrRefuses, LosesDeed, MakesOrRefuses, Withdraws};
ghost use Rattle.tg_kept.specs.Keeping.{LeavesStore};

use crate::kept::Kept;
use crate::lost::Lost;
use sqlite_disk::Disk;
use std::alloc::{AllocError, Global};
use tg_model::Making;
use tg_payload::{Draft, Payload};
use tg_rights::Label;
use tg_store::{ApplyFault, CreateRefused, Hand, Handed};

/// A kept store that was asked for a deed, and the answer of the store. All entries that the deed made are on the disk.
#[derive(Drop)]
pub struct Answered<D: Disk, P: Payload, T: Drop> {
    pub kept: Kept<D, P>,
    /// The answer of the store's own call, which may be a refusal.
    pub answer: T,
}

/// A vertex that a worker asks for.
#[derive(Drop)]
pub struct AskedVertex<P: Payload> {
    /// Who asks for it, and then has the rights of the label over it.
    pub worker: u64,
    /// Whether it is an object or a subject.
    pub kind: Making,
    pub label: Label,
    /// The draft of the payload that it is to store.
    pub draft: Draft<P>,
}

impl<D: Disk, P: Payload> Kept<D, P> {
    /// Makes a vertex, as [`Store::make`](tg_store::Store::make) does. Then puts the lines of the entries into the
    /// file, by one write and one sync, and answers.
    ///
    /// `Lost` is as in [`Kept::serve`]. The draft is dropped then.
    pub fn make(
        self,
        alloc: Global,
        asked: AskedVertex<P>,
    ) -> Result<Answered<D, P, Result<u64, CreateRefused<P>>>, Lost<D>>
        ensures made { IfOk result (λ done. MakesOrRefuses asked.kind asked.worker asked.label asked.draft self.store done.kept.store done.answer) }
        ensures left { IfOk result (λ done. LeavesStore D.Disk done.kept.store done.kept.file.disk) }
        ensures calm { IfOk result (λ done. D.is_clean done.kept.file.disk ≡ D.is_clean self.file.disk) }
        ensures lost { IfErr result (λ lost. LosesDeed D.Disk (AreOfMaking asked.worker (deed_making asked.kind asked.label asked.draft)) self.store self.file.disk lost.disk) }
        ensures cause { IfErr result (λ lost. self.file.length ≤ 2 ^ 62 → IsTrue (is_of_disk lost.why) → MoreFaults (D.faults self.file.disk) (D.faults lost.disk)) }
    {
        let AskedVertex {
            worker,
            kind,
            label,
            draft,
        } = asked;
        let Kept { mut store, file } = self;
        let place = store.journal().len();
        let answer = store.make(worker, kind, label, draft);
        let kept = Kept::keep_from(alloc, store, file, place)?;
        Ok(Answered { kept, answer })
    }

    /// Hands rights on, as [`Store::hand`](tg_store::Store::hand) does. Then puts the lines of the entries into the
    /// file, by one write and one sync, and answers. `Lost` is as in [`Kept::serve`].
    pub fn hand(
        self,
        alloc: Global,
        hand: Hand,
    ) -> Result<Answered<D, P, Result<Handed, ApplyFault>>, Lost<D>>
        ensures handed { IfOk result (λ done. Hands hand self.store done.kept.store done.answer) }
        ensures left { IfOk result (λ done. LeavesStore D.Disk done.kept.store done.kept.file.disk) }
        ensures calm { IfOk result (λ done. D.is_clean done.kept.file.disk ≡ D.is_clean self.file.disk) }
        ensures lost { IfErr result (λ lost. LosesDeed D.Disk (AreOfHand (graph_of_store self.store) hand) self.store self.file.disk lost.disk) }
        ensures cause { IfErr result (λ lost. self.file.length ≤ 2 ^ 62 → IsTrue (is_of_disk lost.why) → MoreFaults (D.faults self.file.disk) (D.faults lost.disk)) }
    {
        let Kept { mut store, file } = self;
        let place = store.journal().len();
        let answer = store.hand(hand);
        let kept = Kept::keep_from(alloc, store, file, place)?;
        Ok(Answered { kept, answer })
    }

    /// Withdraws rights over a target, as [`Store::withdraw`](tg_store::Store::withdraw) does. Then puts the lines of
    /// the entries into the file, by one write and one sync, and answers. `Lost` is as in [`Kept::serve`].
    pub fn withdraw(
        self,
        alloc: Global,
        target: u64,
        rights: Label,
        keep: &[u64],
    ) -> Result<Answered<D, P, Result<Vec<u64>, AllocError>>, Lost<D>>
        ensures withdrawn { IfOk result (λ done. Withdraws target rights keep.now self.store done.kept.store done.answer) }
        ensures left { IfOk result (λ done. LeavesStore D.Disk done.kept.store done.kept.file.disk) }
        ensures calm { IfOk result (λ done. D.is_clean done.kept.file.disk ≡ D.is_clean self.file.disk) }
        ensures lost { IfErr result (λ lost. LosesDeed D.Disk (AreNoneOr (withdrawing (graph_of_store self.store) target rights keep.now)) self.store self.file.disk lost.disk) }
        ensures cause { IfErr result (λ lost. self.file.length ≤ 2 ^ 62 → IsTrue (is_of_disk lost.why) → MoreFaults (D.faults self.file.disk) (D.faults lost.disk)) }
    {
        let Kept { mut store, file } = self;
        let place = store.journal().len();
        let answer = store.withdraw(target, rights, keep);
        let kept = Kept::keep_from(alloc, store, file, place)?;
        Ok(Answered { kept, answer })
    }

    /// Has a worker leave, as [`Store::leave`](tg_store::Store::leave) does. Then puts the lines of the entries into
    /// the file, by one write and one sync, and answers. `Lost` is as in [`Kept::serve`].
    pub fn leave(
        self,
        alloc: Global,
        worker: u64,
    ) -> Result<Answered<D, P, Result<u64, ApplyFault>>, Lost<D>>
        ensures departed { IfOk result (λ done. LeavesOrRefuses worker self.store done.kept.store done.answer) }
        ensures left { IfOk result (λ done. LeavesStore D.Disk done.kept.store done.kept.file.disk) }
        ensures calm { IfOk result (λ done. D.is_clean done.kept.file.disk ≡ D.is_clean self.file.disk) }
        ensures lost { IfErr result (λ lost. LosesDeed D.Disk (AreNoneOr (leaving (graph_of_store self.store) worker)) self.store self.file.disk lost.disk) }
        ensures cause { IfErr result (λ lost. self.file.length ≤ 2 ^ 62 → IsTrue (is_of_disk lost.why) → MoreFaults (D.faults self.file.disk) (D.faults lost.disk)) }
    {
        let Kept { mut store, file } = self;
        let place = store.journal().len();
        let answer = store.leave(worker);
        let kept = Kept::keep_from(alloc, store, file, place)?;
        Ok(Answered { kept, answer })
    }
}
