//! Going on from a kept store at a path.
ghost use Rattle.std.specs.Prelude.{◌≡◌, IfErr, IfOk, IsTrue};
ghost use Rattle.tg_keep.specs.Closed.{is_closed};
ghost use Rattle.tg_kept.specs.Keeping.{LeavesStore};
ghost use Rattle.tg_kept.specs.Reopening.{OpensAs};
ghost use Rattle.tg_filed.specs.Refused.{RefusesFileAt};

use crate::fault::PathOpenFault;
use sqlite_disk::{Disk, Start};
use tg_file::{FileFrom, open_disk};
use tg_kept::{Kept, Reopened};
use tg_payload::Payload;
use tg_revive::Maker;
use tg_store::Limits;

/// Opens the file at a path, which a kept store has written, and which a crash may have left. Nobody else may have it
/// open. `Ok` has a store with exactly the opening and the entries that the file says, as
/// [`Kept::open`](tg_kept::Kept::open) does.
///
/// [`PathOpenFault::Path`] says that the file can't be opened at this path. Then it is as it was.
/// [`PathOpenFault::Kept`] says why no store goes on from it. A refusal that isn't of the disk leaves a file with the
/// same history.
pub fn open_kept<S: Start, P: Payload, M: Maker<P>>(
    rt: &HostRuntime,
    path: &str,
    start: S,
    limits: Limits,
    maker: &mut M,
) -> Result<Reopened<FileFrom<S>, P>, PathOpenFault<FileFrom<S>>>
    ensures store { IfOk result (λ back. OpensAs (⟦<FileFrom<S> as Disk>⟧.is_clean back.kept.file.disk) S.Start.db limits back.kept.store) }
    ensures left { IfOk result (λ back. LeavesStore ⟦<FileFrom<S> as Disk>⟧ back.kept.store back.kept.file.disk) }
    ensures ended { IfOk result (λ back. IsTrue (⟦<FileFrom<S> as Disk>⟧.is_clean back.kept.file.disk) → back.was_closed ≡ is_closed S.Start.db) }
    ensures refused { IfErr result (RefusesFileAt ⟦<FileFrom<S> as Disk>⟧ S.Start.db limits) }
{
    let disk = match open_disk(rt, path, start) {
        Ok(disk) => disk,
        Err(why) => return Err(PathOpenFault::Path(why)),
    };
    match Kept::open(rt.alloc(), disk, limits, maker) {
        Ok(back) => Ok(back),
        Err(refused) => Err(PathOpenFault::Kept(refused)),
    }
}
