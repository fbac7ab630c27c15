//! Beginning a kept store at a path.
ghost use Rattle.std.specs.Prelude.{◌≡◌, [], IfOk, IsTrue};
ghost use Rattle.tg_kept.specs.Keeping.{IsFirst, LeavesStore};

use crate::fault::BeginFault;
use sqlite_disk::{Disk, Start};
use tg_file::{FileFrom, NewFile, NewName, make_disk};
use tg_kept::Kept;
use tg_payload::Payload;
use tg_store::Store;

/// A kept store that was begun, and the names of its file.
#[derive(Drop)]
pub struct BegunFile<D: Disk, P: Payload> {
    pub kept: Kept<D, P>,
    pub name: NewName,
}

/// Begins the file of a store that was just opened, and that has no entry yet. Nothing may have the name PATH. The file
/// is made as PATH.new. Its lines are put on the disk. Then it gets the name PATH, and the folder is synced. After `Ok`
/// a crash leaves a file PATH that says the opening.
///
/// A refusal comes before the file has the name PATH, but for [`BeginFault::Folder`]. Then the store is dropped, and
/// PATH.new is removed if this call wrote to it.
pub fn begin_kept<S: Start, P: Payload>(
    rt: &HostRuntime,
    path: &str,
    start: S,
    store: Store<P>,
) -> Result<BegunFile<FileFrom<S>, P>, BeginFault>
    requires { IsFirst store }
    ensures store { IfOk result (λ begun. begun.kept.store ≡ store) }
    ensures empty { IfOk result (λ begun. IsTrue (⟦<FileFrom<S> as Disk>⟧.is_clean begun.kept.file.disk) → S.Start.db ≡ []) }
    ensures left { IfOk result (λ begun. LeavesStore ⟦<FileFrom<S> as Disk>⟧ begun.kept.store begun.kept.file.disk) }
    ensures lasting { IfOk result (λ begun. IsTrue begun.name.is_lasting) }
{
    let NewFile { disk, name } = make_disk(rt, path, start)?;
    match Kept::begin(rt.alloc(), disk, store) {
        Ok(kept) => give_name(rt, name, kept),
        Err(lost) => {
            name.give_up(rt);
            Err(BeginFault::File(lost.why))
        }
    }
}

// Gives a file its last name, for good. Its lines are on the disk, since the store is kept.
fn give_name<D: Disk + Drop, P: Payload>(
    rt: &HostRuntime,
    mut name: NewName,
    kept: Kept<D, P>,
) -> Result<BegunFile<D, P>, BeginFault>
    requires left { LeavesStore D.Disk kept.store kept.file.disk }
    ensures kept { IfOk result (λ begun. begun.kept ≡ kept) }
    ensures left { IfOk result (λ begun. LeavesStore D.Disk begun.kept.store begun.kept.file.disk) }
    ensures lasting { IfOk result (λ begun. IsTrue begun.name.is_lasting) }
{
    if let Err(error) = name.rename(rt) {
        name.give_up(rt);
        return Err(BeginFault::Rename(error));
    }
    match name.sync_folder() {
        Ok(()) => Ok(BegunFile { kept, name }),
        Err(error) => Err(BeginFault::Folder(error)),
    }
}
