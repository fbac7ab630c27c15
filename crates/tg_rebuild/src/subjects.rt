//! The subjects of a snapshot.
ghost use Rattle.std.specs.Prelude.{◌≡◌, [], ◌∷◌, OnOk};
ghost use Rattle.tg_graph.specs.Heap.{subject_names};
ghost use Rattle.tg_rebuild.specs.Inner.Bare.{KeepsVertices};
ghost use Rattle.tg_rebuild.specs.Inner.Raising.{CanSpawn, IsHandedOn, IsRaised, Spawns, acting, holder_among};

use crate::bare::add_subject;
use crate::lines::{draft_of, line_shown};
use crate::maker::Maker;
use crate::scaffold::Scaffold;
use tg_graph::Heap;
use tg_payload::Payload;
use tg_snapshot::Snapshot;
use tg_space::RoomFault;

/// For whom vertices are made. It is the first subject, or 0 if the snapshot has none.
pub(crate) fn holder_of(snapshot: &Snapshot) -> u64
    ensures { result ≡ holder_among snapshot.now.picture.subjects }
{
    match snapshot.picture().subjects() {
        [] => 0,
        [first, ..] => *first,
    }
}

/// Makes the first subject, unless it is 0, and lets 0 retire then. The scaffold's holder is 0, the only subject.
/// Refused, the heap is of no use.
pub(crate) fn hand_on<P: Payload, M: Maker<P>>(
    heap: &mut Heap<P>,
    maker: &mut M,
    snapshot: &Snapshot,
    scaffold: Scaffold,
) -> Result<(), RoomFault>
    requires raised { IsRaised snapshot.now heap.old }
    requires subjects { subject_names heap.old ≡ 0 ∷ [] }
    requires zero { scaffold.holder ≡ 0 }
    ensures { OnOk result (IsHandedOn snapshot.now heap.old heap.new) }
{
    // This call shows that subjects are shown.
    let _ = snapshot.picture();
    let first = holder_of(snapshot);
    if first == 0 {
        return Ok(());
    }
    spawn(heap, maker, snapshot, scaffold, first)?;
    heap.retire(0);
    Ok(())
}

/// Lets 0 retire if the snapshot has no subject.
pub(crate) fn leave_none<P: Payload>(heap: &mut Heap<P>, snapshot: &Snapshot)
    requires { subject_names heap.old ≡ acting snapshot.now.picture.subjects }
    ensures subjects { subject_names heap.new ≡ snapshot.now.picture.subjects }
    ensures table { heap.new.table ≡ heap.old.table }
    ensures payloads { heap.new.payloads ≡ heap.old.payloads }
{
    let subjects = snapshot.picture().subjects();
    if 0 < subjects.len() {
        return;
    }
    heap.retire(0);
}

/// Makes all subjects but the first. Refused, the heap is of no use.
pub(crate) fn add_subjects<P: Payload, M: Maker<P>>(
    heap: &mut Heap<P>,
    maker: &mut M,
    snapshot: &Snapshot,
    scaffold: Scaffold,
) -> Result<(), RoomFault>
    requires raised { IsRaised snapshot.now heap.old }
    requires first { subject_names heap.old ≡ holder_among snapshot.now.picture.subjects ∷ [] }
    requires holder { scaffold.holder ≡ holder_among snapshot.now.picture.subjects }
    ensures raised { OnOk result (IsRaised snapshot.now heap.new) }
    ensures subjects { OnOk result (subject_names heap.new ≡ acting snapshot.now.picture.subjects) }
    ensures kept { OnOk result (KeepsVertices heap.old heap.new) }
{
    let subjects = snapshot.picture().subjects();
    for at in 1..subjects.len() {
        spawn(heap, maker, snapshot, scaffold, subjects[at])?;
    }
    Ok(())
}

// Makes a subject.
fn spawn<P: Payload, M: Maker<P>>(
    heap: &mut Heap<P>,
    maker: &mut M,
    snapshot: &Snapshot,
    scaffold: Scaffold,
    name: u64,
) -> Result<(), RoomFault>
    requires { CanSpawn snapshot.now scaffold.holder name heap.old }
    ensures { OnOk result (Spawns snapshot.now name heap.old heap.new) }
{
    let vertices = snapshot.vertices();
    // This call shows that the vertices rise and fit.
    let _ = snapshot.picture();
    let draft = draft_of(scaffold.alloc, maker, &vertices[line_shown(vertices, name)])?;
    add_subject(heap, scaffold.holder, name, draft)
}
