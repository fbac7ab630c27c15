//! The heap that a snapshot starts from.
ghost use Rattle.std.specs.Prelude.{◌≡◌, [], ◌∷◌, IfOk, OnOk, Some};
ghost use Rattle.tg_graph.specs.Heap.{subject_names};
ghost use Rattle.tg_snapshot.specs.Snapshot.{stored_in};
ghost use Rattle.tg_rebuild.specs.Inner.Raising.{IsRaised};

use crate::lines::{draft_of, line_of, make_draft};
use crate::maker::Maker;
use std::alloc::{AllocError, Global};
use tg_graph::Heap;
use tg_model::{Law, Opening};
use tg_payload::{Draft, Payload, values_of};
use tg_snapshot::Snapshot;
use tg_space::{Limits, RoomFault};

/// The heap of the vertex 0, which is the only subject.
pub(crate) fn open_zero<P: Payload, M: Maker<P>>(
    alloc: Global,
    snapshot: &Snapshot,
    limits: Limits,
    maker: &mut M,
) -> Result<Heap<P>, RoomFault>
    ensures raised { IfOk result (IsRaised snapshot.now) }
    ensures subjects { IfOk result (λ heap. subject_names heap ≡ 0 ∷ []) }
    ensures limits { IfOk result (λ heap. heap.table.limits ≡ limits) }
{
    let draft = draft_of_zero(alloc, maker, snapshot)?;
    let mut drafts = Vec::new(alloc);
    drafts.push(draft)?;
    let values = values_of(alloc, drafts.as_slice())?;
    let limit = snapshot.picture().limit();
    let opening = Opening::lasting(1, Vec::new(alloc), values, limit).unwrap();
    match Heap::open(alloc, &opening, limits, drafts) {
        Ok(heap) => Ok(heap),
        Err(refused) => Err(refused.why),
    }
}

// The draft of the vertex 0, which stores the number 0 if it isn't shown.
fn draft_of_zero<P: Payload, M: Maker<P>>(
    alloc: Global,
    maker: &mut M,
    snapshot: &Snapshot,
) -> Result<Draft<P>, AllocError>
    ensures { IfOk result (λ draft. stored_in snapshot.now 0 ≡ Some draft) }
{
    // This call shows that the vertices rise and fit.
    let _ = snapshot.picture();
    let vertices = snapshot.vertices();
    match line_of(vertices, 0) {
        Some(at) => draft_of(alloc, maker, &vertices[at]),
        None => make_draft(alloc, maker, None, Law::Cell, &[0]),
    }
}
