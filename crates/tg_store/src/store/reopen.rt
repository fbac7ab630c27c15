//! How a store is opened again from a snapshot.
ghost use Rattle.std.specs.Prelude.{◌≡◌, ◌≢◌, ◌↔◌, [], IfErr, IfOk, IsErrAnd};
ghost use Rattle.tg_graph.specs.Heap.{content_of, subject_names};
ghost use Rattle.tg_graph.specs.Standing.{IsContentOf};
ghost use Rattle.tg_snapshot.specs.Snapshot.{graph_shown};
ghost use Rattle.tg_store.specs.Again.{Reopens};

use crate::fault::{ReopenFault, ReopenRefused};
use crate::origin::StoreOrigin;
use crate::store::Store;
use crate::tallied::TalliedJournal;
use std::alloc::Global;
use tg_graph::Heap;
use tg_model::Opening;
use tg_payload::Payload;
use tg_rebuild::{Maker, heap_of};
use tg_snapshot::Snapshot;
use tg_space::{Kind, Limits};

impl<P: Payload> Store<P> {
    /// Opens a store again from a snapshot. Its graph is the one that the snapshot shows, with the same subjects, edges
    /// and values. As many vertices count as made, so names go on. From then on each deed is answered as the first
    /// store would have answered it.
    ///
    /// Places in the journal go on too. The next entry gets the place `snapshot.entries()`, and the store holds no
    /// entry from before. `opening` is the first opening of all. It is kept for audits, and its limit of vertices has
    /// to be that of the snapshot. The maker makes the payload of each vertex.
    ///
    /// At the end the store is collected in full, if there is room for the copy that a collection makes. Otherwise its
    /// cells stay in nurseries until the next collection.
    ///
    /// The refusals, in the order in which they are looked for. Each hands the opening back, and leaves the snapshot as
    /// it was:
    ///
    /// - `LimitDiffers`, exactly if the opening's limit of vertices isn't that of the snapshot. Nothing is made then.
    /// - `NoSubject`, exactly if the limits are the same and the snapshot has no active subject. Nothing is made then.
    /// - `HeapFull`, if the blocks that the limits allow don't hold all vertices and edges. Everything that was made is
    ///   dropped.
    /// - `OutOfMemory`, if memory runs out here or in the maker. Everything that was made is dropped.
    pub fn reopen<M: Maker<P>>(
        alloc: Global,
        opening: Opening,
        snapshot: &Snapshot,
        limits: Limits,
        maker: &mut M,
    ) -> Result<Store<P>, ReopenRefused>
        ensures reopened { IfOk result (Reopens opening snapshot.now limits) }
        ensures differs { IsErrAnd result (λ refused. refused.why ≡ ReopenFault.LimitDiffers) ↔ (opening.limit ≢ snapshot.now.picture.limit) }
        ensures no_subject { IsErrAnd result (λ refused. refused.why ≡ ReopenFault.NoSubject) ↔ ((opening.limit ≡ snapshot.now.picture.limit) × (snapshot.now.picture.subjects ≡ [])) }
        ensures handed_back { IfErr result (λ refused. refused.opening ≡ opening) }
    {
        if opening.max_vertices() != snapshot.picture().limit() {
            let why = ReopenFault::LimitDiffers;
            return Err(ReopenRefused { opening, why });
        }
        if snapshot.picture().subjects().is_empty() {
            let why = ReopenFault::NoSubject;
            return Err(ReopenRefused { opening, why });
        }
        match heap_of(alloc, snapshot, limits, maker) {
            Ok(heap) => Ok(Store::over(alloc, opening, snapshot, heap)),
            Err(fault) => {
                let why = ReopenFault::from(fault);
                Err(ReopenRefused { opening, why })
            }
        }
    }

    // The store that goes on from a snapshot with its heap, after a full collection, unless that is refused.
    fn over(alloc: Global, opening: Opening, snapshot: &Snapshot, heap: Heap<P>) -> Store<P>
        requires limit { opening.limit ≡ snapshot.now.picture.limit }
        requires acts { snapshot.now.picture.subjects ≢ [] }
        requires stands { IsContentOf (content_of heap) (graph_shown snapshot.now) }
        requires subjects { subject_names heap ≡ snapshot.now.picture.subjects }
        ensures { Reopens opening snapshot.now heap.table.limits result }
    {
        // This call shows that the opening is one.
        let _ = opening.workers();
        let made = snapshot.picture().made();
        let journal = TalliedJournal::after(alloc, snapshot);
        let origin = StoreOrigin::again(opening, snapshot);
        let mut store = Store::begin(alloc, origin, made, heap, journal);
        // Refused, it leaves the cells where they are.
        let _ = store.collect(Kind::Full);
        store
    }
}
