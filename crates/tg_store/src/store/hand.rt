//! How a worker of a store hands rights on.
ghost use Rattle.std.specs.Prelude.{◌≡◌, ◌↔◌, Err, IfOk, OnErr};
ghost use Rattle.tg_model.specs.Graph.{ProtectionGraph, IsSubject};
ghost use Rattle.tg_store.specs.Handing.{ComesOfHand, LacksCellsToHand};
ghost use Rattle.tg_store.specs.Store.{IsUnchanged, StandsFor};

use crate::fault::ApplyFault;
use crate::handing::{Hand, Handed, hand_on};
use crate::store::Store;
use tg_payload::Payload;

impl<P: Payload> Store<P> {
    /// Hands rights on. `via` takes the rights from `from` over the target, and grants them to `to`. Then it removes
    /// the rights that it didn't hold before. All of this is done, or none of it. Afterwards `to` holds the rights over
    /// the target too, and all other labels are as they were. Each command has an entry of its own, as if the worker
    /// had asked for it. There are two entries, or three with the remove. The answer says which rights were removed.
    ///
    /// The take is decided first, on the graph as it is. It is denied if `via`, `from` and the target aren't distinct.
    /// It is denied too if `via` lacks take over `from`, or if `from` lacks some of the rights over the target. Then
    /// the grant is decided. It is denied if `to` is `via` or the target, or if `via` lacks grant over `to`. So both
    /// denials are those of the graph before the hand. A denied hand has the denied command as its only entry, and
    /// changes nothing else. `from` and `to` may be objects, or subjects that retired.
    ///
    /// The refusals, in the order in which they are looked for. After each the store is as it was, with no entry:
    ///
    /// - `NoSuchWorker`, exactly if no worker has the name `via`.
    /// - `OutOfMemory`, if memory runs out for three entries or for a block. The room for the entries is made first.
    /// - `HeapFull`, only if the hand is allowed and its new edge from `to` to the target needs a cell. The nursery of
    ///   `via` then has no cell left and gets no more blocks.
    ///
    /// Three calls of [`apply`](Store::apply) could be refused half way, because the take may need a cell too. The
    /// rules are those of the take-grant model (Lipton and Snyder 1977).
    pub fn hand(&mut self, hand: Hand) -> Result<Handed, ApplyFault>
        ensures comes { IfOk result (ComesOfHand hand self.old self.new) }
        ensures no_such_worker { (g : ProtectionGraph) → StandsFor self.old g → (result ≡ Err ApplyFault.NoSuchWorker) ↔ (¬ IsSubject g hand.via) }
        ensures full { result ≡ Err ApplyFault.HeapFull → LacksCellsToHand hand self.old }
        ensures refused { OnErr result (IsUnchanged self.old self.new) }
    {
        let Some(subject) = self.heap.subject(hand.via) else {
            return Err(ApplyFault::NoSuchWorker);
        };
        self.journal.reserve_many(3)?;
        let handed = hand_on(&mut self.heap, &mut self.journal, subject, &hand)?;
        Ok(handed)
    }
}
