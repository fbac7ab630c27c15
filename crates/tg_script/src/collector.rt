//! What makes the collections of a script.
ghost use Rattle.std.specs.Prelude.{◌≡◌};

use crate::helpers::Helpers;
use crate::refusals::collect_refusal;
use tg_payload::Payload;
use tg_store::{Kind, Store};
use tg_text::Refusal;

/// Makes the collections of a script. This crate starts no threads. A crate above it has a collector that does, and a
/// run has the same promise with each collector.
pub trait Collector {
    ghost use Rattle.std.specs.Prelude.{◌≡◌, IfErr, IfOk};
    ghost use Rattle.tg_model.specs.Graph.{ProtectionGraph, IsReachable};
    ghost use Rattle.tg_script.specs.Script.{MayWant};
    ghost use Rattle.tg_store.specs.Store.{IsCountOf, StandsFor};

    /// What a caller has to know of the collector. If it shares a value among threads, the value's type allows it.
    ghost Ready: { Type 0 };

    /// Collects the store with so many helpers, or with fewer. A full collection keeps exactly the vertices that can be
    /// reached, and returns how many there are. The number that a nursery collection returns isn't specified.
    ///
    /// The call is refused with `Memory`, with `Heap` if a space needs more blocks than it may have, or with `Threads`.
    /// `Threads` comes only if there was to be more than one helper. The graph of the store is then unchanged.
    fn collect<P: Payload>(
        &self,
        store: &mut Store<P>,
        kind: Kind,
        helpers: Helpers,
    ) -> Result<u64, Refusal>
        requires { Ready }
        ensures reachable { (g : ProtectionGraph) → StandsFor store.old g → IfOk result (λ number. kind ≡ Kind.Full → IsCountOf (IsReachable g) number) }
        ensures refused { IfErr result (MayWant helpers) }
        ensures entries { store.new.entries ≡ store.old.entries }
        ensures handed { store.new.handed ≡ store.old.handed }
        ensures opening { store.new.opening ≡ store.old.opening };
}

/// The thread that runs the script, which collects alone, however many helpers it is asked for.
#[derive(Clone, Copy, Debug)]
pub struct OneThread;

impl Collector for OneThread {
    ghost Ready = { Unit {0} };

    fn collect<P: Payload>(
        &self,
        store: &mut Store<P>,
        kind: Kind,
        _helpers: Helpers,
    ) -> Result<u64, Refusal> {
        match store.collect(kind) {
            Ok(kept) => Ok(kept),
            Err(fault) => Err(collect_refusal(fault)),
        }
    }
}
