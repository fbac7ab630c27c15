//! Makers of payloads.
ghost use Rattle.std.specs.Prelude.{◌≡◌, IfOk};
ghost use Rattle.tg_model.specs.Law.{Fits};

use std::alloc::{AllocError, Global};
use tg_model::Law;
use tg_payload::{LawPayload, Payload};

/// Makes the payloads of vertices that are made again.
pub trait Maker<P: Payload> {
    /// A payload with this law and this state, which fits the law. Fails only when out of memory.
    ///
    /// `name` is the name of the vertex that is to have the payload. A host must not believe it, because whoever wrote
    /// the snapshot or the entry wrote the name. The payload is dropped again if the entry turns out bad, or if there
    /// is no room.
    ///
    /// - [`heap_of`](crate::heap_of) asks once for each vertex of its snapshot. It asks once without a name if the
    ///   snapshot doesn't show the vertex 0. Then nobody reaches that vertex.
    /// - `resume` of `tg_resume` asks once for each entry that makes a vertex. There is no name if the entry says that
    ///   no vertex was made. Then the payload is dropped.
    fn make(&mut self, name: Option<u64>, law: Law, state: &[u64]) -> Result<P, AllocError>
        requires { Fits law state.now }
        ensures { IfOk result (λ payload. P.value payload ≡ record { law = law; state = state.now }) };
}

/// Makes payloads of the four laws, from their law and state alone.
#[derive(Clone, Copy)]
pub struct ByLaw {
    pub alloc: Global,
}

impl Maker<LawPayload> for ByLaw {
    fn make(
        &mut self,
        _name: Option<u64>,
        law: Law,
        state: &[u64],
    ) -> Result<LawPayload, AllocError> {
        LawPayload::of(self.alloc, law, state)
    }
}
