//! Payloads for a run.
ghost use Rattle.std.specs.Prelude.{◌≡◌, IfOk, map};

use std::alloc::{AllocError, Global};
use tg_payload::{Draft, Payload};

/// Drafts of the payloads, in order. Fails only when out of memory, and the payloads are then dropped.
pub fn drafts_of<P: Payload>(alloc: Global, payloads: Vec<P>) -> Result<Vec<Draft<P>>, AllocError>
    ensures { IfOk result (λ drafts. drafts.items ≡ map P.value payloads.items) }
{
    let mut drafts = Vec::with_capacity(alloc, payloads.len())?;
    for payload in payloads {
        let Ok(draft) = Draft::new(alloc, payload) else {
            return Err(AllocError);
        };
        drafts.push(draft)?;
    }
    Ok(drafts)
}
