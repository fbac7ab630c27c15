//! A source and a sink with one client at the other end of both.
ghost use Rattle.std.specs.Prelude.{◌≡◌, ◌⊎◌, ◌+◌, true, false, IfOk, OnOk, OnErr};
ghost use Rattle.tg_text.specs.Sources.{TellsNext, failures_of};
ghost use Rattle.tg_text.specs.Sinks.{KeepsBytes};

use crate::sink::{Sink, WriteFailed};
use crate::source::{Next, Source};

/// Returns the next byte. If the source doesn't hold its next answer, the bytes in the sink are finished first, because
/// a client may wait for them. If that fails, the answer is `WriteFailed`, and the source isn't asked.
pub fn next_byte<S: Source, K: Sink>(source: &mut S, sink: &mut K) -> Result<Next, WriteFailed>
    ensures bytes { IfOk result (λ next. TellsNext (S.left source.old) next (S.left source.new)) }
    ensures read_failures { IfOk result (λ next. S.failures source.new ≡ S.failures source.old + failures_of next) }
    ensures asked { OnOk result (S.asked source.new ≡ S.asked source.old + 1) }
    ensures unasked { OnErr result (source.new ≡ source.old) }
    ensures taken { KeepsBytes (K.taken sink.old) (K.taken sink.new) }
    ensures finished { S.ready source.old ≡ false → K.finished sink.new ≡ true }
    ensures written { OnOk result (K.failures sink.new ≡ K.failures sink.old) }
    ensures write_failed { OnErr result (K.failures sink.new ≡ K.failures sink.old + 1) }
{
    if !source.is_ready() && !sink.finish() {
        return Err(WriteFailed);
    }
    Ok(ask(source, sink))
}

// Asks for the next byte. Nothing is kept back in the sink where the answer may have to be waited for.
fn ask<S: Source, K: Sink>(source: &mut S, _sink: &K) -> Next
    requires answered { (S.ready source.old ≡ true) ⊎ (K.finished _sink.now ≡ true) }
    ensures bytes { TellsNext (S.left source.old) result (S.left source.new) }
    ensures failures { S.failures source.new ≡ S.failures source.old + failures_of result }
    ensures asked { S.asked source.new ≡ S.asked source.old + 1 }
{
    source.next()
}
