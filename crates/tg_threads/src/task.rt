//! The tasks that the lines of a script give to the sessions, and their results.
ghost use Rattle.std.specs.Prelude.{◌≡◌, ◌<◌, IfSome, length};
ghost use Rattle.tg_threads.specs.Shares.{runner_of, thread_of};

use tg_payload::{Draft, Payload};
use tg_text::{Line, Refusal};

/// A line, with the payload for the vertex that it makes.
#[derive(Drop)]
pub struct Task<P: Payload> {
    /// A line of the session's worker that is no edge line. Or a collection, if the session is worker 0's.
    pub line: Line,
    /// The payload for the vertex, if the line makes a vertex and there is a payload for it.
    pub draft: Option<Draft<P>>,
}

/// The result of a line.
#[derive(Clone, Copy, PartialEq, Eq, Debug)]
pub enum Told {
    /// The entry at this place of the journal.
    Entered { at: u64 },
    /// A collection was made. A full one answers how many vertices it kept.
    Collected(Option<u64>),
    /// The line was refused, and there is no entry of it.
    Refused(Refusal),
}

/// The thread whose session runs the line, from 0 on. It is the thread of the line's own worker, or the first thread
/// for a collection. The threads are in the order of their workers' names.
pub fn runner(names: &[u64], line: &Line) -> Option<u64>
    ensures thread { result ≡ runner_of names.now line.now }
    ensures within { IfSome result (λ k. 0 < length names.now → k < length names.now) }
{
    match line {
        Line::Create { worker, .. } | Line::Spawn { worker, .. } | Line::Plain { worker, .. } => {
            thread_of(names, *worker)
        }
        Line::Full | Line::Minor => Some(0),
        Line::Edge(_) => None,
    }
}

// The place of the name among the names.
fn thread_of(names: &[u64], worker: u64) -> Option<u64>
    ensures thread { result ≡ thread_of names.now worker }
    ensures within { IfSome result (λ k. 0 < length names.now → k < length names.now) }
{
    for (at, name) in names.iter().enumerate() {
        if *name == worker {
            return Some(at as u64);
        }
    }
    None
}
