//! The parts of a text, and whether some bytes are a part. What was read from them is written again, and compared.
ghost use Rattle.std.specs.Prelude.{◌≡◌, ◌++◌, codes, IfOk, IsTrue, OnOk};
ghost use Rattle.tg_text.specs.declared.answer.Answer.TheVariants as Answer;
ghost use Rattle.tg_text.specs.Sinks.{Writes};
ghost use Rattle.tg_text.specs.Texts.{answer_text};
ghost use Rattle.tg_entries.specs.Parts.{part_text};

use crate::fault::LineFault;
use crate::write::{write_answered, write_deed, write_end, write_limits, write_sum, write_worker};
use std::alloc::AllocError;
use std::sync::ledger::Ledger;
use tg_model::{Deed, Edge, Reply, Value};
use tg_saved::write_edge;
use tg_text::{Sink, WriteFailed, Written};

/// The content of a line, or of the part of it before ` = `.
#[derive(Clone, Copy)]
pub enum Part<'a> {
    Limits { workers: u64, max_vertices: u64 },
    Worker(&'a Value),
    Edge(&'a Edge),
    Deed { worker: u64, deed: &'a Deed },
    End(u64),
    Sum(&'a [u8; 32]),
}

/// Writes the text of the part again. A bad line where the bytes aren't that text.
pub(crate) fn check_part<L: Ledger>(
    again: &mut Written<L>,
    part: &Part,
    bytes: &[u8],
) -> Result<(), LineFault>
    ensures same { OnOk result (bytes.now ≡ part_text part.now) }
    ensures written { OnOk result (again.new.bytes.items ≡ part_text part.now) }
{
    again.bytes.clear();
    match write_part(again, part) {
        Ok(()) => {
            if again.bytes.as_slice() == bytes {
                Ok(())
            } else {
                Err(LineFault::BadLine)
            }
        }
        Err(_) => Err(LineFault::OutOfMemory),
    }
}

/// Returns whether the line is the text that was written, with the reply after it. Fails only if memory runs out.
pub(crate) fn is_reply<L: Ledger>(
    again: &mut Written<L>,
    reply: &Reply,
    line: &[u8],
) -> Result<bool, AllocError>
    ensures { IfOk result (λ same. IsTrue same → line.now ≡ again.old.bytes.items ++ (codes " = " ++ answer_text (Answer.Reply reply.now))) }
{
    match write_answered(again, reply) {
        Ok(()) => Ok(again.bytes.as_slice() == line),
        Err(_) => Err(AllocError),
    }
}

// Writes the text of the part, or a front of it where the sink fails.
fn write_part<K: Sink>(sink: &mut K, part: &Part) -> Result<(), WriteFailed>
    ensures { Writes (K.taken sink.old) (K.failures sink.old) (part_text part.now) result
        (K.taken sink.new) (K.failures sink.new) }
{
    match part {
        Part::Limits {
            workers,
            max_vertices,
        } => write_limits(sink, *workers, *max_vertices),
        Part::Worker(value) => write_worker(sink, value),
        Part::Edge(edge) => write_edge(sink, **edge),
        Part::Deed { worker, deed } => write_deed(sink, *worker, deed),
        Part::End(count) => write_end(sink, *count),
        Part::Sum(sum) => write_sum(sink, sum),
    }
}
