//! An entry that lists edges, whose line is compared edge by edge.
ghost use Rattle.std.specs.Prelude.{◌≡◌, ◌++◌, [], codes, IfOk, IsTrue, OnOk};
ghost use Rattle.std.specs.List.{flat_map};
ghost use Rattle.tg_model.specs.declared.reply.Reply.TheVariants.{Edges};
ghost use Rattle.tg_text.specs.declared.answer.Answer.TheVariants as Answer;
ghost use Rattle.tg_text.specs.Sinks.{Writes};
ghost use Rattle.tg_text.specs.Texts.{answer_text, edge_text};
ghost use Rattle.tg_entries.specs.Pieces.{Loses};

use crate::fault::LongFault;
use crate::piece::takes;
use itoa::Buffer;
use std::alloc::AllocError;
use std::io::BufRead;
use std::sync::ledger::Ledger;
use tg_rights::Label;
use tg_text::{Sink, WriteFailed, Written, put_texts};

/// Returns whether the line is the text that was written, with a listing of these edges after it.
pub(crate) fn is_listing<L: Ledger, R: BufRead>(
    again: &mut Written<L>,
    edges: &[(u64, Label)],
    reader: &mut R,
    line: &mut Vec<u8>,
) -> Result<bool, LongFault>
    ensures { IfOk result (λ same. IsTrue same → Loses line.old.items (R.remaining reader.old)
        (again.old.bytes.items ++ (codes " = " ++ answer_text (Answer.Reply (Edges edges.now)))) [] (R.remaining reader.new)) }
{
    again.bytes.extend_from_slice(b" = ok")?;
    if !takes(reader, line, again.bytes.as_slice())? || !are_next(again, edges, reader, line)? {
        return Ok(false);
    }
    Ok(takes(reader, line, b"\n")? && line.is_empty())
}

// Whether the edges come next in the line, each of which is written in turn.
fn are_next<L: Ledger, R: BufRead>(
    again: &mut Written<L>,
    edges: &[(u64, Label)],
    reader: &mut R,
    line: &mut Vec<u8>,
) -> Result<bool, LongFault>
    ensures { IfOk result (λ same. IsTrue same → Loses line.old.items (R.remaining reader.old) (flat_map edge_text edges.now) line.new.items (R.remaining reader.new)) }
{
    for edge in edges {
        write_again(again, *edge)?;
        if !takes(reader, line, again.bytes.as_slice())? {
            return Ok(false);
        }
    }
    Ok(true)
}

// Writes the edge in the place of what was written before. Fails only when out of memory.
fn write_again<L: Ledger>(again: &mut Written<L>, edge: (u64, Label)) -> Result<(), AllocError>
    ensures { OnOk result (again.new.bytes.items ≡ edge_text edge) }
{
    again.bytes.clear();
    match write_listed(again, edge) {
        Ok(()) => Ok(()),
        Err(_) => Err(AllocError),
    }
}

// Writes an edge as a listing has it, or a front of it where the sink fails.
fn write_listed<K: Sink>(sink: &mut K, edge: (u64, Label)) -> Result<(), WriteFailed>
    ensures { Writes (K.taken sink.old) (K.failures sink.old) (edge_text edge) result
        (K.taken sink.new) (K.failures sink.new) }
{
    let mut digits = Buffer::new();
    let rights = edge.1.rights().text();
    put_texts(
        sink,
        &[
            b" ",
            digits.format(edge.0).as_bytes(),
            b":",
            rights.as_bytes(),
        ],
    )
}
