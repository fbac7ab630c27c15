//! Lines, written as text.
ghost use Rattle.std.specs.Prelude.{◌≡◌, ◌∷◌, ◌++◌, [], IfOk, decimal};
ghost use Rattle.std.specs.List.{join_with_byte};
ghost use Rattle.tg_rights.specs.RightSet.{text_of};
ghost use Rattle.tg_text.specs.declared.line.Line.TheVariants as Line;
ghost use Rattle.tg_text.specs.Deeds.{deed_line};
ghost use Rattle.tg_text.specs.Grammar.{line_text, words_of_arguments};
ghost use Rattle.tg_text.specs.Sinks.{Writes};
ghost use Rattle.tg_text.specs.Inner.Counting.{MayCount};
ghost use Rattle.tg_text.specs.Inner.Words.{words_behind};

use crate::count::Count;
use crate::line::Line;
use crate::memory::Written;
use crate::sink::{Sink, WriteFailed, put_all, put_texts};
use itoa::Buffer;
use std::alloc::{AllocError, Global};
use std::marker::Brand;
use std::sync::ledger::{Blank, Ledger};
use tg_model::{Arguments, Command, Deed, Edge};
use tg_rights::Label;

/// Writes the line's text without its line feed, or a front of it where the sink fails. Takes no memory.
pub fn write_line<K: Sink>(sink: &mut K, line: Line) -> Result<(), WriteFailed>
    ensures { Writes (K.taken sink.old) (K.failures sink.old) (line_text line) result
        (K.taken sink.new) (K.failures sink.new) }
{
    match line {
        Line::Edge(edge) => write_edge(sink, edge),
        Line::Create { worker, label } => write_making(sink, worker, b"create", label),
        Line::Spawn { worker, label } => write_making(sink, worker, b"spawn", label),
        Line::Plain { worker, command } => write_command(sink, worker, command),
        Line::Full => put_all(sink, b"full"),
        Line::Minor => put_all(sink, b"minor"),
    }
}

/// Returns the line by which the worker asks for the deed. The line doesn't have the value of a new vertex.
pub fn line_of_deed(worker: u64, deed: &Deed) -> Line
    ensures { result ≡ deed_line worker deed.now }
{
    match deed {
        Deed::Create { label, .. } => Line::Create {
            worker,
            label: *label,
        },
        Deed::Spawn { label, .. } => Line::Spawn {
            worker,
            label: *label,
        },
        Deed::Plain(command) => Line::Plain {
            worker,
            command: *command,
        },
    }
}

/// The line's text without its line feed. Fails only when out of memory.
pub fn line_bytes(alloc: Global, line: Line) -> Result<Vec<u8>, AllocError>
    ensures { IfOk result (λ text. text.items ≡ line_text line) }
{
    bytes_counted::<Brand>(alloc, Blank::new(1), line)
}

// The ledger counts how often memory runs out.
fn bytes_counted<L: Ledger>(alloc: Global, blank: Blank, line: Line) -> Result<Vec<u8>, AllocError>
    requires { MayCount L.name L.parts blank }
    ensures { IfOk result (λ text. text.items ≡ line_text line) }
{
    let mut sink = Written::new(alloc, Count::<L>::new(blank));
    let written = write_line(&mut sink, line);
    let Written { bytes, .. } = sink;
    match written {
        Ok(()) => Ok(bytes),
        Err(WriteFailed) => Err(AllocError),
    }
}

// Writes the words of an edge: two vertices and rights, as after a take.
fn write_edge<K: Sink>(sink: &mut K, edge: Edge) -> Result<(), WriteFailed>
    ensures { Writes (K.taken sink.old) (K.failures sink.old) (line_text (Line.Edge edge)) result
        (K.taken sink.new) (K.failures sink.new) }
{
    put_all(sink, b"edge")?;
    write_move(sink, edge.from, edge.to, edge.label)
}

// Writes the words by which a vertex is made.
fn write_making<K: Sink>(
    sink: &mut K,
    worker: u64,
    word: &[u8],
    label: Label,
) -> Result<(), WriteFailed>
    ensures { Writes (K.taken sink.old) (K.failures sink.old)
        (join_with_byte 32 (decimal worker ∷ word.now ∷ text_of label ∷ [])) result
        (K.taken sink.new) (K.failures sink.new) }
{
    write_front(sink, worker, word)?;
    write_rights(sink, label)
}

// Writes the words of a command.
fn write_command<K: Sink>(sink: &mut K, worker: u64, command: Command) -> Result<(), WriteFailed>
    ensures { Writes (K.taken sink.old) (K.failures sink.old) (line_text (Line.Plain worker command)) result
        (K.taken sink.new) (K.failures sink.new) }
{
    let (verb, arguments) = command.parts();
    write_front(sink, worker, verb.word())?;
    write_arguments(sink, arguments)
}

// Writes who asks, and the word.
fn write_front<K: Sink>(sink: &mut K, worker: u64, word: &[u8]) -> Result<(), WriteFailed>
    ensures { Writes (K.taken sink.old) (K.failures sink.old) (decimal worker ++ 32 ∷ word.now) result
        (K.taken sink.new) (K.failures sink.new) }
{
    let mut digits = Buffer::new();
    put_texts(sink, &[digits.format(worker).as_bytes(), b" ", word])
}

// Writes what comes after the word of a command, each word after a space.
#[inline(always)]
fn write_arguments<K: Sink>(sink: &mut K, arguments: Arguments) -> Result<(), WriteFailed>
    ensures { Writes (K.taken sink.old) (K.failures sink.old) (words_behind (words_of_arguments arguments)) result
        (K.taken sink.new) (K.failures sink.new) }
{
    match arguments {
        Arguments::Bare => Ok(()),
        Arguments::Target { target } => write_number(sink, target),
        Arguments::Value { target, value } => write_value(sink, target, value),
        Arguments::Rights { target, rights } => write_held(sink, target, rights),
        Arguments::Move {
            via,
            target,
            rights,
        } => write_move(sink, via, target, rights),
    }
}

// Writes a vertex and a value.
#[inline(always)]
fn write_value<K: Sink>(sink: &mut K, target: u64, value: u64) -> Result<(), WriteFailed>
    ensures { Writes (K.taken sink.old) (K.failures sink.old)
        (words_behind (decimal target ∷ decimal value ∷ [])) result
        (K.taken sink.new) (K.failures sink.new) }
{
    write_number(sink, target)?;
    write_number(sink, value)
}

// Writes a vertex and rights.
#[inline(always)]
fn write_held<K: Sink>(sink: &mut K, target: u64, label: Label) -> Result<(), WriteFailed>
    ensures { Writes (K.taken sink.old) (K.failures sink.old)
        (words_behind (decimal target ∷ text_of label ∷ [])) result
        (K.taken sink.new) (K.failures sink.new) }
{
    write_number(sink, target)?;
    write_rights(sink, label)
}

// Writes two vertices and rights.
#[inline(always)]
fn write_move<K: Sink>(sink: &mut K, via: u64, target: u64, label: Label) -> Result<(), WriteFailed>
    ensures { Writes (K.taken sink.old) (K.failures sink.old)
        (words_behind (decimal via ∷ decimal target ∷ text_of label ∷ [])) result
        (K.taken sink.new) (K.failures sink.new) }
{
    write_number(sink, via)?;
    write_held(sink, target, label)
}

// Writes a number after a space.
fn write_number<K: Sink>(sink: &mut K, number: u64) -> Result<(), WriteFailed>
    ensures { Writes (K.taken sink.old) (K.failures sink.old) (32 ∷ decimal number) result
        (K.taken sink.new) (K.failures sink.new) }
{
    let mut digits = Buffer::new();
    put_texts(sink, &[b" ", digits.format(number).as_bytes()])
}

// Writes rights after a space.
fn write_rights<K: Sink>(sink: &mut K, label: Label) -> Result<(), WriteFailed>
    ensures { Writes (K.taken sink.old) (K.failures sink.old) (32 ∷ text_of label) result
        (K.taken sink.new) (K.failures sink.new) }
{
    let rights = label.rights().text();
    put_texts(sink, &[b" ", rights.as_bytes()])
}
