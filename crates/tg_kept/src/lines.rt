//! The lines by which a file keeps a history.
ghost use Rattle.std.specs.Prelude.{◌≡◌, ◌∷◌, ◌++◌, ◌<◌, [], true, map, IfOk, OnOk, IsOk};
ghost use Rattle.tg_text.specs.Sinks.{Writes};
ghost use Rattle.tg_entries.specs.Texts.{end_text};
ghost use Rattle.tg_keep.specs.Batches.{batch_texts};
ghost use Rattle.tg_keep.specs.Lines.{is_entry};
ghost use Rattle.tg_kept.specs.Said.{said_line, said_text};
ghost use Rattle.tg_kept.specs.Texts.{edge_line, entry_line, opening_lines, unended, worker_line};

use std::alloc::{AllocError, Global};
use std::marker::Brand;
use std::sync::ledger::{Blank, Ledger};
use tg_entries::{write_end, write_entry, write_limits, write_worker};
use tg_journal::Entry;
use tg_keep::{Batch, BatchFault, LineSum};
use tg_model::{Edge, Opening, Value};
use tg_saved::write_edge;
use tg_text::{Count, Sink, WriteFailed, Written};

// What one line of a kept file says.
#[derive(Clone, Copy)]
enum Said<'a> {
    Limits { workers: u64, max_vertices: u64 },
    Worker(&'a Value),
    Edge(Edge),
    Entry(&'a Entry),
}

/// Makes the lines of entries, in their order, which come after a line with the sum `before`. Fails only if memory runs
/// out.
pub fn entry_lines(alloc: Global, before: LineSum, entries: &[Entry]) -> Result<Batch, AllocError>
    ensures texts { IfOk result (λ batch. batch_texts batch ≡ map entry_line entries.now) }
    ensures before { IfOk result (λ batch. batch.before ≡ before) }
{
    entry_lines_named::<Brand>(alloc, Blank::new(1), before, entries)
}

/// Makes the lines of an opening, which come after a line with the sum `before`. They are its limits, the value of each
/// worker and each edge. Fails only if memory runs out.
pub fn opening_lines(alloc: Global, before: LineSum, opening: &Opening) -> Result<Batch, AllocError>
    ensures texts { IfOk result (λ batch. batch_texts batch ≡ opening_lines opening.now) }
    ensures before { IfOk result (λ batch. batch.before ≡ before) }
{
    opening_lines_named::<Brand>(alloc, Blank::new(1), before, opening)
}

// The ledger names the buffer of a line.
fn entry_lines_named<L: Ledger>(
    alloc: Global,
    blank: Blank,
    before: LineSum,
    entries: &[Entry],
) -> Result<Batch, AllocError>
    requires name { blank.name ≡ L.name }
    requires parts { blank.parts ≡ L.parts }
    requires some { 0 < blank.parts }
    ensures texts { IfOk result (λ batch. batch_texts batch ≡ map entry_line entries.now) }
    ensures before { IfOk result (λ batch. batch.before ≡ before) }
{
    let mut batch = Batch::new(alloc, before);
    let mut line = Written::new(alloc, Count::<L>::new(blank));
    for entry in entries {
        add_said(&mut batch, &mut line, &Said::Entry(entry))?;
    }
    Ok(batch)
}

// The ledger names the buffer of a line.
fn opening_lines_named<L: Ledger>(
    alloc: Global,
    blank: Blank,
    before: LineSum,
    opening: &Opening,
) -> Result<Batch, AllocError>
    requires name { blank.name ≡ L.name }
    requires parts { blank.parts ≡ L.parts }
    requires some { 0 < blank.parts }
    ensures texts { IfOk result (λ batch. batch_texts batch ≡ opening_lines opening.now) }
    ensures before { IfOk result (λ batch. batch.before ≡ before) }
{
    let mut batch = Batch::new(alloc, before);
    let mut line = Written::new(alloc, Count::<L>::new(blank));
    let limits = Said::Limits {
        workers: opening.workers(),
        max_vertices: opening.max_vertices(),
    };
    add_said(&mut batch, &mut line, &limits)?;
    add_workers(&mut batch, &mut line, opening.values())?;
    add_edges(&mut batch, &mut line, opening.edges())?;
    Ok(batch)
}

/// Makes the line with the number of entries, with its line feed. Fails only if memory runs out.
pub(crate) fn end_line(alloc: Global, count: u64) -> Result<Vec<u8>, AllocError>
    ensures { IfOk result (λ line. line.items ≡ end_text count) }
{
    end_line_named::<Brand>(alloc, Blank::new(1), count)
}

// The ledger names the buffer of the line.
fn end_line_named<L: Ledger>(alloc: Global, blank: Blank, count: u64) -> Result<Vec<u8>, AllocError>
    requires name { blank.name ≡ L.name }
    requires parts { blank.parts ≡ L.parts }
    requires some { 0 < blank.parts }
    ensures { IfOk result (λ line. line.items ≡ end_text count) }
{
    let mut line = Written::new(alloc, Count::<L>::new(blank));
    match write_end(&mut line, count) {
        Ok(()) => Ok(line.bytes),
        Err(WriteFailed) => Err(AllocError),
    }
}

fn add_workers<L: Ledger>(
    batch: &mut Batch,
    line: &mut Written<L>,
    values: &[Value],
) -> Result<(), AllocError>
    ensures texts { OnOk result (batch_texts batch.new ≡ batch_texts batch.old ++ map worker_line values.now) }
    ensures before { batch.new.before ≡ batch.old.before }
{
    for value in values {
        add_said(batch, line, &Said::Worker(value))?;
    }
    Ok(())
}

fn add_edges<L: Ledger>(
    batch: &mut Batch,
    line: &mut Written<L>,
    edges: &[Edge],
) -> Result<(), AllocError>
    ensures texts { OnOk result (batch_texts batch.new ≡ batch_texts batch.old ++ map edge_line edges.now) }
    ensures before { batch.new.before ≡ batch.old.before }
{
    for edge in edges {
        add_said(batch, line, &Said::Edge(*edge))?;
    }
    Ok(())
}

// Adds one line to the batch. The line is written into the buffer first.
fn add_said<L: Ledger>(
    batch: &mut Batch,
    line: &mut Written<L>,
    said: &Said,
) -> Result<(), AllocError>
    ensures texts { OnOk result (batch_texts batch.new ≡ batch_texts batch.old ++ said_line said.now ∷ []) }
    ensures before { batch.new.before ≡ batch.old.before }
{
    line.bytes.clear();
    match write_said(line, said) {
        Ok(()) => add_written(batch, &line.bytes),
        Err(WriteFailed) => Err(AllocError),
    }
}

// Adds the line that was written, without its line feed.
fn add_written(batch: &mut Batch, written: &[u8]) -> Result<(), AllocError>
    requires { is_entry (unended written.now) ≡ true }
    ensures texts { OnOk result (batch_texts batch.new ≡ batch_texts batch.old ++ unended written.now ∷ []) }
    ensures before { batch.new.before ≡ batch.old.before }
{
    match batch.add(&written[..written.len().saturating_sub(1)]) {
        Ok(()) => Ok(()),
        Err(BatchFault::OutOfMemory) => Err(AllocError),
        Err(BatchFault::BadText) => unreachable!(),
    }
}

// Writes one line, with its line feed, or a front of the line if the sink fails.
fn write_said<K: Sink>(sink: &mut K, said: &Said) -> Result<(), WriteFailed>
    ensures { Writes (K.taken sink.old) (K.failures sink.old) (said_text said.now) result
        (K.taken sink.new) (K.failures sink.new) }
{
    match said {
        Said::Limits {
            workers,
            max_vertices,
        } => write_limits(sink, *workers, *max_vertices),
        Said::Worker(value) => write_worker(sink, value),
        Said::Edge(edge) => write_edge(sink, *edge),
        Said::Entry(entry) => write_entry(sink, entry),
    }
}
