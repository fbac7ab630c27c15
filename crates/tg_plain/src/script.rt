//! The lines of a script.
ghost use Rattle.std.specs.Prelude.{◌≡◌, ℕ, List, Some, None, IfOk, OnErr, OnOk};
ghost use Rattle.tg_plain.specs.Lines.{IsEmptyScript, IsNumbered, IsReadOf, NamesBoxes, RunsOn};
ghost use Rattle.tg_plain.specs.Inner.Reading.{AddsLine, HasLinesOf, HasNoLine, IsNewReading, IsReadAs, KeepsOptions, MayCountBoth};

use crate::bad_stock::stock_reason;
use crate::fault::PlainFault;
use crate::heard::Heard;
use crate::options::PlainOptions;
use crate::reading::Reading;
use crate::text::PlainText;
use std::alloc::{AllocError, Global};
use std::io::{self, BufRead, BufReader, ErrorKind, Read};
use std::marker::Brand;
use std::sync::ledger::{Blank, Ledger};
use tg_model::Edge;
use tg_text::{Count, Line, OfRead, ScriptFault, Source, StockFault, StockItem, read_stock};

/// How many bytes are read at once.
pub(crate) const BLOCK: usize = 65536;

/// A line of a script.
#[derive(Clone, Copy)]
pub struct ScriptLine {
    /// Its number, from 1 on.
    pub number: u64,
    /// What its text says.
    pub line: Line,
}

/// A script as far as the first fault in its bytes, and what it runs on. It has at most 1,048,576 bytes, and each line
/// at most 256, as in `tgstore`. So it takes bounded memory, whatever is read.
#[derive(Drop)]
pub struct Script {
    /// Where memory comes from.
    pub alloc: Global,
    /// How many workers there are at first.
    pub workers: u64,
    /// How many vertices may ever be made.
    pub max_vertices: u64,
    /// The boxes that creates and spawns take first.
    pub stock: Vec<StockItem>,
    /// Whether they take cells without end after these boxes. Otherwise they are refused then.
    pub is_endless: bool,
    /// The edges of the edge lines, which are before all other lines.
    pub edges: Vec<Edge>,
    /// The other lines before the first fault, or all of them.
    pub lines: Vec<ScriptLine>,
    /// The first fault in the bytes, or `None` where all of them are lines.
    pub fault: Option<ScriptFault>,
    // Why the line is bad that is at fault.
    reason: &'static str,
}

// How the lines of a reader were added, and why the last line is bad, if it is bad.
#[derive(Drop)]
struct Filled<B: Drop> {
    reader: B,
    outcome: Result<(), ScriptFault>,
    reason: &'static str,
}

impl Script {
    // A script with no line. `BadStock` if the text of the stock is none. Else it fails only when out of memory.
    fn new(alloc: Global, options: PlainOptions) -> Result<Script, PlainFault>
        ensures { IfOk result (IsEmptyScript options.entry) }
    {
        Ok(Script {
            alloc,
            workers: options.workers,
            max_vertices: options.max_vertices,
            stock: named_boxes(alloc, options.stock)?,
            is_endless: options.stock.is_none(),
            edges: Vec::new(alloc),
            lines: Vec::new(alloc),
            fault: None,
            reason: "",
        })
    }

    /// The script that the reader has, as far as its first fault, to be run with these options. Its lines are those of
    /// the bytes that are left in the reader. `BadStock` if the text of the stock is none, and then nothing is read.
    /// `Stream` if the reader failed. Else it fails only when out of memory.
    pub fn read<R: Read + Drop>(
        alloc: Global,
        options: PlainOptions,
        reader: R,
    ) -> Result<Script, PlainFault>
        ensures options { IfOk result (RunsOn options.entry) }
        ensures lines { (bytes : List ℕ) → R.remaining reader ≡ Some bytes → IfOk result (IsReadOf bytes) }
        ensures numbered { IfOk result IsNumbered }
    {
        let mut script = Script::new(alloc, options)?;
        let Ok(reader) = BufReader::with_capacity(alloc, BLOCK, Heard::new(reader)) else {
            return Err(PlainFault::OutOfMemory(AllocError));
        };
        let filled = script.fill::<Brand, Brand, BufReader<Heard<R>>>(
            Blank::new(1),
            Blank::new(1),
            reader,
        );
        match filled.outcome {
            Ok(()) => Ok(script),
            Err(ScriptFault::OutOfMemory) => Err(PlainFault::OutOfMemory(AllocError)),
            Err(ScriptFault::ReadFailed) => {
                Err(PlainFault::Stream(failure_of(filled.reader.get_ref())))
            }
            Err(fault) => {
                script.fault = Some(fault);
                script.reason = filled.reason;
                Ok(script)
            }
        }
    }

    // Adds the lines of the reader. These ledgers name how often it is asked, and how often it fails.
    fn fill<A: Ledger, F: Ledger, B: BufRead + Drop>(
        &mut self,
        asked: Blank,
        failures: Blank,
        reader: B,
    ) -> Filled<B>
        requires countable { MayCountBoth A.name A.parts F.name F.parts asked failures }
        requires empty { HasNoLine self.old }
        ensures kept { KeepsOptions self.old self.new }
        ensures lines { (bytes : List ℕ) → B.remaining reader ≡ Some bytes → IsReadAs bytes result.outcome self.new }
        ensures numbered { IsNumbered self.new }
    {
        let (asked, failures) = (Count::<A>::new(asked), Count::<F>::new(failures));
        let mut source = OfRead::new(reader, asked, failures);
        let mut reading = Reading::new(self.workers);
        let outcome = self.add_lines(&mut source, &mut reading);
        let OfRead { reader, .. } = source;
        Filled {
            reader,
            outcome,
            reason: reading.reason(),
        }
    }

    // Adds the lines of the source, up to its end or its first fault.
    fn add_lines<S: Source>(
        &mut self,
        source: &mut S,
        reading: &mut Reading,
    ) -> Result<(), ScriptFault>
        requires fresh { IsNewReading reading.old self.old.workers }
        requires empty { HasNoLine self.old }
        ensures kept { KeepsOptions self.old self.new }
        ensures lines { (bytes : List ℕ) → S.left source.old ≡ Some bytes → IsReadAs bytes result self.new }
        ensures numbered { IsNumbered self.new }
    {
        // Nothing is written while lines are read.
        let mut sink = PlainText::new(self.alloc);
        'lines: while let Some(line) = reading.next(source, &mut sink)? {
            if self.add(reading.count, line).is_err() {
                return Err(ScriptFault::OutOfMemory);
            }
        }
        Ok(())
    }

    // Adds a line. Fails only when out of memory, and nothing changes then.
    fn add(&mut self, number: u64, line: Line) -> Result<(), AllocError>
        ensures kept { KeepsOptions self.old self.new }
        ensures line { OnOk result (AddsLine self.old number line self.new) }
        ensures err { OnErr result (HasLinesOf self.old self.new) }
    {
        match line {
            Line::Edge(edge) => self.edges.push(edge)?,
            Line::Create { .. }
            | Line::Spawn { .. }
            | Line::Plain { .. }
            | Line::Full
            | Line::Minor => self.lines.push(ScriptLine { number, line })?,
        }
        Ok(())
    }

    /// An error where there is a fault.
    pub fn whole(&self) -> Result<(), PlainFault>
        ensures { OnOk result (self.now.fault ≡ None) }
    {
        let next = self.count().saturating_add(1);
        match self.fault {
            None => Ok(()),
            Some(ScriptFault::LineTooLong { line }) => Err(PlainFault::LineTooLong {
                number: line,
            }),
            Some(ScriptFault::InputTooLong) => Err(PlainFault::TooLong { number: next }),
            Some(_) => Err(PlainFault::BadLine {
                number: next,
                reason: self.reason,
            }),
        }
    }

    /// How many lines there are, edge lines among them.
    pub fn count(&self) -> u64 {
        (self.edges.len() as u64).saturating_add(self.lines.len() as u64)
    }
}

// The boxes that the text names, or none without a text. `BadStock` if it names none. Else it fails only when out of
// memory.
fn named_boxes(alloc: Global, text: Option<&str>) -> Result<Vec<StockItem>, PlainFault>
    ensures { IfOk result (λ boxes. NamesBoxes text.entry boxes.items) }
{
    let Some(text) = text else {
        return Ok(Vec::new(alloc));
    };
    match read_stock(alloc, text.as_bytes()) {
        Ok(boxes) => Ok(boxes),
        Err(StockFault::BadStock) => Err(PlainFault::BadStock {
            reason: stock_reason(text),
        }),
        Err(StockFault::OutOfMemory) => Err(PlainFault::OutOfMemory(AllocError)),
    }
}

// Why the reader failed.
fn failure_of<R: Read + Drop>(reader: &Heard<R>) -> io::Error {
    match reader.failure {
        Some(error) => error,
        None => io::Error::from(ErrorKind::Other),
    }
}
