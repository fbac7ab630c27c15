//! A script that is read line by line, with the first fault in it.
ghost use Rattle.std.specs.Prelude.{◌+◌, ◌≤◌};
ghost use Rattle.tg_text.specs.declared.fetch.TheConstants.{MOST_BYTES};

use tg_text::{
    Fetched, Line, LineBuffer, Lines, ScriptFault, Sink, Source, is_opening_after, reason_of,
    standing_line,
};

/// How far a script was read.
#[derive(Drop)]
pub(crate) struct Reading {
    /// How many bytes may still come.
    pub(crate) lines: Lines,
    /// The line that came last.
    pub(crate) buffer: LineBuffer,
    /// How many workers there are.
    pub(crate) workers: u64,
    /// How many lines came before.
    pub(crate) count: u64,
    /// Whether edge lines may still come.
    pub(crate) opening: bool,
    // Whether a line feed ended the line that came last.
    is_ended: bool,
    ghost bounded: { count + lines.room ≤ MOST_BYTES },
}

impl Reading {
    ghost use Rattle.std.specs.Prelude.{◌≡◌, ◌+◌, ◌<◌, ◌≤◌, ℕ, List, Some, IfOk, IfSome};
    ghost use Rattle.tg_text.specs.declared.fetch.TheConstants.{MOST_BYTES};
    ghost use Rattle.tg_plain.specs.Inner.Reading.{IsNewReading, NextPlainLine, TakesPlainLine, FollowsReading};

    /// No line was read.
    pub(crate) fn new(workers: u64) -> Reading
        ensures { IsNewReading result workers }
    {
        Reading {
            lines: Lines::new(),
            buffer: LineBuffer::new(),
            workers,
            count: 0,
            opening: true,
            is_ended: false,
        }
    }

    /// The next line, or `None` at the end of the input, or else the first fault.
    pub(crate) fn next<S: Source, K: Sink>(
        &mut self,
        source: &mut S,
        sink: &mut K,
    ) -> Result<Option<Line>, ScriptFault>
        ensures bytes { (bytes : List ℕ) → S.left source.old ≡ Some bytes → (rest : List ℕ) × (S.left source.new ≡ Some rest) × NextPlainLine self.old bytes result self.new rest }
        ensures follows { IfOk result (λ next. IfSome next (λ line. FollowsReading self.old line self.new)) }
        ensures shorter { IfOk result (λ next. IfSome next (λ _. self.new.lines.room < self.old.lines.room)) }
    {
        let number = self.count + 1;
        let fetched = self.lines.next_line(source, sink, &mut self.buffer);
        self.is_ended = fetched == Fetched::Line;
        match fetched {
            Fetched::Line => self.take_line(),
            Fetched::End => Ok(None),
            Fetched::Unfinished => Err(ScriptFault::BadLine { line: number }),
            Fetched::LineTooLong => Err(ScriptFault::LineTooLong { line: number }),
            Fetched::InputTooLong => Err(ScriptFault::InputTooLong),
            Fetched::Failed => Err(ScriptFault::ReadFailed),
            Fetched::WriteFailed => Err(ScriptFault::WriteFailed),
        }
    }

    // The line in the buffer, if it is one that may be here.
    fn take_line(&mut self) -> Result<Option<Line>, ScriptFault>
        requires { self.old.count + self.old.lines.room < MOST_BYTES }
        ensures { TakesPlainLine self.old result self.new }
    {
        match standing_line(self.buffer.as_slice(), self.workers, self.opening) {
            Some(line) => {
                self.count += 1;
                self.opening = is_opening_after(self.opening, &line);
                Ok(Some(line))
            }
            None => Err(ScriptFault::BadLine {
                line: self.count + 1,
            }),
        }
    }

    /// Why the line that came last is bad, where it is.
    pub(crate) fn reason(&self) -> &'static str {
        reason_of(self.buffer.as_slice(), self.is_ended, self.workers)
    }
}
