//! A script that is read line by line, with the first fault in it.
ghost use Rattle.std.specs.Prelude.{◌+◌, ◌≤◌};
ghost use Rattle.tg_text.specs.declared.fetch.TheConstants.{MOST_BYTES};

use tg_text::{
    Fetched, Line, LineBuffer, Lines, ScriptFault, Sink, Source, is_opening_after, standing_line,
};

/// A script, as far as it was read.
#[derive(Drop)]
pub(crate) struct Script {
    /// How many bytes may still come.
    pub(crate) lines: Lines,
    /// The line that came last.
    pub(crate) buffer: LineBuffer,
    /// How many workers there are.
    pub(crate) workers: u64,
    /// How many lines came before.
    pub(crate) count: u64,
    /// Whether edge lines may still come.
    pub(crate) opening: bool,
    ghost bounded: { count + lines.room ≤ MOST_BYTES },
}

impl Script {
    ghost use Rattle.std.specs.Prelude.{◌≡◌, ◌+◌, ◌<◌, ◌≤◌, ℕ, List, Some, IfOk, IfSome};
    ghost use Rattle.tg_text.specs.declared.fetch.TheConstants.{MOST_BYTES};
    ghost use Rattle.tg_script.specs.Lines.{IsNewScript, IsOfReading, NextLine, OnlyReads, PassesOn, TakesLine, Follows};

    /// No line was read.
    pub(crate) fn new(workers: u64) -> Script
        ensures { IsNewScript result workers }
    {
        Script {
            lines: Lines::new(),
            buffer: LineBuffer::new(),
            workers,
            count: 0,
            opening: true,
        }
    }

    /// The next line, or `None` at the end of the input, or else the first fault. What was put into the sink is
    /// finished before the source is asked for what it doesn't hold.
    #[inline(always)]
    pub(crate) fn next<S: Source, K: Sink>(
        &mut self,
        source: &mut S,
        sink: &mut K,
    ) -> Result<Option<Line>, ScriptFault>
        ensures bytes { (bytes : List ℕ) → S.left source.old ≡ Some bytes → (rest : List ℕ) × (S.left source.new ≡ Some rest) × NextLine self.old bytes result self.new rest }
        ensures follows { IfOk result (λ next. IfSome next (λ line. Follows self.old line self.new)) }
        ensures shorter { IfOk result (λ next. IfSome next (λ _. self.new.lines.room < self.old.lines.room)) }
        ensures reading { OnlyReads IsOfReading S.failures K.failures K.taken source.old source.new sink.old sink.new result }
        ensures asked { S.asked source.new ≤ S.asked source.old + self.old.lines.room + 1 }
        ensures passed { IfOk result (λ next. PassesOn self.old next self.new) }
        ensures asked_of_line { IfOk result (λ next. IfSome next (λ line. S.asked source.new + self.new.lines.room ≡ S.asked source.old + self.old.lines.room)) }
    {
        let number = self.count + 1;
        let room = self.lines.room;
        match self.lines.next_line(source, sink, &mut self.buffer) {
            Fetched::Line => self.take_line(),
            Fetched::End => {
                // No byte came.
                self.lines.room = room;
                Ok(None)
            }
            Fetched::Unfinished => Err(ScriptFault::BadLine { line: number }),
            Fetched::LineTooLong => Err(ScriptFault::LineTooLong { line: number }),
            Fetched::InputTooLong => Err(ScriptFault::InputTooLong),
            Fetched::Failed => Err(ScriptFault::ReadFailed),
            Fetched::WriteFailed => Err(ScriptFault::WriteFailed),
        }
    }

    // The line in the buffer, if it is one that may be here.
    #[inline(always)]
    fn take_line(&mut self) -> Result<Option<Line>, ScriptFault>
        requires { self.old.count + self.old.lines.room < MOST_BYTES }
        ensures { TakesLine self.old result self.new }
    {
        match standing_line(self.buffer.as_slice(), self.workers, self.opening) {
            Some(line) => {
                self.count += 1;
                self.opening = is_opening_after(self.opening, &line);
                Ok(Some(line))
            }
            None => Err(ScriptFault::BadLine {
                line: self.count + 1,
            }),
        }
    }
}
