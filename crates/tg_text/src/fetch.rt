//! The lines of a source, byte by byte.
//!
//! A line that the source holds whole is taken at once. For any other line the source is asked for one byte at a time,
//! and never for a byte after the first fault. Therefore a fault is then looked for at each byte, and not when a line
//! is whole. Bytes of a line lie in one buffer, which serves all lines.
ghost use Rattle.std.specs.Prelude.{◌≡◌, ◌+◌, ◌≤◌, true, false, length};
ghost use Rattle.tg_text.specs.declared.buffer.TheConstants.{MOST_LINE_BYTES};
ghost use Rattle.tg_text.specs.declared.fetch.TheConstants.{MOST_BYTES};
ghost use Rattle.tg_text.specs.Fetching.{TakesLineAtOnce};
ghost use Rattle.tg_text.specs.Fetched.{FetchesLine};

use crate::buffer::{LineBuffer, MOST_LINE_BYTES};
use crate::exchange::next_byte;
use crate::sink::Sink;
use crate::source::{Fetched, Next, Source};

/// The most bytes that a script may have, line feeds included.
pub const MOST_BYTES: u32 = 1_048_576;

/// How far the lines of a source were read.
#[derive(Drop)]
pub struct Lines {
    /// How many bytes may still come, at most [`MOST_BYTES`].
    pub room: u32,
}

impl Lines {
    /// All lines are left, and [`MOST_BYTES`] bytes may come.
    pub fn new() -> Lines
        ensures { result.room ≡ MOST_BYTES }
    {
        Lines { room: MOST_BYTES }
    }

    /// Reads the next line into the buffer, without its line feed. The answer is that a line was read, that there are
    /// no more bytes, or the first fault. The faults are looked for at each byte in this order:
    ///
    /// - what was written couldn't be finished
    /// - the source failed
    /// - more bytes came than are allowed
    /// - the line has more than [`MOST_LINE_BYTES`]
    /// - the input ended within a line
    ///
    /// The source is asked once for each byte of the line and once for the end of it. Bytes in the sink are finished
    /// before the source is asked for a byte that it doesn't hold. Takes no memory.
    #[inline(always)]
    pub fn next_line<S: Source, K: Sink>(
        &mut self,
        source: &mut S,
        sink: &mut K,
        line: &mut LineBuffer,
    ) -> Fetched
        ensures fetched { FetchesLine S.left S.asked S.failures K.taken K.failures source.old source.new sink.old sink.new
            self.old.room self.new.room result line.new }
    {
        if self.take_held(source, line) {
            return Fetched::Line;
        }
        self.next_line_by_bytes(source, sink, line)
    }

    // Reads the next line into the buffer if the source holds all of it, and returns whether it did. Otherwise nothing
    // is read.
    #[inline(always)]
    fn take_held<S: Source>(&mut self, source: &mut S, line: &mut LineBuffer) -> bool
        ensures bytes { TakesLineAtOnce (S.left source.old) result line.new (S.left source.new) }
        ensures few { result ≡ true → length line.new ≤ MOST_LINE_BYTES }
        ensures room { result ≡ true → self.new.room + length line.new + 1 ≡ self.old.room }
        ensures kept { result ≡ false → self.new.room ≡ self.old.room }
        ensures failures { S.failures source.new ≡ S.failures source.old }
        ensures asked { S.asked source.new + self.new.room ≡ S.asked source.old + self.old.room }
    {
        if self.room == 0 || !source.is_ready() {
            return false;
        }
        let most = MOST_LINE_BYTES.min(self.room as usize - 1);
        if !source.take_line(line, most) {
            return false;
        }
        self.room -= line.len() as u32 + 1;
        true
    }

    // Reads the next line as `next_line` does, asking for each byte by itself.
    fn next_line_by_bytes<S: Source, K: Sink>(
        &mut self,
        source: &mut S,
        sink: &mut K,
        line: &mut LineBuffer,
    ) -> Fetched
        ensures fetched { FetchesLine S.left S.asked S.failures K.taken K.failures source.old source.new sink.old sink.new
            self.old.room self.new.room result line.new }
    {
        line.clear();
        for _ in 0..MOST_LINE_BYTES + 1 {
            let Ok(next) = next_byte(source, sink) else {
                return Fetched::WriteFailed;
            };
            match next {
                Next::Failed => return Fetched::Failed,
                Next::End => {
                    return if line.len() == 0 {
                        Fetched::End
                    } else {
                        Fetched::Unfinished
                    };
                }
                Next::Byte(byte) => {
                    if self.room == 0 {
                        return Fetched::InputTooLong;
                    }
                    if byte != b'\n' && line.len() == MOST_LINE_BYTES {
                        return Fetched::LineTooLong;
                    }
                    self.room -= 1;
                    if byte == b'\n' {
                        return Fetched::Line;
                    }
                    line.push(byte);
                }
            }
        }
        unreachable!()
    }
}
