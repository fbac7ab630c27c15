//! A source whose last line is noted, so that it can be said why it is bad.
ghost use Rattle.std.specs.Prelude.{◌≡◌, ◌≤◌, length};

use crate::stop::Stop;
use tg_script::{MOST_LINE_BYTES, Next, ScriptFault, Source};
use tg_text::{LineBuffer, reason_of};
use tg_threads::RaceFault;

// The line that came last, without its line feed, and whether that came.
#[derive(Drop)]
struct LastLine {
    bytes: LineBuffer,
    is_ended: bool,
}

impl LastLine {
    // No byte came.
    fn new() -> LastLine {
        LastLine {
            bytes: LineBuffer::new(),
            is_ended: false,
        }
    }

    // Notes a line that came whole.
    fn set(&mut self, bytes: &[u8])
        requires { length bytes.now ≤ 256 }
    {
        self.bytes.set(bytes);
        self.is_ended = true;
    }

    // Notes a byte. The bytes of a line before it are dropped, and so are the bytes beyond the most that a line may
    // have.
    fn push(&mut self, byte: u8) {
        if self.is_ended {
            self.bytes.clear();
        }
        self.is_ended = byte == b'\n';
        if !self.is_ended && self.bytes.len() < MOST_LINE_BYTES {
            self.bytes.push(byte);
        }
    }
}

/// A source that notes the line which it gave last, if that is asked for.
#[derive(Drop)]
pub(crate) struct Noted<S: Source + Drop> {
    pub source: S,
    is_asked: bool,
    last: LastLine,
}

impl<S: Source + Drop> Noted<S> {
    /// The source as it is. Its lines are noted if this is asked for.
    pub(crate) fn new(source: S, is_asked: bool) -> Noted<S>
        ensures { result.source ≡ source }
    {
        Noted {
            source,
            is_asked,
            last: LastLine::new(),
        }
    }

    /// Why the last line is bad, if a bad line ended a run with so many workers at first, and the reason was asked for.
    pub(crate) fn reason(&self, outcome: &Result<(), Stop>, workers: u64) -> Option<&'static str> {
        if !self.is_asked {
            return None;
        }
        match outcome {
            Err(
                Stop::Script(ScriptFault::BadLine { .. })
                | Stop::Race(RaceFault::Script(ScriptFault::BadLine { .. })),
            ) => {
                let LastLine { bytes, is_ended } = &self.last;
                Some(reason_of(bytes.as_slice(), *is_ended, workers))
            }
            _ => None,
        }
    }
}

impl<S: Source + Drop> Source for Noted<S> {
    ghost left = { λ s. S.left s.source };

    ghost failures = { λ s. S.failures s.source };

    ghost asked = { λ s. S.asked s.source };

    ghost ready = { λ s. S.ready s.source };

    #[inline(always)]
    fn is_ready(&self) -> bool {
        self.source.is_ready()
    }

    fn next(&mut self) -> Next {
        let next = self.source.next();
        if let Next::Byte(byte) = next {
            self.last.push(byte);
        }
        next
    }

    #[inline(always)]
    fn take_line(&mut self, line: &mut LineBuffer, most: usize) -> bool {
        let took = self.source.take_line(line, most);
        if took && self.is_asked {
            self.last.set(line.as_slice());
        }
        took
    }
}
