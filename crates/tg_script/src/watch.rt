//! What sees the answers of a run.

use tg_text::{Answer, Line};

/// Sees the answer to each line of a run, before the answer is written.
///
/// A watch may count, so contracts see whether an answer that it saw denies or refuses its line, if that is known.
pub trait Watch {
    ghost use Rattle.std.specs.Prelude.{Bool, Option};
    ghost use Rattle.tg_script.specs.Watching.{SeesOne};

    /// Whether an answer that it saw denies or refuses its line, if that is known.
    ghost refused: { Self → Option Bool };

    /// Sees the answer to a line.
    fn see(&mut self, line: &NumberedLine, answer: &Answer)
        ensures { SeesOne (refused self.old) answer.now (refused self.new) };
}

/// A line of a script after its edges.
#[derive(Clone, Copy, Debug)]
pub struct NumberedLine {
    /// Its number in the script, from 1 on. Edge lines are counted too.
    pub number: u64,
    /// What its text says.
    pub line: Line,
}

/// Sees no answer.
#[derive(Clone, Copy, Debug)]
pub struct Unwatched;

impl Watch for Unwatched {
    ghost use Rattle.std.specs.Prelude.{None};

    ghost refused = { λ _. None };

    #[inline(always)]
    fn see(&mut self, _line: &NumberedLine, _answer: &Answer) {}
}
