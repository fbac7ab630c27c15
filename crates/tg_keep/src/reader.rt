//! The lines of a file, one after the other.
ghost use Rattle.std.specs.Prelude.{◌≡◌, ◌+◌, ◌<◌, ◌∷◌, [], length, take, drop, IfSome, IfNone, MatchOption};
ghost use Rattle.tg_keep.specs.Lines.{first_sum, raw_lines, whole_lines};
ghost use Rattle.tg_keep.specs.Reads.{ReadsLine};

use crate::line::parts_of;
use crate::sum::LineSum;

/// Reads the bytes of a file line by line. It has the bytes that are left, and the sum of the line before them.
#[derive(Clone, Copy, Drop)]
pub struct LineReader<'a> {
    pub left: &'a [u8],
    pub sum: LineSum,
}

impl<'a> LineReader<'a> {
    /// All of the file is left.
    pub fn new(file: &'a [u8]) -> LineReader<'a>
        ensures left { result.left.now ≡ file.now }
        ensures sum { result.sum.digits ≡ first_sum }
    {
        LineReader {
            left: file,
            sum: LineSum::first(),
        }
    }

    /// Returns the text of the next line. `None` says that no line follows, or that it isn't whole. Then the reader is
    /// as it was.
    pub fn next(&mut self) -> Option<&'a [u8]>
        ensures read { IfSome result (λ text. ReadsLine self.old.sum.digits self.old.left.now text.now self.new.sum.digits self.new.left.now) }
        ensures end { IfNone result (whole_lines self.old.sum.digits self.old.left.now ≡ []) }
        ensures unchanged { IfNone result (self.new ≡ self.old) }
    {
        let length = first_length(self.left)?;
        let parts = parts_of(&self.sum.digits, &self.left[..length])?;
        self.left = &self.left[length + 1..];
        self.sum = parts.sum;
        Some(parts.text)
    }
}

// How many bytes are in front of the first line feed.
#[tactic(auto, using(crate::proofs::Reading::feed_at, crate::proofs::Reading::feed_step, crate::proofs::Reading::feed_none))]
pub(crate) fn first_length(bytes: &[u8]) -> Option<usize>
    ensures lines { MatchOption result (raw_lines bytes.now ≡ []) (λ n. raw_lines bytes.now ≡ take n bytes.now ∷ raw_lines (drop (n + 1) bytes.now)) }
    ensures within { IfSome result (λ n. n < length bytes.now) }
{
    for (length, byte) in bytes.iter().enumerate() {
        if *byte == b'\n' {
            return Some(length);
        }
    }
    None
}
