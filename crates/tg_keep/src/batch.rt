//! A batch, which is lines that one write and one sync put into a file.
ghost use Rattle.std.specs.Prelude.{◌≡◌, ◌==◌, ◌++◌, ◌∷◌, ◌↔◌, [], false, length, OnOk, OnErr, IsErrOf};
ghost use Rattle.std.specs.List.{list_any};
ghost use Rattle.tg_keep.specs.Lines.{is_entry, is_mark, is_marking, is_text, last_sum_after, length_after, sealed_line, texts_after};

use crate::line::{has_zero, write_line};
use crate::sum::LineSum;
use std::alloc::{AllocError, Global};
use thiserror::Error;

/// Why a text wasn't added to a batch. The batch has the lines that it had.
#[derive(Clone, Copy, PartialEq, Eq, Debug, Error)]
pub enum BatchFault {
    /// The text has a zero byte or a line feed, which no line may have. Or it begins with `entries `, as only a mark
    /// may.
    #[error("a line has neither a zero byte nor a line feed, and only a mark begins with `entries `")]
    BadText,
    /// There was no memory for the line.
    #[error("out of memory")]
    OutOfMemory,
}

impl From<AllocError> for BatchFault {
    ghost use Rattle.std.specs.Prelude.{◌≡◌};
    ghost use Rattle.tg_keep.specs.declared.batch.BatchFault.TheVariants.{OutOfMemory};

    ghost from_gives = { λ _ e. e ≡ OutOfMemory };

    fn from(_error: AllocError) -> BatchFault {
        BatchFault::OutOfMemory
    }
}

/// Lines that come after a line with the sum `before`. The first begins a batch, and `sum` is that of the last.
#[derive(Drop)]
pub struct Batch {
    pub bytes: Vec<u8>,
    pub before: LineSum,
    pub sum: LineSum,
    pub ghost whole: { length_after before.digits bytes.items ≡ length bytes.items },
    pub ghost last: { sum.digits ≡ last_sum_after before.digits bytes.items },
    pub ghost plain: { list_any (λ text. is_mark text) (texts_after before.digits bytes.items) ≡ false },
}

impl Batch {
    ghost use Rattle.tg_keep.specs.Batches.{batch_texts};

    /// A batch without lines, after a line with this sum.
    #[tactic(auto, using(crate::proofs::Reading::no_length, crate::proofs::Reading::no_last_sum, crate::proofs::Saying::no_marks))]
    pub fn new(alloc: Global, before: LineSum) -> Batch
        ensures none { result.bytes.items ≡ [] }
        ensures before { result.before ≡ before }
    {
        Batch {
            bytes: Vec::new(alloc),
            before,
            sum: before,
        }
    }

    /// Adds the line with this text. `BadText` says that the text has a zero byte or a line feed, or begins with
    /// `entries `. `OutOfMemory` says that there was no memory. Then the batch has the lines that it had.
    #[tactic(auto, using(crate::proofs::Adding::adds_text, crate::proofs::Adding::adds_length, crate::proofs::Adding::adds_sum, crate::proofs::Adding::adds_plain))]
    pub fn add(&mut self, text: &[u8]) -> Result<(), BatchFault>
        ensures line { OnOk result (self.new.bytes.items ≡ self.old.bytes.items ++ sealed_line self.old.sum.digits (length self.old.bytes.items == 0) text.now) }
        ensures texts { OnOk result (batch_texts self.new ≡ batch_texts self.old ++ text.now ∷ []) }
        ensures before { self.new.before ≡ self.old.before }
        ensures bad { IsErrOf result BatchFault.BadText ↔ (is_entry text.now ≡ false) }
        ensures unchanged { OnErr result (self.new.bytes.items ≡ self.old.bytes.items) }
    {
        if !is_text(text) || is_mark(text) {
            return Err(BatchFault::BadText);
        }
        let begins = self.bytes.is_empty();
        self.sum = write_line(&mut self.bytes, &self.sum.digits, begins, text)?;
        Ok(())
    }
}

fn is_text(text: &[u8]) -> bool
    ensures { result ≡ is_text text.now }
{
    !has_zero(text) && !text.contains(&b'\n')
}

pub(crate) fn is_mark(text: &[u8]) -> bool
    ensures { result ≡ is_mark text.now }
{
    text.starts_with(b"entries ")
}

// Whether the text is a mark that a line may have.
pub(crate) fn is_marking(text: &[u8]) -> bool
    ensures { result ≡ is_marking text.now }
{
    is_text(text) && is_mark(text)
}
