//! Laws of the definitions alone. A function here does nothing. Its `ensures` is the law.
ghost use Rattle.std.specs.Prelude.{◌≡◌, ◌∷◌, ◌++◌, [], true, false, ℕ, Bool, List, length};
ghost use Rattle.tg_keep.specs.Lines.{first_sum, is_text, length_after, sealed_line, texts_after};
ghost use Rattle.tg_keep.specs.Fronts.{IsZeroOr, IsFrontOf};
ghost use Rattle.tg_keep.specs.Opened.{BeginsOnce, is_damaged};

/// Lines were written over zeros, and a crash left of each byte the zero or the one that was written. Then the texts
/// that are read are a front of those that were written. No sum has to be believed for that.
pub fn a_crash_leaves_a_front()
    ensures { (before written left : List ℕ) → IsZeroOr written left → IsFrontOf (texts_after before written) (texts_after before left) }
{}

/// A line that is written is read again, with the text that it was given.
pub fn what_is_written_is_read()
    ensures { (before text : List ℕ) (begins : Bool) → is_text text ≡ true → texts_after before (sealed_line before begins text) ≡ text ∷ [] }
{}

/// A batch was written over zeros after whole lines, and a crash left of each byte the zero or the one that was
/// written. That is no damage, so the file opens. The premise on the batch is that only its first line has the mark
/// `@`.
pub fn a_torn_batch_is_no_damage()
    ensures { (front written left : List ℕ) → length_after first_sum front ≡ length front → BeginsOnce written → IsZeroOr written left → is_damaged (front ++ left) ≡ false }
{}
