//! Laws of the definitions alone. Each function does nothing. Its `ensures` is the law.
ghost use Rattle.std.specs.Prelude.{◌++◌, List, ℕ};
ghost use Rattle.tg_journal.specs.declared.entry.Entry.{Entry};
ghost use Rattle.tg_journal.specs.History.{IsLegal, graph_after};
ghost use Rattle.tg_entries.specs.Texts.{Joined, Shown, IsHistory, TextStart, graph_of_origin, text_gone_on, uncounted_text};
ghost use Rattle.tg_snapshot.specs.Snapshot.{Saved};

/// Count lines say nothing of the history. A text without all of them but the last is the text of the same entries.
pub fn count_lines_may_go()
    ensures { (text : List ℕ) (origin : TextStart) (es : List Entry) → IsHistory text origin es →
        IsHistory (uncounted_text origin es) origin es }
{}

/// The sum of the part before says nothing of the history. Without its line, a text is that of the same entries after
/// the same snapshot.
pub fn a_sum_may_go()
    ensures { (text : List ℕ) (p : Saved) (sum : List ℕ) (es : List Entry) → IsHistory text (Joined p sum) es →
        IsHistory (uncounted_text (Shown p) es) (Shown p) es }
{}

/// A text can be gone on with. Take more entries that are legal on the graph after its last entry. The text with their
/// lines and the new number of entries after it is the text of all these entries.
pub fn a_text_goes_on()
    ensures { (text : List ℕ) (origin : TextStart) (es more : List Entry) → IsHistory text origin es →
        IsLegal (graph_after (graph_of_origin origin) es) more →
        IsHistory (text_gone_on text es more) origin (es ++ more) }
{}
