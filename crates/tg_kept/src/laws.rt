//! Laws of the definitions alone. A function here does nothing. Its `ensures` is the law.
ghost use Rattle.std.specs.Prelude.{◌≡◌, ◌++◌, List, length, map};
ghost use Rattle.tg_journal.specs.declared.entry.Entry.{Entry};
ghost use Rattle.tg_model.specs.Opened.{Plan};
ghost use Rattle.tg_entries.specs.Texts.{history_text};
ghost use Rattle.tg_kept.specs.Texts.{entry_line, opening_lines, text_of_lines};

/// The lines of a kept file are the lines of a history's text. Put the line of that text's form in the place of the
/// file's first line, and end each line by a line feed. Add the line with the number of entries. That is the text of
/// the opening and the entries, as `tg_entries` writes and audits it.
pub fn its_lines_are_a_history()
    ensures { (p : Plan) (es : List Entry) → text_of_lines (opening_lines p ++ map entry_line es) (length es) ≡ history_text p es }
{}
