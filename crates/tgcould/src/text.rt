//! The texts of answers.
ghost use Rattle.std.specs.Prelude.{◌≡◌, ◌++◌};
ghost use Rattle.std.specs.List.{flat_map};
ghost use Rattle.tg_text.specs.Grammar.{line_text};
ghost use Rattle.tg_plain.specs.Grown.{Appends};
ghost use Rattle.tgcould.specs.Texts.{more_names_text, chance_text, turn_text, wanting_text, could_text};

use tg_could::Answer;
use tg_model::Deed;
use tg_plain::PlainText;
use tg_text::{Line, line_bytes, line_of_deed};

/// Appends the text of an answer. It is a word, and after `could` the lines of the turns.
pub fn add_answer(text: &mut PlainText, answer: &Answer)
    ensures { Appends text.old (chance_text answer.now) text.new }
{
    match answer {
        Answer::Never(_) => text.add("never\n"),
        Answer::Could(turns) => add_could(text, turns.as_slice()),
        Answer::WantsNames { turns, names } => add_wanting(text, turns.as_slice(), *names),
        Answer::Open => text.add("open\n"),
    }
}

// Appends the turns of an answer. There are none if x holds the right already.
fn add_could(text: &mut PlainText, turns: &[(u64, Deed)])
    ensures { Appends text.old (could_text turns.now) text.new }
{
    if turns.is_empty() {
        text.add("now\n");
    } else {
        text.add("could\n");
        add_turns(text, turns);
    }
}

// Appends turns that need so many more names.
fn add_wanting(text: &mut PlainText, turns: &[(u64, Deed)], names: u64)
    ensures { Appends text.old (wanting_text names ++ flat_map turn_text turns.now) text.new }
{
    add_names_more(text, names);
    add_turns(text, turns);
}

// Appends how many more names are needed.
fn add_names_more(text: &mut PlainText, names: u64)
    ensures { Appends text.old (wanting_text names) text.new }
{
    text.add("could, with ");
    text.add_number(names);
    text.add(names_more(names));
}

// Appends turns, each as a line of a script.
fn add_turns(text: &mut PlainText, turns: &[(u64, Deed)])
    ensures { Appends text.old (flat_map turn_text turns.now) text.new }
{
    for turn in turns {
        add_turn(text, turn);
    }
}

// Appends a turn, as a line of a script.
fn add_turn(text: &mut PlainText, turn: &(u64, Deed))
    ensures { Appends text.old (turn_text turn.now) text.new }
{
    add_line(text, line_of_deed(turn.0, &turn.1));
    text.add("\n");
}

// Appends a line of a script, without its line feed.
fn add_line(text: &mut PlainText, line: Line)
    ensures { Appends text.old (line_text line) text.new }
{
    match line_bytes(*text.bytes.allocator(), line) {
        Ok(bytes) => text.add_bytes(bytes.as_slice()),
        Err(_) => text.is_short = true,
    }
}

// The words after the number of names.
fn names_more(names: u64) -> &'static str
    ensures { result.now ≡ more_names_text names }
{
    if names == 1 {
        " name more\n"
    } else {
        " names more\n"
    }
}
