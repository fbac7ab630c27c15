//! Why the text is no line of a script, for who wrote it.
//!
//! It is looked for only if no line was read, and nothing depends on it. The first reason that fits is returned.

use crate::buffer::MOST_LINE_BYTES;
use crate::line::Line;
use crate::read::read_line;
use std::str;
use tg_model::Edge;

// What is said of bytes that aren't UTF-8.
const NO_TEXT: &str = "bytes that are no text";

// What is said of a text in which nothing of the below is wrong.
const NO_LINE: &str = "no line of the grammar";

// The letters of the rights, in their order.
const LETTERS: &[u8] = b"rwtgaluv";

// Where a text is in a line.
#[derive(Clone, Copy)]
enum StrayPlace {
    Front,
    Inside,
    End,
}

// What is nowhere in a line of the grammar, whatever its words are, and what is said of it.
const STRAYS: &[(StrayPlace, &str, &str)] = &[
    (StrayPlace::Front, "\u{feff}", "a byte order mark"),
    (
        StrayPlace::End,
        "\r",
        "a carriage return before the line feed",
    ),
    (StrayPlace::Front, "#", "a comment"),
    (StrayPlace::Inside, "\t", "a tab, where one space stands"),
    (StrayPlace::Front, " ", "a space in front"),
    (StrayPlace::End, " ", "a space behind the last word"),
    (StrayPlace::Inside, "  ", "two spaces side by side"),
];

// What a word after a command's own is.
#[derive(Clone, Copy)]
enum ArgumentKind {
    Number,
    Rights,
}

// What comes after the word of an edge line.
const EDGE: &[ArgumentKind] = &[
    ArgumentKind::Number,
    ArgumentKind::Number,
    ArgumentKind::Rights,
];

// What may come after the word of a command, and one text of it.
const BEHIND: &[(&[ArgumentKind], &str)] = &[
    (&[], ""),
    (&[ArgumentKind::Number], " 0"),
    (&[ArgumentKind::Rights], " r"),
    (&[ArgumentKind::Number, ArgumentKind::Number], " 0 0"),
    (&[ArgumentKind::Number, ArgumentKind::Rights], " 0 r"),
    (
        &[
            ArgumentKind::Number,
            ArgumentKind::Number,
            ArgumentKind::Rights,
        ],
        " 0 0 r",
    ),
];

// The longest word of a command has fewer bytes, and so has each text that comes after a word.
const MOST_WORD_BYTES: usize = 20;

/// Says why a line of a script is bad. The line is given without its line feed, with whether it had one, and with the
/// number of workers of the opening. The answer is one sentence without its dot.
pub fn reason_of(line: &[u8], is_ended: bool, workers: u64) -> &'static str {
    let Ok(text) = str::from_utf8(line) else {
        return NO_TEXT;
    };
    if !is_ended {
        return "no line feed at the end";
    }
    match read_line(line) {
        Some(Line::Edge(edge)) => reason_of_edge(edge, workers),
        _ => reason_of_text(text),
    }
}

// Why an edge line may not be at its place.
fn reason_of_edge(edge: Edge, workers: u64) -> &'static str {
    if edge.from == edge.to {
        "an edge joins two different workers"
    } else if !edge.joins_workers(workers) {
        "an edge to or from no worker"
    } else {
        "an edge line stands before all others"
    }
}

// Why the text is none of the grammar.
fn reason_of_text(line: &str) -> &'static str {
    if line.len() > MOST_LINE_BYTES {
        return "over 256 bytes";
    }
    if line.is_empty() {
        return "a blank line";
    }
    match reason_of_strays(line) {
        Some(reason) => reason,
        None => reason_of_words(line),
    }
}

// What is wrong between the words, or in their letters.
fn reason_of_strays(line: &str) -> Option<&'static str> {
    for (place, stray, reason) in STRAYS {
        if stands(line, *place, stray) {
            return Some(*reason);
        }
    }
    reason_of_letters(line.as_bytes())
}

fn stands(line: &str, place: StrayPlace, stray: &str) -> bool {
    match place {
        StrayPlace::Front => line.as_bytes().starts_with(stray.as_bytes()),
        StrayPlace::Inside => line.contains(stray),
        StrayPlace::End => line.as_bytes().ends_with(stray.as_bytes()),
    }
}

// What is wrong in the letters.
fn reason_of_letters(line: &[u8]) -> Option<&'static str> {
    let mut reason = None;
    for byte in line {
        if byte.is_ascii_control() {
            return Some("a control character");
        }
        if byte.is_ascii_uppercase() {
            reason = Some("a capital letter");
        }
    }
    reason
}

// What is wrong with the words, which have one space between them, and none after the last.
fn reason_of_words(line: &str) -> &'static str {
    let (first, rest) = cut(line);
    if first == "edge" {
        return reason_of_arguments(EDGE, rest);
    }
    if is_collection(first) {
        return "full and minor stand alone";
    }
    if kinds_behind(first).is_some() {
        return "no worker in front of the command";
    }
    match reason_of_number(first) {
        Some(reason) => reason,
        None => reason_of_command(rest),
    }
}

fn is_collection(word: &str) -> bool {
    word == "full" || word == "minor"
}

// What is wrong after the worker's name.
fn reason_of_command(words: &str) -> &'static str {
    let (command, rest) = cut(words);
    if let Some(kinds) = kinds_behind(command) {
        return reason_of_arguments(kinds, rest);
    }
    if is_collection(command) {
        "full and minor stand alone"
    } else if command.is_empty() {
        "no command behind the worker"
    } else {
        "no such command"
    }
}

// What comes after the command's word, if some line has this word.
fn kinds_behind(word: &str) -> Option<&'static [ArgumentKind]> {
    for (kinds, text) in BEHIND {
        if is_command(word.as_bytes(), text.as_bytes()) {
            return Some(*kinds);
        }
    }
    None
}

// Whether the word is that of a command that has this text after it.
fn is_command(word: &[u8], text: &[u8]) -> bool {
    if word.len() > MOST_WORD_BYTES || text.len() > MOST_WORD_BYTES {
        return false;
    }
    let mut line = [b' '; 2 + 2 * MOST_WORD_BYTES];
    let behind = 2 + word.len();
    let end = behind + text.len();
    line[0] = b'0';
    line[2..behind].copy_from_slice(word);
    line[behind..end].copy_from_slice(text);
    read_line(&line[..end]).is_some()
}

// What is wrong with the words after the command's.
fn reason_of_arguments(kinds: &[ArgumentKind], words: &str) -> &'static str {
    let mut left = words;
    for kind in kinds {
        let (word, rest) = cut(left);
        let reason = match kind {
            ArgumentKind::Number => reason_of_number(word),
            ArgumentKind::Rights => reason_of_rights(word.as_bytes()),
        };
        if let Some(reason) = reason {
            return reason;
        }
        left = rest;
    }
    if left.is_empty() {
        NO_LINE
    } else {
        "too many words"
    }
}

// The first word, and what comes after its space. Either is empty where there is none.
fn cut(words: &str) -> (&str, &str) {
    match words.split_once(' ') {
        Some(parts) => parts,
        None => (words, ""),
    }
}

/// Why the word is no number as lines have them, or `None` where it is one. One sentence without its dot.
pub fn reason_of_number(word: &str) -> Option<&'static str> {
    let first = word.as_bytes().first();
    if word.is_empty() {
        Some("too few words")
    } else if matches!(first, Some(b'+' | b'-')) {
        Some("a number has no sign")
    } else if !is_number(word.as_bytes()) {
        Some("a word where a number stands")
    } else if word.len() > 1 && matches!(first, Some(b'0')) {
        Some("a number has no leading zero")
    } else if word.parse::<u64>().is_err() {
        Some("a number over 18446744073709551615")
    } else {
        None
    }
}

fn is_number(word: &[u8]) -> bool {
    for byte in word {
        if !byte.is_ascii_digit() {
            return false;
        }
    }
    true
}

fn reason_of_rights(word: &[u8]) -> Option<&'static str> {
    if word.is_empty() {
        return Some("no rights at the end");
    }
    let mut rest = LETTERS;
    let mut last = None;
    for letter in word {
        match behind(rest, *letter) {
            Some(others) => rest = others,
            None => return Some(reason_of_right(*letter, last)),
        }
        last = Some(*letter);
    }
    None
}

// Why a right may not come after the right before it.
fn reason_of_right(letter: u8, last: Option<u8>) -> &'static str {
    if !LETTERS.contains(&letter) {
        "rights are letters out of r w t g a l u v"
    } else if last == Some(letter) {
        "a right twice"
    } else {
        "rights stand in the order r w t g a l u v"
    }
}

// The letters after this one, where it is among them.
fn behind(letters: &[u8], letter: u8) -> Option<&[u8]> {
    for (at, right) in letters.iter().enumerate() {
        if *right == letter {
            return Some(&letters[at + 1..]);
        }
    }
    None
}
