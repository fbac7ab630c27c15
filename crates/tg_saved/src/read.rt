//! How lines are taken apart. Nothing here has to be believed, because what is read is written again and compared.

use std::alloc::{AllocError, Global};
use std::str;
use tg_model::{Edge, Law, Numbers, Value};
use tg_snapshot::ShownVertex;
use tg_text::{Line, read_line};

/// The text of a line, without its line feed. `None` if the line has none, or is no UTF-8.
pub fn text_of_line(line: &[u8]) -> Option<&str> {
    str::from_utf8(line.strip_suffix(b"\n")?).ok()
}

/// How many vertices were made, the most that may be, and how many entries were made. Fails only when out of memory.
pub(crate) fn read_counts(
    alloc: Global,
    line: &[u8],
) -> Result<Option<(u64, u64, u64)>, AllocError> {
    let Some(text) = text_of_line(line) else {
        return Ok(None);
    };
    match *read_numbers(alloc, text)?.as_slice() {
        [made, limit, entries] => Ok(Some((made, limit, entries))),
        _ => Ok(None),
    }
}

/// The name of an active subject.
pub(crate) fn read_subject(line: &[u8]) -> Option<u64> {
    let word = text_of_line(line)?.strip_prefix("worker ")?;
    word.parse::<u64>().ok()
}

/// The name of a vertex, and what it stores. Fails only when out of memory.
pub(crate) fn read_vertex(alloc: Global, line: &[u8]) -> Result<Option<ShownVertex>, AllocError> {
    let Some((name, word)) = vertex_words(line) else {
        return Ok(None);
    };
    match read_value(alloc, word)? {
        Some(value) => Ok(Some(ShownVertex { name, value })),
        None => Ok(None),
    }
}

// The name of a vertex, and the text of what it stores.
fn vertex_words(line: &[u8]) -> Option<(u64, &str)> {
    let (name, word) = text_of_line(line)?
        .strip_prefix("vertex ")?
        .split_once(' ')?;
    Some((name.parse::<u64>().ok()?, word))
}

/// Returns the edge that a line gives.
pub fn read_edge(line: &[u8]) -> Option<Edge> {
    match read_line(line.strip_suffix(b"\n")?) {
        Some(Line::Edge(edge)) => Some(edge),
        _ => None,
    }
}

/// What a vertex stores. `None` if the text is that of no value. Fails only when out of memory.
pub fn read_value(alloc: Global, word: &str) -> Result<Option<Value>, AllocError> {
    let Some(rest) = word.get(1..) else {
        return Ok(None);
    };
    let numbers = read_numbers(alloc, rest)?;
    match law_of(word, numbers.as_slice()) {
        Some((law, state)) => Ok(Some(Value {
            law,
            state: Numbers::from_slice(alloc, state)?,
        })),
        None => Ok(None),
    }
}

// The law that begins with this letter, and which of the numbers after it are stored.
fn law_of<'a>(word: &str, numbers: &'a [u64]) -> Option<(Law, &'a [u64])> {
    match (word.as_bytes().first(), numbers) {
        (Some(b'c'), [_]) => Some((Law::Cell, numbers)),
        (Some(b's'), [_]) => Some((Law::Sum, numbers)),
        (Some(b'm'), [_]) => Some((Law::Max, numbers)),
        (Some(b'l'), [most, logged @ ..]) => Some((Law::Log(u32::try_from(*most).ok()?), logged)),
        _ => None,
    }
}

/// Returns the numbers below 2^64 among the words of a text. Other words are skipped. Fails only if memory runs out.
pub fn read_numbers(alloc: Global, text: &str) -> Result<Vec<u64>, AllocError> {
    let mut numbers = Vec::new(alloc);
    for word in text.split([' ', ':', ',']) {
        if let Ok(number) = word.parse::<u64>() {
            numbers.push(number)?;
        }
    }
    Ok(numbers)
}
