//! What is said of a value that is no number of its option's range.

use clap::error::ErrorKind;
use clap::{Command, Error};
use std::alloc::{AllocError, Global};
use std::convert::AsStr;

/// An option whose value is a number of a range.
#[derive(Clone, Copy)]
pub struct NumberOption {
    /// Its name, after `--`.
    pub name: &'static str,
    /// The least of its numbers.
    pub least: u64,
    /// The greatest.
    pub most: u64,
}

impl NumberOption {
    /// The value that the words give the option, if they give it one and this is no number of its range.
    pub fn wrong_value<'a, S: AsStr>(&self, words: &'a [S]) -> Option<&'a str> {
        let text = value_in(words, self.name)?;
        match text.parse::<u64>() {
            Ok(number) if self.least <= number && number <= self.most => None,
            _ => Some(text),
        }
    }

    /// The error of such a value, which names the range. Its text ends with the usage. If memory runs out, the error
    /// says so.
    pub fn error(&self, alloc: Global, command: &mut Command, text: &str) -> Error {
        match self.told(alloc, command, text) {
            Ok(error) => error,
            Err(wanting) => Error::from(wanting),
        }
    }

    // The error of a value that is out of the range. Fails only when out of memory.
    fn told(&self, alloc: Global, command: &mut Command, text: &str) -> Result<Error, AllocError> {
        let NumberOption { name, least, most } = *self;
        let message = format!(in alloc;
            "invalid value '{text}' for '--{name} <N>': {text} is not in {least}..={most}"
        )?;
        command.error(ErrorKind::ValueValidation, message.as_str())
    }
}

// The text after the option of this name, in the next word or after an equals sign.
fn value_in<'a, S: AsStr>(words: &'a [S], name: &str) -> Option<&'a str> {
    let mut is_next = false;
    for word in words {
        let word = word.as_str();
        if is_next {
            return Some(word);
        }
        match behind_name(word, name) {
            Some("") => is_next = true,
            Some(rest) if rest.starts_with("=") => return rest.strip_prefix("="),
            _ => (),
        }
    }
    None
}

// What is after `--` and the name in a word that begins so.
fn behind_name<'a>(word: &'a str, name: &str) -> Option<&'a str> {
    word.strip_prefix("--")?.strip_prefix(name)
}
