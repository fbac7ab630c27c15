//! Texts that grow until they are printed.
ghost use Rattle.std.specs.Prelude.{◌≡◌, false, None, [], OnOk, decimal, length};
ghost use Rattle.tg_rights.specs.RightSet.{text_of};
ghost use Rattle.tg_plain.specs.Grown.{Appends};

use crate::fault::PlainFault;
use itoa::Buffer;
use std::alloc::{AllocError, Global};
use tg_rights::Rights;
use tg_text::{Answer, Put, Sink, write_reply};

/// A text that grows until it is printed. Where memory ran out for it, it isn't printed.
#[derive(Drop)]
pub struct PlainText {
    /// The text, if memory never ran out.
    pub bytes: Vec<u8>,
    /// Whether memory ran out for a part of the text, or for a value that it shows.
    pub is_short: bool,
    is_finished: bool,
}

impl PlainText {
    /// No text.
    pub fn new(alloc: Global) -> PlainText
        ensures bytes { result.bytes.items ≡ [] }
        ensures whole { result.is_short ≡ false }
    {
        PlainText {
            bytes: Vec::new(alloc),
            is_short: false,
            is_finished: true,
        }
    }

    /// How many bytes it has, and so how many columns where it has no letters but ASCII's.
    pub fn len(&self) -> usize
        ensures { result ≡ length self.now.bytes.items }
    {
        self.bytes.len()
    }

    /// Takes the text away. That memory ran out stays noted.
    pub fn clear(&mut self)
        ensures bytes { self.new.bytes.items ≡ [] }
        ensures whole { self.new.is_short ≡ self.old.is_short }
    {
        self.bytes.clear();
    }

    /// Appends a text.
    pub fn add(&mut self, text: &str)
        ensures { Appends self.old text.now self.new }
    {
        self.add_bytes(text.as_bytes());
    }

    /// Appends the bytes of a text.
    pub fn add_bytes(&mut self, text: &[u8])
        ensures { Appends self.old text.now self.new }
    {
        self.is_short |= self.bytes.extend_from_slice(text).is_err();
    }

    /// Appends a number.
    pub fn add_number(&mut self, number: u64)
        ensures { Appends self.old (decimal number) self.new }
    {
        let mut buffer = Buffer::new();
        self.add(buffer.format(number));
    }

    /// Appends the letters of rights.
    pub fn add_rights(&mut self, rights: Rights)
        ensures { Appends self.old (text_of rights) self.new }
    {
        self.add_bytes(rights.text().as_bytes());
    }

    /// Appends spaces until so many bytes are after this place of the text.
    pub fn pad(&mut self, first: usize, width: usize) {
        for _ in self.len()..first.saturating_add(width) {
            self.add(" ");
        }
    }

    /// Appends an answer as a run of `tgstore` prints it, without the line feed.
    pub fn add_answer(&mut self, answer: &Answer) {
        self.is_short |= write_reply(self, answer).is_err();
        let _ = self.bytes.pop();
    }

    /// Prints the text. `OutOfMemory` where memory ran out for it, and nothing is printed.
    pub fn print<R: Print>(&self, rt: &R) -> Result<(), PlainFault>
        ensures { OnOk result (self.now.is_short ≡ false) }
    {
        if self.is_short {
            return Err(PlainFault::OutOfMemory(AllocError));
        }
        match rt.write_all(self.bytes.as_slice()) {
            Ok(()) => Ok(()),
            Err(error) => Err(PlainFault::Stream(error)),
        }
    }
}

impl Sink for PlainText {
    ghost taken = { λ _. None };

    ghost failures = { λ _. 0 };

    ghost finished = { λ s. s.is_finished };

    fn put(&mut self, bytes: &[u8]) -> Put {
        self.add_bytes(bytes);
        self.is_finished = false;
        Put::Took(bytes.len())
    }

    fn finish(&mut self) -> bool {
        self.is_finished = true;
        true
    }
}
