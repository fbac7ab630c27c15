//! The answers to all questions.
ghost use Rattle.std.specs.Prelude.{◌≡◌, ◌<◌, IfOk, IsTrue};
ghost use Rattle.std.specs.List.{All};
ghost use Rattle.tgcould.specs.Policies.{IsKeptPolicy, MeetsPolicy, texts_of};
ghost use Rattle.tgcould.specs.Told.{NeverComes};

use crate::ask::{AnswerNote, tell};
use crate::notes::Remarks;
use crate::query::{Query, read_question};
use clap::ArgMatches;
use std::alloc::{AllocError, Global};
use tg_could::Scene;
use tg_plain::{PlainFault, PlainText};

/// The answers to questions.
#[derive(Drop)]
pub struct Answers {
    alloc: Global,
    text: PlainText,
    notes: Remarks,
    // Whether each answer follows its question, with an empty line after it.
    are_headed: bool,
}

impl Answers {
    /// No answer. So many boxes are left in the stock, or `None` if they have no end, and so many questions are asked.
    pub fn new(alloc: Global, boxes: Option<u64>, questions: usize) -> Answers
        ensures { result.notes.status ≡ 0 }
    {
        Answers {
            alloc,
            text: PlainText::new(alloc),
            notes: Remarks::new(alloc, boxes),
            are_headed: questions > 1,
        }
    }

    /// Adds the answers to the questions of an option. If the exit status is 0 then, it was before. If what these
    /// questions ask about must never come about, it never does.
    pub fn add_all(&mut self, scene: &Scene, matches: &ArgMatches, option: &str, must_never: bool)
        ensures { MeetsPolicy self.old.notes.status self.new.notes.status must_never
            (All (IsKeptPolicy scene.now.picture.now scene.now.silent.now) (texts_of matches.now option.now)) }
    {
        let values = matches.get_strs(option).unwrap_or(&[]);
        self.add_each(scene, values, must_never);
    }

    // Adds the answers to the questions that these texts are.
    fn add_each(&mut self, scene: &Scene, texts: &[&str], must_never: bool)
        ensures { MeetsPolicy self.old.notes.status self.new.notes.status must_never
            (All (λ text. IsKeptPolicy scene.now.picture.now scene.now.silent.now text.now) texts.now) }
    {
        for text in texts {
            self.add_text(scene, text, must_never);
        }
    }

    // Adds the answer to the question that a text is, or notes that it is none.
    fn add_text(&mut self, scene: &Scene, text: &str, must_never: bool)
        ensures { MeetsPolicy self.old.notes.status self.new.notes.status must_never
            (IsKeptPolicy scene.now.picture.now scene.now.silent.now text.now) }
    {
        match read_question(text) {
            Ok(query) => self.add_noted(scene, text, query, must_never),
            Err(_) => self.notes.refuse(),
        }
    }

    // Adds the answer to a question, whose text this is, and what standard error says of it.
    fn add_noted(&mut self, scene: &Scene, text: &str, query: Query, must_never: bool)
        ensures { MeetsPolicy self.old.notes.status self.new.notes.status must_never
            (NeverComes scene.now.picture.now scene.now.silent.now query) }
    {
        let told = self.add(scene, text, query);
        self.notes.add(text, told, must_never);
    }

    // Adds the answer to a question, whose text this is.
    fn add(&mut self, scene: &Scene, text: &str, query: Query) -> AnswerNote
        ensures never { IsTrue result.is_never → NeverComes scene.now.picture.now scene.now.silent.now query }
        ensures status { self.new.notes.status ≡ self.old.notes.status }
    {
        if !self.are_headed {
            return tell(self.alloc, &mut self.text, scene, query);
        }
        self.text.add(text);
        self.text.add(": ");
        let told = tell(self.alloc, &mut self.text, scene, query);
        self.text.add("\n");
        told
    }

    /// Prints the answers, and the notes on standard error. The exit status.
    pub fn print<R: Print + Eprint>(&self, rt: &R) -> Result<u8, PlainFault>
        ensures { IfOk result (λ status. (status ≡ self.now.notes.status) × (status < 3)) }
    {
        if self.notes.is_short {
            return Err(PlainFault::OutOfMemory(AllocError));
        }
        self.text.print(rt)?;
        rt.eprint(self.notes.text.as_str())?;
        Ok(self.notes.status)
    }
}
