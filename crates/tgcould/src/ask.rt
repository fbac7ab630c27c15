//! Questions about a picture, and their answers.
ghost use Rattle.std.specs.Prelude.{◌≡◌, ℕ, IsTrue, true, false};
ghost use Rattle.tg_rights.specs.declared.Right.{Right as TheRight};
ghost use Rattle.tg_plain.specs.Grown.{Appends};
ghost use Rattle.tgcould.specs.Texts.{chance_text};
ghost use Rattle.tgcould.specs.Told.{IsNever, IsNobody, IsNothing, NeverComes, SaysNever, TellsHold, named_in};

use crate::query::{Query, VertexWord};
use crate::stars::{HeldRights, Holders, held_by, holders_of};
use crate::text::add_answer;
use std::alloc::Global;
use tg_could::{Answer, Question, Scene, could_hold};
use tg_model::Deed;
use tg_plain::PlainText;
use tg_rights::{Right, Rights};

/// The outcome of a question.
#[derive(Clone, Copy)]
pub struct AnswerNote {
    /// Whether what is asked never comes about.
    pub is_never: bool,
    /// Whether the answer is open.
    pub is_open: bool,
    /// How many vertices the lines of the answer make.
    pub made: u64,
}

/// Appends the answer to a question.
pub fn tell(alloc: Global, text: &mut PlainText, scene: &Scene, query: Query) -> AnswerNote
    ensures { IsTrue result.is_never → NeverComes scene.now.picture.now scene.now.silent.now query }
{
    match query {
        Query::Hold { x, right, y } => {
            let x = name_of(scene, x);
            let y = name_of(scene, y);
            tell_hold(alloc, text, scene, Question { x, right, y })
        }
        Query::Who { right, y } => tell_who(alloc, text, scene, right, name_of(scene, y)),
        Query::What { x } => tell_what(alloc, text, scene, name_of(scene, x)),
    }
}

// The name of a vertex of a question.
fn name_of(scene: &Scene, vertex: VertexWord) -> u64
    ensures { result ≡ named_in scene.now.picture.now vertex }
{
    match vertex {
        VertexWord::Named(name) => name,
        VertexWord::New => scene.picture.made(),
    }
}

// Appends whether x could come to hold the right over y.
fn tell_hold(alloc: Global, text: &mut PlainText, scene: &Scene, question: Question) -> AnswerNote
    ensures text { TellsHold scene.now.picture.now scene.now.silent.now question.x question.right question.y text.old text.new }
    ensures never { IsTrue result.is_never →
        IsNever scene.now.picture.now scene.now.silent.now question.x question.right question.y }
{
    match could_hold(alloc, scene, question) {
        Ok(answer) => tell_answer(text, &answer),
        Err(_) => {
            text.is_short = true;
            listed(false)
        }
    }
}

// Appends the text of an answer.
fn tell_answer(text: &mut PlainText, answer: &Answer) -> AnswerNote
    ensures text { Appends text.old (chance_text answer.now) text.new }
    ensures never { IsTrue result.is_never → SaysNever answer.now }
{
    add_answer(text, answer);
    AnswerNote {
        is_never: is_never(answer),
        is_open: matches!(answer, Answer::Open),
        made: makings(answer.turns()),
    }
}

// Whether an answer is that it never comes about.
fn is_never(answer: &Answer) -> bool
    ensures { IsTrue result → SaysNever answer.now }
{
    matches!(answer, Answer::Never(_))
}

// How many vertices the turns make.
fn makings(turns: &[(u64, Deed)]) -> u64 {
    let mut made: u64 = 0;
    for turn in turns {
        if matches!(turn.1, Deed::Create { .. } | Deed::Spawn { .. }) {
            made = made.saturating_add(1);
        }
    }
    made
}

// The outcome of a list.
fn listed(is_never: bool) -> AnswerNote
    ensures { result.is_never ≡ is_never }
{
    AnswerNote {
        is_never,
        is_open: false,
        made: 0,
    }
}

// Appends who could come to hold the right over y.
fn tell_who(alloc: Global, text: &mut PlainText, scene: &Scene, right: Right, y: u64) -> AnswerNote
    ensures { IsTrue result.is_never → (x : ℕ) → IsNever scene.now.picture.now scene.now.silent.now x right y }
{
    match holders_of(alloc, scene, right, y) {
        Ok(holders) => add_holders(text, &holders),
        Err(_) => {
            text.is_short = true;
            listed(false)
        }
    }
}

// Appends these names and `new`, with a space between two, or that there are none.
fn add_holders(text: &mut PlainText, holders: &Holders) -> AnswerNote
    ensures { IsTrue result.is_never → IsNobody holders.now }
{
    let first = text.len();
    for name in holders.names.as_slice() {
        add_name(text, first, *name);
    }
    if holders.later {
        add_new(text, first);
    }
    let is_never = holders.names.is_empty() && !holders.later;
    text.add(if is_never { "nobody\n" } else { "\n" });
    listed(is_never)
}

// Appends a name to the list that begins here, with a space between two.
fn add_name(text: &mut PlainText, first: usize, name: u64) {
    add_space(text, first);
    text.add_number(name);
}

// Appends the vertices that are made later.
fn add_new(text: &mut PlainText, first: usize) {
    add_space(text, first);
    text.add("new");
}

// Appends a space, unless the list begins here.
fn add_space(text: &mut PlainText, first: usize) {
    if text.len() > first {
        text.add(" ");
    }
}

// Appends which rights x could come to hold, and over whom.
fn tell_what(alloc: Global, text: &mut PlainText, scene: &Scene, x: u64) -> AnswerNote
    ensures { IsTrue result.is_never → (right : TheRight) (y : ℕ) → IsNever scene.now.picture.now scene.now.silent.now x right y }
{
    match held_by(alloc, scene, x) {
        Ok(held) => add_held(text, &held),
        Err(_) => {
            text.is_short = true;
            listed(false)
        }
    }
}

// Appends each vertex with the rights over it, with a space between two, or that there are none.
fn add_held(text: &mut PlainText, held: &HeldRights) -> AnswerNote
    ensures { IsTrue result.is_never → IsNothing held.now }
{
    let first = text.len();
    for (name, rights) in held.over.as_slice() {
        add_name(text, first, *name);
        add_rights(text, *rights);
    }
    if !held.later.is_empty() {
        add_new(text, first);
        add_rights(text, held.later);
    }
    let is_never = held.over.is_empty() && held.later.is_empty();
    text.add(if is_never { "nothing\n" } else { "\n" });
    listed(is_never)
}

// Appends the rights over a vertex of the list.
fn add_rights(text: &mut PlainText, rights: Rights) {
    text.add(":");
    text.add_rights(rights);
}
