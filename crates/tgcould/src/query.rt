//! Questions, and how they are written.
ghost use Rattle.std.specs.Prelude.{◌≡◌, [], ◌∷◌, codes, IfOk, IfSome, IsTrue};
ghost use Rattle.tg_rights.specs.RightSet.{letter_of};
ghost use Rattle.tgcould.specs.Policies.{IsQuestion, IsBehind, IsVertex, AreWords};

use tg_rights::Right;
use tg_text::reason_of_number;

/// A vertex of a question.
#[derive(Clone, Copy)]
pub enum VertexWord {
    /// The vertex of this name, whether it was made or not.
    Named(u64),
    /// The next that is made.
    New,
}

/// A question.
#[derive(Clone, Copy)]
pub enum Query {
    /// Could x come to hold the right over y? `3 r 7`
    Hold {
        x: VertexWord,
        right: Right,
        y: VertexWord,
    },
    /// Who could come to hold the right over y? `* r 7`
    Who {
        right: Right,
        y: VertexWord,
    },
    /// Which rights could x come to hold, and over whom? `3 * *`
    What {
        x: VertexWord,
    },
}

const NO_WORDS: &str = "a question is 'X RIGHT Y', '* RIGHT Y' or 'X * *'";

const NO_RIGHT: &str = "one right is wanted, a letter out of r w t g a l u v";

const BOTH_NEW: &str = "'new' is one vertex";

/// The question that the text is. If it is no question, the reason is one sentence without its dot.
pub fn read_question(text: &str) -> Result<Query, &'static str>
    ensures { IfOk result (IsQuestion text.now) }
{
    match text.split_once(' ') {
        Some((holder, rest)) => read_behind(holder, rest),
        None => Err(NO_WORDS),
    }
}

// The question that begins with this word.
fn read_behind(holder: &str, rest: &str) -> Result<Query, &'static str>
    ensures { IfOk result (IsBehind holder.now rest.now) }
{
    match rest.split_once(' ') {
        Some((right, over)) if !over.contains(" ") => question_of(holder, right, over),
        _ => Err(NO_WORDS),
    }
}

// The question of three words, by which of them are stars.
fn question_of(holder: &str, right: &str, over: &str) -> Result<Query, &'static str>
    ensures { IfOk result (AreWords holder.now right.now over.now) }
{
    match (is_star(holder), is_star(right), is_star(over)) {
        (false, false, false) => hold_question(holder, right, over),
        (true, false, false) => who_question(right, over),
        (false, true, true) => what_question(holder),
        _ => Err(NO_WORDS),
    }
}

fn is_star(word: &str) -> bool
    ensures { IsTrue result → word.now ≡ codes "*" }
{
    word == "*"
}

fn is_new(word: &str) -> bool
    ensures { IsTrue result → word.now ≡ codes "new" }
{
    word == "new"
}

fn what_question(x: &str) -> Result<Query, &'static str>
    ensures { IfOk result (AreWords x.now (codes "*") (codes "*")) }
{
    match vertex_of(x) {
        Ok(x) => Ok(Query::What { x }),
        Err(reason) => Err(reason),
    }
}

fn who_question(right: &str, y: &str) -> Result<Query, &'static str>
    ensures { IfOk result (AreWords (codes "*") right.now y.now) }
{
    match (right_of(right), vertex_of(y)) {
        (Some(right), Ok(y)) => Ok(Query::Who { right, y }),
        (None, _) => Err(NO_RIGHT),
        (_, Err(reason)) => Err(reason),
    }
}

fn hold_question(x: &str, right: &str, y: &str) -> Result<Query, &'static str>
    ensures { IfOk result (AreWords x.now right.now y.now) }
{
    if is_new(x) && is_new(y) {
        return Err(BOTH_NEW);
    }
    match (vertex_of(x), right_of(right), vertex_of(y)) {
        (Ok(x), Some(right), Ok(y)) => Ok(Query::Hold { x, right, y }),
        (Err(reason), _, _) => Err(reason),
        (_, None, _) => Err(NO_RIGHT),
        (_, _, Err(reason)) => Err(reason),
    }
}

// The vertex that a word is, or why it is none.
fn vertex_of(word: &str) -> Result<VertexWord, &'static str>
    ensures { IfOk result (IsVertex word.now) }
{
    if is_new(word) {
        return Ok(VertexWord::New);
    }
    if let Some(reason) = reason_of_number(word) {
        return Err(reason);
    }
    match word.parse::<u64>() {
        Ok(name) => Ok(VertexWord::Named(name)),
        Err(_) => Err(NO_WORDS),
    }
}

// The right whose letter a word is.
fn right_of(word: &str) -> Option<Right>
    ensures { IfSome result (λ right. word.now ≡ letter_of right ∷ []) }
{
    match word.as_bytes() {
        [letter] => Right::of_letter(*letter),
        _ => None,
    }
}
