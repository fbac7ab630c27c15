//! An answer to a question, in numbers.
ghost use Rattle.std.specs.Prelude.{◌≡◌};
ghost use Rattle.tg_c.specs.Could.{outlook_kind, names_answered};

use tg_could::{Answer, ReachedAnswer};
use tg_model::Deed;

/// An answer to a question.
#[derive(Drop)]
pub struct Outlook {
    /// The answer of `tg_could`.
    pub told: ReachedAnswer,
}

impl Outlook {
    ghost use Rattle.std.specs.Prelude.{◌≡◌};
    ghost use Rattle.tg_c.specs.Could.{kind_in, names_told, turns_in};

    /// Returns the kind of the answer:
    ///
    /// | Kind | Answer |
    /// |---|---|
    /// | 0 | never |
    /// | 1 | now |
    /// | 2 | after turns |
    /// | 3 | after turns, with more names |
    /// | 4 | x isn't reached |
    /// | 5 | open, because a name in the question is far ahead |
    pub fn kind(&self) -> u64
        ensures { result ≡ kind_in self.now.told }
    {
        match &self.told {
            ReachedAnswer::Unreached => 4,
            ReachedAnswer::Of(answer) => kind_of_answer(answer),
        }
    }

    /// How many names are lacking.
    pub fn names(&self) -> u64
        ensures { result ≡ names_told self.now.told }
    {
        match &self.told {
            ReachedAnswer::Unreached => 0,
            ReachedAnswer::Of(answer) => names_of_answer(answer),
        }
    }

    /// The turns, in order.
    pub fn turns(&self) -> &[(u64, Deed)]
        ensures { result.now ≡ turns_in self.now.told }
    {
        match &self.told {
            ReachedAnswer::Unreached => &[],
            ReachedAnswer::Of(answer) => answer.turns(),
        }
    }
}

// The kind of an answer.
fn kind_of_answer(answer: &Answer) -> u64
    ensures { result ≡ outlook_kind answer.now }
{
    match answer {
        Answer::Never(_) => 0,
        Answer::Could(turns) => { if turns.is_empty() { 1 } else { 2 } }
        Answer::WantsNames { .. } => 3,
        Answer::Open => 5,
    }
}

// How many more names an answer needs.
fn names_of_answer(answer: &Answer) -> u64
    ensures { result ≡ names_answered answer.now }
{
    match answer {
        Answer::WantsNames { names, .. } => *names,
        _ => 0,
    }
}
