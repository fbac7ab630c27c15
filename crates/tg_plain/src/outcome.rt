//! What a script or a history leaves.
ghost use Rattle.std.specs.Prelude.{◌≡◌, ℕ, List, Option, Some, None, IfOk, IfSome, OnOk};
ghost use Rattle.tg_entries.specs.Kept.{IsTextOf};
ghost use Rattle.tg_plain.specs.Lines.{IsOutcome, boxes_left as left_of, boxes_of};
ghost use Rattle.tg_plain.specs.Past.{IsGiven, IsLeftBy, IsPastOf};

use crate::fault::PlainFault;
use crate::input::InputText;
use crate::options::PlainOptions;
use crate::past::last_picture;
use crate::refused::RefusedLine;
use crate::run::PlainRun;
use crate::script::Script;
use std::alloc::Global;
use std::fs::Files;
use tg_entries::History;
use tg_model::Picture;

/// What the lines of a script or the entries of a history leave. It is the picture of their graph, how many boxes they
/// didn't take, and which lines were denied or refused.
#[derive(Drop)]
pub struct Outcome {
    /// The picture of the graph.
    pub picture: Picture,
    /// How many boxes are left, or `None` if they have no end. After a history they aren't counted.
    pub boxes: Option<u64>,
    /// The lines that were denied or refused, in their order. A history has none: its entries say what happened.
    pub refused: Vec<RefusedLine>,
}

impl Outcome {
    /// What the script or the history leaves that the words of the command line give this program, run with these
    /// options. Fails as [`InputText::given`], [`Outcome::of`] and [`Outcome::of_history`] do.
    pub fn given<R: AllocGlobal + Input + Eprint + Files>(
        rt: &R,
        program: &str,
        options: PlainOptions,
    ) -> Result<Outcome, PlainFault>
        ensures { IfOk result (λ outcome. (known : Option (List ℕ)) × IsGiven R.Reader.remaining options.entry.kept known × IfSome known (λ bytes. IsLeftBy options.entry bytes outcome)) }
    {
        let input = InputText::given(rt, program, options)?;
        match input {
            InputText::Lines(script) => Outcome::of(&script),
            InputText::Entries(history) => Outcome::of_history(rt.alloc(), &history),
        }
    }

    /// What a legal history leaves. Fails only when out of memory.
    pub fn of_history(alloc: Global, history: &History) -> Result<Outcome, PlainFault>
        ensures { IfOk result (λ outcome. (bytes : List ℕ) → IsTextOf bytes history.now → IsPastOf bytes outcome) }
    {
        let picture = last_picture(alloc, history)?;
        Ok(Outcome {
            picture,
            boxes: None,
            refused: Vec::new(alloc),
        })
    }

    /// What a script leaves, which has no fault. Fails as [`PlainRun::of`] does, and at a fault.
    pub fn of(script: &Script) -> Result<Outcome, PlainFault>
        ensures left { IfOk result (IsOutcome script.now) }
        ensures whole { OnOk result (script.now.fault ≡ None) }
    {
        script.whole()?;
        let (run, refused) = PlainRun::of(script)?;
        Ok(Outcome {
            picture: run.picture(script.alloc)?,
            boxes: boxes_left(script, run.taken),
            refused,
        })
    }
}

// How many boxes of the script are left where so many were taken, or `None` if they have no end.
fn boxes_left(script: &Script, taken: usize) -> Option<u64>
    ensures { result ≡ left_of (boxes_of script.now) taken }
{
    if script.is_endless {
        return None;
    }
    Some((script.stock.len() as u64).saturating_sub(taken as u64))
}
