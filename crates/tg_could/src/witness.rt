//! Witnesses. A witness is a list of turns after which x holds the right, replayed by the rules.
ghost use Rattle.std.specs.Prelude.{IfOk, IsTrue};
ghost use Rattle.tg_could.specs.Scenes.{OnGraphs, WitnessOf};

pub(crate) mod chains;
pub(crate) mod claims;
pub(crate) mod few;
pub(crate) mod plan;
pub(crate) mod shorter;
pub(crate) mod trial;

use crate::question::{Question, Scene, Witness};
use crate::witness::chains::Chains;
use crate::witness::trial::Trial;
use std::alloc::{AllocError, Global};

/// Whether x holds a right over y after these turns, if so many more vertices may be made. Each turn has to be one of a
/// subject that acts by then, and has to be allowed. It adds rights, makes a vertex or retires. Fails only when out of
/// memory.
pub fn lead_there(
    alloc: Global,
    scene: &Scene,
    question: Question,
    witness: &Witness,
) -> Result<bool, AllocError>
    ensures { IfOk result (λ lead. IsTrue lead → OnGraphs scene.now (WitnessOf scene.now question witness.now)) }
{
    let rows = Chains::of(alloc, scene.picture);
    replay(alloc, scene, rows, question, witness)
}

/// Whether x holds the right after a witness, if the edges from each vertex are known. Nothing is believed of these
/// edges.
pub(crate) fn replay(
    alloc: Global,
    scene: &Scene,
    rows: Chains,
    question: Question,
    witness: &Witness,
) -> Result<bool, AllocError>
    ensures { IfOk result (λ lead. IsTrue lead → OnGraphs scene.now (WitnessOf scene.now question witness.now)) }
{
    let mut trial = Trial::new(alloc, scene.picture, rows);
    trial.lead_there(scene, question, witness)
}
