//! Whose turns would be enough.
ghost use Rattle.std.specs.Prelude.{◌≡◌, false, ℕ, IfOk};
ghost use Rattle.std.specs.List.{Contains};
ghost use Rattle.tg_could.specs.Scenes.{NeverWithout, OnGraphs};

use crate::question::{Question, Scene};
use crate::search::search;
use crate::witness::trial::leave_out;
use std::alloc::{AllocError, Global};

/// Whose turns would be enough. These are the silent subjects for whom [`could_hold`](crate::could_hold) answers other
/// than `Never` if it alone is taken out of the silent ones. For each subject that is left out, it is proved that x
/// never holds the right over y then. Makes one search for each. Fails only when out of memory.
pub fn needs(alloc: Global, scene: &Scene, question: Question) -> Result<Vec<u64>, AllocError>
    ensures { IfOk result (λ enough. OnGraphs scene.now (λ g. (p : ℕ) → Contains scene.now.silent.now p →
        ¬ Contains enough.items p → NeverWithout scene.now question p g)) }
{
    let mut enough = Vec::new(alloc);
    for host in scene.silent {
        let would_do = is_enough(alloc, scene, *host, question)?;
        if !would_do {
            continue;
        }
        enough.push(*host)?;
    }
    Ok(enough)
}

// Whether the turns of one silent one would be enough. Fails only when out of memory.
fn is_enough(
    alloc: Global,
    scene: &Scene,
    host: u64,
    question: Question,
) -> Result<bool, AllocError>
    ensures { IfOk result (λ enough. enough ≡ false → OnGraphs scene.now (NeverWithout scene.now question host)) }
{
    let mut others = Vec::from_slice(alloc, scene.silent)?;
    leave_out(&mut others, host);
    let fewer = Scene {
        picture: scene.picture,
        silent: others.as_slice(),
    };
    let found = search(alloc, &fewer, question.right, question.y, false);
    found.grown?;
    let parts = found.sides.parts(&fewer, question);
    Ok(!parts)
}
