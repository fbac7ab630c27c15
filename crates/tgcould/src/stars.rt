//! The answers to questions with a star. They list who could come to hold a right over a vertex, or what a vertex could
//! hold.
ghost use Rattle.std.specs.Prelude.{◌≡◌, ℕ, IfOk, IsTrue, OnOk, true};
ghost use Rattle.std.specs.List.{Contains};
ghost use Rattle.tg_rights.specs.RightSet.{has};
ghost use Rattle.tg_rights.specs.declared.Right.{Right as TheRight};
ghost use Rattle.tg_could.specs.declared.chance.Chance.TheVariants.{Never};
ghost use Rattle.tg_could.specs.Told.{TellsWho, IsLeftOut};
ghost use Rattle.tg_could.specs.Listed.{TellsWhat};
ghost use Rattle.tgcould.specs.Told.{ListsWho, ListsWhat, IsHeldOverBy};

use std::alloc::{AllocError, Global};
use tg_could::{Chance, Scene, What, Who, what_could, who_could};
use tg_rights::{Right, Rights};

/// Who could come to hold a right over a vertex.
#[derive(Drop)]
pub struct Holders {
    /// The vertices that were made, by their names.
    pub names: Vec<u64>,
    /// Whether a vertex that is made later could, too.
    pub later: bool,
}

/// The rights that somebody could come to hold.
#[derive(Drop)]
pub struct HeldRights {
    /// The vertices that were made, by their names, with the rights over each.
    pub over: Vec<(u64, Rights)>,
    /// The rights over vertices that are made later.
    pub later: Rights,
}

/// Who could come to hold the right over y. A name that isn't listed never holds it, whether it was made or not.
pub fn holders_of(alloc: Global, scene: &Scene, right: Right, y: u64) -> Result<Holders, AllocError>
    ensures { IfOk result (ListsWho scene.now.picture.now scene.now.silent.now right y) }
{
    let who = who_could(alloc, scene, right, y)?;
    list_holders(alloc, scene, &who, right, y)
}

// The names that one search finds.
fn list_holders(
    alloc: Global,
    scene: &Scene,
    who: &Who,
    right: Right,
    y: u64,
) -> Result<Holders, AllocError>
    requires { TellsWho scene.now.silent.now scene.now.picture.now right y who.now }
    ensures { IfOk result (ListsWho scene.now.picture.now scene.now.silent.now right y) }
{
    let mut names = Vec::new(alloc);
    for x in 0..scene.picture.made() {
        add_unless_never(&mut names, who, x)?;
    }
    let later = !is_never(who.of_later());
    Ok(Holders { names, later })
}

// Adds x, unless it never holds the right.
fn add_unless_never(names: &mut Vec<u64>, who: &Who, x: u64) -> Result<(), AllocError>
    ensures kept { OnOk result ((k : ℕ) → Contains names.old.items k → Contains names.new.items k) }
    ensures shown { OnOk result ((¬ Contains names.new.items x) → IsLeftOut who.now x) }
{
    if !is_never(who.of(x)) {
        names.push(x)?;
    }
    Ok(())
}

// Whether the answer is that it never comes about.
fn is_never(chance: Chance) -> bool
    ensures { IsTrue result → chance ≡ Never }
{
    match chance {
        Chance::Never => true,
        Chance::Perhaps => false,
    }
}

/// The rights that x could come to hold. Over a name that isn't listed x never holds a right, whether the name was made
/// or not.
pub fn held_by(alloc: Global, scene: &Scene, x: u64) -> Result<HeldRights, AllocError>
    ensures { IfOk result (ListsWhat scene.now.picture.now scene.now.silent.now x) }
{
    let what = what_could(alloc, scene, x)?;
    list_held(alloc, scene, &what, x)
}

// The rights that one search finds.
fn list_held(alloc: Global, scene: &Scene, what: &What, x: u64) -> Result<HeldRights, AllocError>
    requires { TellsWhat scene.now.silent.now scene.now.picture.now x what.now }
    ensures { IfOk result (ListsWhat scene.now.picture.now scene.now.silent.now x) }
{
    let mut rows = Vec::new(alloc);
    for y in 0..scene.picture.made() {
        add_rights(&mut rows, y, what.over(y))?;
    }
    let later = what.over_later();
    Ok(HeldRights { over: rows, later })
}

// Adds a vertex with the rights over it, unless there are none.
fn add_rights(rows: &mut Vec<(u64, Rights)>, y: u64, rights: Rights) -> Result<(), AllocError>
    ensures kept { OnOk result ((right : TheRight) (k : ℕ) → IsHeldOverBy rows.old.items right k → IsHeldOverBy rows.new.items right k) }
    ensures added { OnOk result ((right : TheRight) → has rights right ≡ true → IsHeldOverBy rows.new.items right y) }
{
    if rights.is_empty() {
        return Ok(());
    }
    rows.push((y, rights))?;
    Ok(())
}
