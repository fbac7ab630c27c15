//! Laws of the definitions alone. A function here does nothing. Its `ensures` is the law.
ghost use Rattle.std.specs.Prelude.{◌⊎◌, ℕ, List, Bool};
ghost use Rattle.tg_rights.specs.RightSet.{RightSet};
ghost use Rattle.tg_rights.specs.declared.Right.{Right};
ghost use Rattle.tg_model.specs.Graph.{ProtectionGraph, IsSound};
ghost use Rattle.tg_model.specs.Picture.{IsMade, Shown};
ghost use Rattle.tg_could.specs.Turns.{NeverHolds, CouldHold};
ghost use Rattle.tg_could.specs.Answered.{IsShort};
ghost use Rattle.tg_could.specs.Laws.{HasMeans, IsBroughtTo, IsConfinedWithout, IsForeseenByEdge, IsSeparated, IsShownByEdge, NoneEverHolds};

/// Where two sets part x from a right over y, x never holds it, whatever any who act do.
pub fn the_separated_never_hold()
    ensures { (silent : List ℕ) (g : ProtectionGraph) (x : ℕ) (right : Right) (y : ℕ) →
        IsMade g → IsSeparated silent g x right y → NeverHolds silent g x right y }
{}

/// Suppose that no take or grant edge leaves or enters a set of vertices. Then none of the set ever holds a right over
/// an older vertex that none of the set held at first.
pub fn the_confined_never_hold()
    ensures { (silent : List ℕ) (g : ProtectionGraph) (inside : ℕ → Bool) (right : Right) (y : ℕ) →
        IsConfinedWithout inside g right y → NoneEverHolds inside silent g right y }
{}

/// A grant is asked about before it is made. Suppose that x never holds the right on the graph with the new edge. Then
/// it never does after the host's grant either, whatever the others do while the host is silent.
pub fn a_grant_is_asked_about_before_it_is_made()
    ensures { (silent : List ℕ) (g : ProtectionGraph) (host via target : ℕ) (rights : RightSet) →
        IsForeseenByEdge silent g host via target rights }
{}

/// A grant adds its edge to the picture. So a view that has followed the edge is one of the graph after the grant.
pub fn a_grant_adds_its_edge_to_the_picture()
    ensures { (p : Shown) (g : ProtectionGraph) (host via target : ℕ) (rights : RightSet) →
        IsShownByEdge p g host via target rights }
{}

/// If walks lead the right over y to x, x could come to hold it. There are turns of those who act after which x holds
/// the right. For this enough names have to be left, and y isn't the only one who acts among 64 subjects.
pub fn what_is_brought_could_come_about()
    ensures { (silent : List ℕ) (g : ProtectionGraph) (x : ℕ) (right : Right) (y : ℕ) →
        HasMeans silent g x y → IsBroughtTo silent g x right y → CouldHold silent g x right y }
{}

/// Two sets part x from the right over y, or walks lead it to x.
pub fn what_is_not_brought_is_parted()
    ensures { (silent : List ℕ) (g : ProtectionGraph) (x : ℕ) (right : Right) (y : ℕ) →
        IsMade g → IsSeparated silent g x right y ⊎ IsBroughtTo silent g x right y }
{}

/// So each question has an answer if enough names are left. Either x never holds the right over y, or x could come to
/// hold it.
pub fn each_question_has_an_answer()
    ensures { (silent : List ℕ) (g : ProtectionGraph) (x y : ℕ) (right : Right) →
        IsSound g → ¬ IsShort g x y → NeverHolds silent g x right y ⊎ CouldHold silent g x right y }
{}
