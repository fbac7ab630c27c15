//! Laws of the definitions alone. A function here does nothing. Its `ensures` is the law.
ghost use Rattle.std.specs.Prelude.{◌≡◌, ◌≢◌, ℕ, Bool, true, List};
ghost use Rattle.std.specs.List.{All, Contains};
ghost use Rattle.tg_rights.specs.declared.Right.{Right};
ghost use Rattle.tg_model.specs.Graph.{ProtectionGraph};
ghost use Rattle.tg_journal.specs.declared.entry.Entry.{Entry};
ghost use Rattle.tg_journal.specs.History.{IsLegal, graph_after};
ghost use Rattle.tg_could.specs.Turns.{NeverHolds};
ghost use Rattle.examples.specs.Alone.{IsAlone, LeavesBe, ReadsValue, Withholds, changes};

/// Suppose that an owner alone holds rights over a vertex, and never hands them on. Then nobody else ever holds them,
/// whatever anybody does.
pub fn what_is_never_handed_on_stays_the_owners()
    ensures { (which : Right → Bool) (owner y : ℕ) (g : ProtectionGraph) (es : List Entry) → IsAlone which owner y g → All (Withholds which owner y) es →
        IsAlone which owner y (graph_after g es) }
{}

/// To take back, an owner stops to write. A vertex that the owner alone may change stays as it was left, whatever the
/// others do (`left`). A subject that reads it gets that value, or is denied (`told`).
pub fn to_stop_is_to_take_back()
    ensures left { (owner y : ℕ) (g : ProtectionGraph) (es : List Entry) → IsAlone changes owner y g → All (Withholds changes owner y) es → All (LeavesBe owner y) es →
        (graph_after g es).value y ≡ g.value y }
    ensures told { (owner y : ℕ) (g : ProtectionGraph) (es : List Entry) → IsAlone changes owner y g → IsLegal g es → All (Withholds changes owner y) es → All (LeavesBe owner y) es →
        All (ReadsValue y (g.value y)) es }
{}

/// The same law in the words of `tg_could`. While the owner is silent, nobody else ever comes to hold such a right.
pub fn what_is_the_owners_could_never_be_anothers()
    ensures { (silent : List ℕ) (which : Right → Bool) (owner y : ℕ) (g : ProtectionGraph) → Contains silent owner → IsAlone which owner y g →
        (x : ℕ) (right : Right) → which right ≡ true → x ≢ owner → NeverHolds silent g x right y }
{}
