//! Laws of histories, each over every graph and every list of entries. A function here does nothing. Its `ensures` is
//! the law.
//!
//! The proofs of the crates above cite the lemmas from which the laws follow. The lemmas are in `proofs/HistoryLaws`,
//! `proofs/NameLaws`, `proofs/Decided` and `proofs/Edition1Laws`. `HistoryLaws` has histories that are cut, joined and
//! extended, what they keep and what they leave.
ghost use Rattle.std.specs.Prelude.{◌≡◌, ◌↔◌, ◌⊎◌, ◌<◌, ◌≤◌, ℕ, List, [], ◌∷◌, ◌++◌, map, take, slice_get, Some, IfSome};
ghost use Rattle.tg_model.specs.Graph.{ProtectionGraph, IsSubject, IsReachable, IsSound};
ghost use Rattle.tg_model.specs.Opened.{Plan, IsPlan, ValueFits, start_of};
ghost use Rattle.tg_model.specs.Rules.{step, answer_of};
ghost use Rattle.tg_model.specs.declared.command.Deed.{Deed};
ghost use Rattle.tg_model.specs.Edition1.{Plan1, Entry1, IsLegal1, start_of1, plan_now};
ghost use Rattle.tg_journal.specs.Edition1.{entry_today, IsFirstBad1};
ghost use Rattle.tg_journal.specs.Auditing.{HasComeTo, PartGoesOn, PassesBefore};
ghost use Rattle.tg_journal.specs.Live.{AuditState, IsSweptGraph};
ghost use Rattle.tg_journal.specs.History.{AnswersName, IsLegalEntry, IsLegal, IsMadeIn, graph_after, IsFirstBad};
ghost use Rattle.tg_journal.specs.declared.entry.Entry.{Entry};

/// A history is legal exactly where each of its entries is legal on the graph after those before it.
pub fn legal_where_each_entry_is()
    ensures entry { (g : ProtectionGraph) (es : List Entry) (at : ℕ) (e : Entry) →
        IsLegal g es → slice_get es at ≡ Some e → IsLegalEntry (graph_after g (take at es)) e }
    ensures legal { (g : ProtectionGraph) (es : List Entry) →
        ((at : ℕ) (e : Entry) → slice_get es at ≡ Some e → IsLegalEntry (graph_after g (take at es)) e) →
        IsLegal g es }
{}

/// A legal history with one more legal entry is legal, and the graph after it is one step further.
pub fn one_more_entry()
    ensures legal { (g : ProtectionGraph) (es : List Entry) (e : Entry) →
        IsLegal g es → IsLegalEntry (graph_after g es) e → IsLegal g (es ++ e ∷ []) }
    ensures graph { (g : ProtectionGraph) (es : List Entry) (e : Entry) →
        graph_after g (es ++ e ∷ []) ≡ step (graph_after g es) e.worker e.deed }
{}

/// Two histories that follow each other are legal together exactly where the first is, and the second from the graph
/// after the first. The graph after both is that after the second, from there.
pub fn histories_join()
    ensures legal { (g : ProtectionGraph) (front more : List Entry) →
        IsLegal g (front ++ more) ↔ (IsLegal g front × IsLegal (graph_after g front) more) }
    ensures graph { (g : ProtectionGraph) (front more : List Entry) →
        graph_after g (front ++ more) ≡ graph_after (graph_after g front) more }
{}

/// Each front of a legal history is legal.
pub fn fronts_are_legal()
    ensures { (g : ProtectionGraph) (es : List Entry) (n : ℕ) → IsLegal g es → IsLegal g (take n es) }
{}

/// A legal history keeps a graph sound. So the graph after a legal history of an opening is sound. It has at most as
/// many vertices as there may be, and what each of them stores fits its law.
pub fn legal_histories_stay_sound()
    ensures kept { (g : ProtectionGraph) (es : List Entry) →
        IsSound g → IsLegal g es → IsSound (graph_after g es) }
    ensures opened { (plan : Plan) (es : List Entry) →
        IsPlan plan → IsLegal (start_of plan) es → IsSound (graph_after (start_of plan) es) }
    ensures limited { (plan : Plan) (es : List Entry) →
        IsPlan plan → (graph_after (start_of plan) es).made ≤ plan.limit }
    ensures values { (plan : Plan) (es : List Entry) (y : ℕ) →
        IsPlan plan → IsLegal (start_of plan) es →
        IfSome ((graph_after (start_of plan) es).value y) ValueFits }
{}

/// A subject after a history was one before it, or was made in it. A vertex that was made and is no subject never
/// becomes one again. A history keeps the limit of vertices, and the number of vertices never falls.
pub fn who_retired_stays_so_and_made_never_falls()
    ensures subjects { (g : ProtectionGraph) (es : List Entry) (x : ℕ) →
        IsSubject (graph_after g es) x → IsSubject g x ⊎ (g.made ≤ x) }
    ensures retired { (g : ProtectionGraph) (es : List Entry) (x : ℕ) →
        x < g.made → ¬ IsSubject g x → ¬ IsSubject (graph_after g es) x }
    ensures limit { (g : ProtectionGraph) (es : List Entry) → (graph_after g es).limit ≡ g.limit }
    ensures made { (g : ProtectionGraph) (es : List Entry) → g.made ≤ (graph_after g es).made }
{}

/// In a legal history no name is answered twice, that of one who retired included.
pub fn no_name_is_given_twice()
    ensures { (g : ProtectionGraph) (es : List Entry) (at other name : ℕ) →
        IsLegal g es → AnswersName es at name → AnswersName es other name → at ≡ other }
{}

/// What can be reached after a legal history could be reached before it, or was made in it.
pub fn reach_only_shrinks()
    ensures { (g : ProtectionGraph) (es : List Entry) (y : ℕ) →
        IsSound g → IsLegal g es → IsReachable (graph_after g es) y →
        IsReachable g y ⊎ IsMadeIn g es y }
{}

/// A vertex that can't be reached never can be again, and a legal history leaves its row and its value.
pub fn the_unreachable_stay()
    ensures out_of_reach { (g : ProtectionGraph) (es : List Entry) (u : ℕ) →
        IsSound g → IsLegal g es → u < g.made → ¬ IsReachable g u → ¬ IsReachable (graph_after g es) u }
    ensures row { (g : ProtectionGraph) (es : List Entry) (u v : ℕ) →
        IsSound g → IsLegal g es → u < g.made → ¬ IsReachable g u →
        (graph_after g es).label u v ≡ g.label u v }
    ensures value { (g : ProtectionGraph) (es : List Entry) (u : ℕ) →
        IsSound g → IsLegal g es → u < g.made → ¬ IsReachable g u →
        (graph_after g es).value u ≡ g.value u }
{}

/// Suppose that a graph has the same labels and values as another at all that its subjects reach. Then it answers each
/// deed of a subject as the other does, and the same holds after the deed. So it needs to know nothing of what can't be
/// reached. An entry is legal on both or on none.
pub fn where_subjects_reach_is_enough()
    ensures answer { (g kept : ProtectionGraph) (x : ℕ) (deed : Deed) →
        HasComeTo g kept → IsSubject g x → answer_of kept x deed ≡ answer_of g x deed }
    ensures step { (g kept : ProtectionGraph) (x : ℕ) (deed : Deed) →
        HasComeTo g kept → IsSubject g x → HasComeTo (step g x deed) (step kept x deed) }
    ensures entry { (g kept : ProtectionGraph) (e : Entry) →
        HasComeTo g kept → IsLegalEntry kept e ↔ IsLegalEntry g e }
{}

/// What no subject reaches may be forgotten, because the graph stays alike where subjects reach.
pub fn the_unreached_may_be_forgotten()
    ensures { (g kept swept : ProtectionGraph) → HasComeTo g kept → IsSweptGraph kept swept → HasComeTo g swept }
{}

/// An auditor that is fed the parts of a journal, one after the other, replays one history. Suppose that it has come to
/// the graph after the entries before its place, and that a part with these in front passes. Then it has come to the
/// graph after all of them, and they are a legal history.
pub fn a_part_goes_on()
    ensures { (g : ProtectionGraph) (old new : AuditState) (first : ℕ) (entries : List Entry) →
        PassesBefore g entries old → PartGoesOn g old new first entries }
{}

/// A history is legal or has a first bad place. One with a first bad place isn't legal, and has no other.
pub fn legal_or_one_first_bad_place()
    ensures either { (g : ProtectionGraph) (es : List Entry) → IsLegal g es ⊎ ((at : ℕ) × IsFirstBad g es at) }
    ensures not_both { (g : ProtectionGraph) (es : List Entry) (at : ℕ) → IsFirstBad g es at → ¬ IsLegal g es }
    ensures only { (g : ProtectionGraph) (es : List Entry) (at other : ℕ) →
        IsFirstBad g es at → IsFirstBad g es other → at ≡ other }
{}

/// The first edition had four rights, and no append, inspect, spawn or retire. A journal of that edition is legal today
/// exactly if it was legal then, and so is each front of it. If it isn't legal, its first bad place is the same, so an
/// audit answers as it did.
pub fn first_edition_is_judged_alike()
    ensures legal { (plan : Plan1) (es : List Entry1) →
        IsLegal (start_of (plan_now plan)) (map entry_today es) ↔ IsLegal1 (start_of1 plan) es }
    ensures front { (plan : Plan1) (es : List Entry1) (at : ℕ) →
        IsLegal (start_of (plan_now plan)) (take at (map entry_today es)) ↔ IsLegal1 (start_of1 plan) (take at es) }
    ensures place { (plan : Plan1) (es : List Entry1) (at : ℕ) →
        IsFirstBad (start_of (plan_now plan)) (map entry_today es) at ↔ IsFirstBad1 (start_of1 plan) es at }
{}
