//! Laws of the definitions in which contracts speak of stores. A function here does nothing. Its `ensures` is the law.
ghost use Rattle.std.specs.Prelude.{◌≡◌, ◌≢◌, ◌↔◌, ◌⊎◌, ◌<◌, [], ℕ, List, None, false, true};
ghost use Rattle.std.specs.List.{Contains};
ghost use Rattle.tg_rights.specs.RightSet.{RightSet, has, is_none_held, no_rights};
ghost use Rattle.tg_rights.specs.declared.Right.{Right};
ghost use Rattle.tg_model.specs.Graph.{ProtectionGraph, IsSound, IsSubject};
ghost use Rattle.tg_journal.specs.declared.entry.Entry.{Entry};
ghost use Rattle.tg_journal.specs.History.{IsLegal, graph_after};
ghost use Rattle.tg_store.specs.Holding.{common};
ghost use Rattle.tg_store.specs.declared.handing.Hand.{Hand};
ghost use Rattle.tg_store.specs.Handing.{MayHand, denied_in_hand};
ghost use Rattle.tg_store.specs.declared.parking.Parking.{Parking};
ghost use Rattle.tg_store.specs.Parking.{parked};
ghost use Rattle.tg_store.specs.Unparking.{MayUnpark, unparked};
ghost use Rattle.tg_store.specs.Store.{StandsFor};
ghost use Rattle.tg_store.specs.Withdrawing.{AreHoldersOfSome, withdrawn};

use crate::store::Store;
use tg_payload::Payload;

/// A store represents exactly one graph. Therefore a promise about each graph that a store represents is a promise
/// about one graph.
pub fn stands_for_one_graph<P: Payload>(_store: &Store<P>)
    ensures some { (g : ProtectionGraph) × StandsFor _store.now g }
    ensures one { (g h : ProtectionGraph) → StandsFor _store.now g → StandsFor _store.now h → g ≡ h }
{}

/// The plain conditions of `MayHand` say when a hand is allowed on a graph. They hold exactly if the take isn't denied
/// there, and the grant isn't denied after the take.
pub fn a_hand_is_denied_unless_it_is_allowed()
    ensures { (g : ProtectionGraph) (h : Hand) → MayHand g h ↔ (denied_in_hand g.label g.value h ≡ None) }
{}

/// Suppose that no vertex that is reached holds one of the rights over y, which was made. Then no legal history brings
/// one of the rights over y back to a vertex that is reached. A withdrawal that reports nobody leaves such a graph.
pub fn withdrawn_rights_never_come_back()
    ensures { (g : ProtectionGraph) (rights : RightSet) (y : ℕ) (es : List Entry) → IsSound g → y < g.made →
        AreHoldersOfSome g rights y [] → IsLegal g es → AreHoldersOfSome (graph_after g es) rights y [] }
{}

/// What a withdrawal does to labels, in plain words. An active subject outside of `keep` holds none of the rights over
/// y afterwards. Each label of another vertex stays, and each label over another vertex. No other right changes.
pub fn a_withdrawal_takes_exactly_these_rights()
    ensures givers { (g : ProtectionGraph) (y : ℕ) (rights : RightSet) (keep : List ℕ) (x : ℕ) → IsSubject g x → ¬ Contains keep x →
        is_none_held (common rights ((withdrawn g y rights keep).label x y)) ≡ true }
    ensures others { (g : ProtectionGraph) (y : ℕ) (rights : RightSet) (keep : List ℕ) (a b : ℕ) → (b ≢ y) ⊎ (Contains keep a ⊎ (¬ IsSubject g a)) →
        (withdrawn g y rights keep).label a b ≡ g.label a b }
    ensures rest { (g : ProtectionGraph) (y : ℕ) (rights : RightSet) (keep : List ℕ) (a b : ℕ) (right : Right) → has rights right ≡ false →
        has ((withdrawn g y rights keep).label a b) right ≡ has (g.label a b) right }
{}

/// What parking does to labels and subjects, in plain words. The account holds exactly what the user held.
/// The user holds nothing and is no subject any more. Each label of another vertex stays, and each other subject does.
pub fn parking_moves_what_the_user_held()
    ensures account { (g : ProtectionGraph) (p : Parking) (y : ℕ) → p.user ≢ p.account → (parked g p).label p.account y ≡ g.label p.user y }
    ensures user { (g : ProtectionGraph) (p : Parking) (y : ℕ) → (parked g p).label p.user y ≡ no_rights }
    ensures left { (g : ProtectionGraph) (p : Parking) → ¬ IsSubject (parked g p) p.user }
    ensures labels { (g : ProtectionGraph) (p : Parking) (x y : ℕ) → x ≢ p.account → x ≢ p.user → (parked g p).label x y ≡ g.label x y }
    ensures subjects { (g : ProtectionGraph) (p : Parking) (x : ℕ) → x ≢ p.user → IsSubject (parked g p) x ↔ IsSubject g x }
    ensures rest { (g : ProtectionGraph) (p : Parking) → ((parked g p).made ≡ g.made) × ((parked g p).value ≡ g.value) }
{}

/// What unparking does to labels, in plain words. The user holds exactly what the account holds, and the host holds
/// nothing over the account. If only the host held a right over the account, then nobody holds one. Each other label of
/// another vertex than the user stays, and all else does.
pub fn unparking_gives_what_the_account_holds()
    ensures user { (g : ProtectionGraph) (p : Parking) (y : ℕ) → (unparked g p).label p.user y ≡ g.label p.account y }
    ensures host { (g : ProtectionGraph) (p : Parking) → p.host ≢ p.user → (unparked g p).label p.host p.account ≡ no_rights }
    ensures left { (g : ProtectionGraph) (p : Parking) → MayUnpark g p → ((x : ℕ) → x ≢ p.host → g.label x p.account ≡ no_rights) →
        (x : ℕ) → (unparked g p).label x p.account ≡ no_rights }
    ensures labels { (g : ProtectionGraph) (p : Parking) (x y : ℕ) → x ≢ p.user → (x ≢ p.host) ⊎ (y ≢ p.account) → (unparked g p).label x y ≡ g.label x y }
    ensures rest { (g : ProtectionGraph) (p : Parking) →
        ((unparked g p).subjects ≡ g.subjects) × ((unparked g p).made ≡ g.made) × ((unparked g p).value ≡ g.value) }
{}

/// A user is parked (p) on one graph, and a new user is unparked (q) from the same account on a later graph. Suppose
/// that the account still holds what the parking left in it. Then the new user holds exactly what the old one held.
/// Suppose also that a label of another vertex than the two users and the account is as the parking left it. Then the
/// unparking leaves the label as it was before the parking. Only the host holds nothing over the account then.
pub fn who_comes_back_holds_what_was_parked()
    ensures user { (g h : ProtectionGraph) (p q : Parking) → p.user ≢ p.account → q.account ≡ p.account →
        ((y : ℕ) → h.label p.account y ≡ (parked g p).label p.account y) → (y : ℕ) → (unparked h q).label q.user y ≡ g.label p.user y }
    ensures others { (g h : ProtectionGraph) (p q : Parking) (x y : ℕ) → x ≢ p.account → x ≢ p.user → x ≢ q.user → (x ≢ q.host) ⊎ (y ≢ q.account) →
        h.label x y ≡ (parked g p).label x y → (unparked h q).label x y ≡ g.label x y }
{}
