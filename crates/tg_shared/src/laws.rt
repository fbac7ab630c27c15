//! Laws about receipts and histories. A function here does nothing. Its `ensures` is the law.
ghost use Rattle.std.specs.Prelude.{◌≡◌, ◌+◌, ◌<◌, [], ℕ, List, Option, drop, false, length, take, true};
ghost use Rattle.std.specs.List.{All, AllPairs, Contains};
ghost use Rattle.tg_rights.specs.RightSet.{RightSet};
ghost use Rattle.tg_model.specs.declared.command.Deed.{Deed};
ghost use Rattle.tg_model.specs.declared.reply.Denial.{Denial};
ghost use Rattle.tg_model.specs.declared.reply.Reply.{Reply};
ghost use Rattle.tg_passes.specs.declared.signed.Signed.{Signed};
ghost use Rattle.tg_passes.specs.Passes.{BeginsWith, Sees};
ghost use Rattle.tg_model.specs.Graph.{IsSubject, ProtectionGraph};
ghost use Rattle.tg_space.specs.declared.kind.Kind.{Kind};
ghost use Rattle.tg_journal.specs.declared.entry.Entry.{Entry};
ghost use Rattle.tg_journal.specs.History.{IsLegal};
ghost use Rattle.tg_shared.specs.declared.receipt.Receipt.{Receipt};
ghost use Rattle.tg_journal.specs.Journal.{Entries};
ghost use Rattle.tg_shared.specs.Laws.{AreKeptInParts, ClosesOver, EndsOnly, GrowsInto, HasExactly, HasNotLeft, IsCountLeft, IsSpawnedIn, KnowsItsOwn, StaysWhole, WasAnswered, graph_up_to};
ghost use Rattle.tg_shared.specs.Parking.{ChangesNothing, HasParked, HasUnparked, ParksOnly, UnparksOnly};
ghost use Rattle.tg_shared.specs.Receipts.{AreParts, MatchParts, MatchesFrom, ReceiptsMatch, all_receipts};
ghost use Rattle.tg_shared.specs.Sessions.{AreSharedOut, AtSeen, HasEnded, HasGrownBy, HasLooked, IsAnswered, IsHeldAtSeen, IsNobodyAtSeen, IsOnItsOwn, IsSubjectAtSeen, KeeperState, LeavesAtSeen, MayClose, MayCloseWith, SessionState, SharedStart, count_of, graph_seen, held_from, knowledge, parts_of, retired_behind, since, subjects_at};
ghost use Rattle.tg_store.specs.Held.{IsHeldOver};
ghost use Rattle.tg_store.specs.Leaving.{HasLeft};
ghost use Rattle.tg_store.specs.declared.parking.Parked.TheVariants as parked;
ghost use Rattle.tg_store.specs.declared.parking.Parking.{Parking};
ghost use Rattle.tg_store.specs.Parking.{IsParked};
ghost use Rattle.tg_store.specs.Store.{IsFaithful, StoreState, graph_of_store};
ghost use Rattle.tg_shared.specs.Withdrawing.{HasWithdrawn, StaysAway, WithdrawsOnly};

use tg_store::laws::withdrawn_rights_never_come_back;

/// The entry of each receipt that matches a legal history was answered by the rules, on the graph after all entries
/// before it. The entries of all earlier receipts are among these entries. So what a session reads comes after all that
/// it wrote before.
pub fn receipts_stand_in_order()
    ensures answered { (g : ProtectionGraph) (entries : List Entry) (worker : ℕ) (receipts : List Receipt) →
        IsLegal g entries → ReceiptsMatch entries worker receipts → All (WasAnswered g entries) receipts }
    ensures earlier { (entries : List Entry) (worker : ℕ) (receipts : List Receipt) →
        ReceiptsMatch entries worker receipts → AllPairs (λ r later. Contains (take later.at entries) r.entry) receipts }
{}

/// Suppose that a journal was handed out in parts that join, and that a worker's receipts of each part match the part.
/// Then all its receipts match the journal. They are the receipts of the first part, then the receipts of the second
/// part, and so on.
pub fn receipts_of_parts_match()
    ensures { (entries : List Entry) (parts : List Entries) (worker first : ℕ) (lists : List (List Receipt)) →
        AreParts first entries parts → MatchParts parts worker lists →
        MatchesFrom first entries worker (all_receipts lists) }
{}

/// Receipts that may close with a journal, as many as it has entries from a place on, share these out.
pub fn as_many_receipts_share_out()
    ensures { (entries : List Entry) (first : ℕ) (sessions : List SessionState) →
        MayClose entries first sessions → length entries ≡ first + count_of sessions → AreSharedOut (drop first entries) sessions }
{}

/// The law of [`close`](crate::close) for a service that has kept all parts of a journal. It has also kept all receipts
/// of each session, whether the session was taken over or not. Suppose that the receipts match part by part, that no
/// two sessions are of one worker, and that there are as many receipts as entries. Then each entry is in exactly one
/// receipt. The receipts of each session are all its entries, in their order. The last part may have the entries that
/// the store still holds.
pub fn kept_parts_share_out()
    ensures { (entries : List Entry) (first : ℕ) (sessions : List SessionState) →
        AreKeptInParts entries first sessions → length entries ≡ first + count_of sessions → AreSharedOut (drop first entries) sessions }
{}

/// If a store was shared whole, no entry made since is handed out while it is shared. So the place from which on
/// `close` has looked is the place at which the store was shared.
pub fn a_whole_journal_is_held()
    ensures { (start : SharedStart) (s : StoreState) → StaysWhole start s → held_from start s ≡ length start.entries }
{}

/// The law of the receipts of a store that was shared whole. Suppose that they may close, and that as many entries were
/// made since. Then each of these entries is in exactly one receipt, and the receipts of each session are all its
/// entries, in their order. A session of such a store can't hand out a receipt. So
/// [`Locked::close`](crate::Locked::close) and [`close_with`](crate::close_with) have all of this whenever the keeper
/// made no entry, whatever the sessions' holders did.
pub fn a_whole_round_is_shared_out()
    ensures { (start : SharedStart) (s : StoreState) (sessions : List SessionState) → StaysWhole start s →
        MayCloseWith start s sessions → length s.entries ≡ length start.entries + count_of sessions → AreSharedOut (since start s) sessions }
{}

/// Sessions that took no other over count for as many as they are.
pub fn each_stands_for_itself()
    ensures { (sessions : List SessionState) → All (λ s. s.parts ≡ 1) sessions → parts_of sessions ≡ length sessions }
{}

/// Suppose that a subject has left a store, by its own session or because the keeper ended it. Then it is never a
/// subject of the store again, whatever entries follow. So each later call of its session reports that there is no such
/// worker.
pub fn who_left_stays_away()
    ensures { (old new later : StoreState) (worker : ℕ) → IsFaithful old → IsSubject (graph_of_store old) worker →
        HasLeft worker old new → GrowsInto new later → ¬ IsSubject (graph_of_store later) worker }
{}

/// The knowledge of a session bounds the reasons for which its calls are refused. Its worker was a subject when the
/// store was shared, or was made by a spawn whose entry the session has seen. Suppose that no retire is among the
/// entries that the session made, and that the keeper made no entry of its worker. Then the worker is a subject of each
/// store whose entries the session sees. A session that has looked sees the entries that it has seen. So none of its
/// calls reports that there is no such worker. A round whose keeper may end nobody needs no premise on the keeper.
pub fn a_session_without_a_retire_is_a_subject()
    ensures from_the_start { (start : SharedStart) (all : List Signed) (s : SessionState) →
        Contains (subjects_at start) s.worker → HasNotLeft start all s → ¬ IsNobodyAtSeen start all s.worker }
    ensures spawned { (start : SharedStart) (all : List Signed) (s : SessionState) →
        IsSpawnedIn start all s.worker → HasNotLeft start all s → ¬ IsNobodyAtSeen start all s.worker }
{}

/// If a retire is among the entries that a session made, its worker is a subject of no store whose entries the session
/// sees.
pub fn a_session_with_a_retire_has_no_subject()
    ensures { (start : SharedStart) (all : List Signed) (s : SessionState) →
        IsOnItsOwn start all s → retired_behind false s.made ≡ true → ¬ IsSubjectAtSeen start all s.worker }
{}

/// A session that has looked sees the entries that it has seen, which are all up to its look.
pub fn who_looked_sees()
    ensures { (old new : SessionState) → HasLooked old new → Sees new.seen (knowledge new) }
{}

/// A session whose call made an entry has then seen all that it had seen before.
pub fn what_a_session_has_seen_grows()
    ensures { (start : SharedStart) (old new : SessionState) (deed : Deed) (reply : Reply) → IsAnswered start old new deed reply → BeginsWith new.seen old.seen }
{}

/// A session sees the entries of a store, and the keeper made no entry of the session's worker. Then the entries of its
/// worker since the start are exactly the entries that its own calls made. All entries begin with the entries that it
/// has seen.
pub fn a_session_knows_its_own_entries()
    ensures { (start : SharedStart) (all : List Signed) (x : SessionState) (s : StoreState) →
        HasGrownBy start s all → IsOnItsOwn start all x → KnowsItsOwn (since start s) x }
{}

/// An answer without an entry is an answer on the closed journal. A store with exactly the entries that a session, or
/// the keeper, has seen has one graph. When the round is closed, the entries since the start begin with these entries.
/// Then that graph is the graph after so many entries of the journal.
pub fn an_answer_is_of_the_closed_journal()
    ensures seen { (start : SharedStart) (seen : List Signed) (s : StoreState) → HasExactly start seen s → graph_of_store s ≡ graph_seen start seen }
    ensures closed { (start : SharedStart) (seen : List Signed) (s closed : StoreState) →
        HasExactly start seen s → ClosesOver start seen closed → graph_of_store s ≡ graph_up_to start seen closed }
{}

/// The label that a session received is the label in the closed journal's graph after a number of entries. That number
/// is how many entries since the store was shared the session had seen then.
pub fn a_label_is_of_the_closed_journal()
    ensures { (start : SharedStart) (seen : List Signed) (s : StoreState) → ClosesOver start seen s →
        (worker target : ℕ) (label : Option RightSet) → IsHeldAtSeen start seen worker target label → IsHeldOver (graph_up_to start seen s) worker target label }
{}

/// A subject that the keeper ends stops being a subject, and nobody else does. The graph after the entries that the
/// keeper has then seen is the graph before, without the named worker and the rights that it held.
pub fn an_end_is_of_the_named_worker()
    ensures { (start : SharedStart) (old new : KeeperState) (worker count : ℕ) → HasEnded start worker old new count → EndsOnly start new.seen worker }
{}

/// The keeper's withdrawal ends nobody. The same vertices are subjects before and after. The graph after the entries
/// that the keeper has then seen is the graph before, without the withdrawn rights. The returned names are the names of
/// exactly the vertices that still hold some of the rights.
pub fn a_withdrawal_ends_nobody()
    ensures { (start : SharedStart) (old new : KeeperState) (target : ℕ) (rights : RightSet) (keep names : List ℕ) →
        HasWithdrawn start target rights keep old new names → WithdrawsOnly start new.seen target rights keep names }
{}

/// Suppose that a withdrawal of the keeper returned nobody, and that its target was made. Then nobody who is reached
/// holds one of the rights over the target, whatever entries follow. So it is also after the last entry of the journal
/// of the closed store.
pub fn withdrawn_rights_stay_away()
    ensures { (start : SharedStart) (old new : KeeperState) (target : ℕ) (rights : RightSet) (keep : List ℕ) →
        HasWithdrawn start target rights keep old new [] → target < (graph_seen start new.seen).made → StaysAway start new.seen rights target }
{
    // This law says so of one graph.
    withdrawn_rights_never_come_back();
}

/// A user whom the keeper parks stops being a subject, and nobody else does. The graph after the entries that the
/// keeper has then seen is the graph before, but for the parking. In it the account holds what the user held, and the
/// user has left. If the host's grant was denied, both graphs are the same.
pub fn a_parking_ends_only_the_user()
    ensures done { (start : SharedStart) (old new : KeeperState) (p : Parking) (edges : ℕ) →
        HasParked start p old new (parked.Done edges) → ParksOnly start new.seen p }
    ensures denied { (start : SharedStart) (old new : KeeperState) (p : Parking) (denial : Denial) →
        HasParked start p old new (parked.Denied denial) → ChangesNothing start new.seen }
{}

/// The keeper's unparking ends nobody. The same vertices are subjects before and after. The graph after the entries
/// that the keeper has then seen is the graph before, but for the unparking. In it the user holds what the account
/// holds, and the host holds nothing over the account. If the host's grant was denied, both graphs are the same.
pub fn an_unparking_ends_nobody()
    ensures done { (start : SharedStart) (old new : KeeperState) (p : Parking) (edges : ℕ) →
        HasUnparked start p old new (parked.Done edges) → UnparksOnly start new.seen p }
    ensures denied { (start : SharedStart) (old new : KeeperState) (p : Parking) (denial : Denial) →
        HasUnparked start p old new (parked.Denied denial) → ChangesNothing start new.seen }
{}

/// A user who was parked is never a subject of the store again, whatever entries follow. So each later call of its
/// session reports that there is no such worker.
pub fn who_was_parked_stays_away()
    ensures { (old new later : StoreState) (p : Parking) (edges : ℕ) → IsFaithful old → IsParked p old new edges →
        GrowsInto new later → ¬ IsSubject (graph_of_store later) p.user }
{}

/// A collection of a session returns the number of vertices of a store with exactly these entries. After a full
/// collection it is the number of vertices that can be reached in the graph after them.
pub fn what_is_left_is_counted()
    ensures { (start : SharedStart) (seen : List Signed) (kind : Kind) (number : ℕ) → LeavesAtSeen start seen kind number → AtSeen start seen (IsCountLeft kind number) }
{}
