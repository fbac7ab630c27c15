//! The laws of the race, each the contract of a function that does nothing.
ghost use Rattle.std.specs.Prelude.{◌≡◌, ◌≢◌, ◌↔◌, ◌+◌, ◌*◌, ◌<◌, ◌≤◌, ℕ, List, [], ◌∷◌, IsTrue, length, AllPairs};
ghost use Rattle.tg_race.specs.declared.record.Counts.{Counts};
ghost use Rattle.tg_race.specs.declared.record.Record.{Record};
ghost use Rattle.tg_race.specs.declared.event.Event.{Event};
ghost use Rattle.tg_word.specs.declared.TheConstants.{CELLS};
ghost use Rattle.tg_word.specs.declared.Place.{Place};
ghost use Rattle.tg_word.specs.Word.{IsPlace};
ghost use Rattle.tg_race.specs.Words.{AGED, OLD, has_pair};
ghost use Rattle.tg_race.specs.Board.{IsClosedTable};
ghost use Rattle.tg_race.specs.Weights.{weigh};
ghost use Rattle.tg_race.specs.Race.{Race, Rule, EachRecord, IsDrawn, AreConsecutive, AreDrawnOnce, AreWinsOf, AreWonOnce, all_of, both};
ghost use Rattle.tg_race.specs.Course.{Net, Course, KeepsRule, HasEarnedWins, IsCompleteRecord, can_happen, happens, course_after, starting};
ghost use Rattle.tg_race.specs.Laws.{FillsAllButSome, EachStandsOnce, GivesPlacesOnce, HasJustTheReached, HasJustTheWins, HasWinsIn, IsCompleteTable, KeepsCellPlaces, StandsForAll, times_drawn, won_into};

/// After every list of events of any number of helpers the rule holds.
pub fn the_rule_holds_after_all_events()
    ensures event { (c : Course) (helper : ℕ) (e : Event) → KeepsRule c → IsTrue (can_happen c helper e) → KeepsRule (happens c helper e) }
    ensures events { (net : Net) (events : List (ℕ × Event)) → KeepsRule (course_after (starting net) events) }
{}

/// No event changes a place that a cell has.
#[tactic(auto, using(crate::proofs::Courses::places_stay, crate::proofs::Courses::events_stay))]
pub fn places_never_change()
    ensures event { (c : Course) (helper : ℕ) (e : Event) → IsTrue (can_happen c helper e) → KeepsCellPlaces c.race (happens c helper e).race }
    ensures events { (c : Course) (events : List (ℕ × Event)) → KeepsCellPlaces c.race (course_after c events).race }
{}

/// If one record is that of all helpers and is complete, the cells with a place are the closure of the roots.
#[tactic(auto, using(crate::proofs::Closure::closure))]
pub fn a_complete_race_is_the_closure()
    ensures { (c : Course) (id : ℕ) (v : Record) → KeepsRule c → StandsForAll c.net.helpers c.race id v → IsCompleteRecord c.net v → HasJustTheReached c.net c.race.words }
{}

/// The table has what a record won. The cell has the place that was won, which is in range.
pub fn wins_stand_in_the_table()
    ensures words { (k : Counts) (r : Race) → Rule k r → EachRecord (HasWinsIn r.words) r.records }
    ensures places { (k : Counts) (r : Race) → Rule k r → EachRecord (λ v. (cell : ℕ) (p : Place) → IsTrue (has_pair cell p v.won) → IsPlace p) r.records }
{}

/// The places in a closed table are those of the pairs that its one record has won, and no other.
pub fn a_closed_table_has_the_wins()
    ensures { (k : Counts) (words : List ℕ) (done : Record) → IsClosedTable k words done → HasJustTheWins done words }
{}

/// No cell of a closed table was won twice, and no place was given twice. An equal place is that of an equal cell.
pub fn wins_of_a_closed_table_differ()
    ensures cells { (k : Counts) (words : List ℕ) (done : Record) → IsClosedTable k words done → AllPairs (λ q r. q.0 ≢ r.0) done.won }
    ensures places { (k : Counts) (words : List ℕ) (done : Record) → IsClosedTable k words done → AllPairs (λ q r. q.1 ≢ r.1) done.won }
    ensures one_cell { (k : Counts) (words : List ℕ) (done : Record) → IsClosedTable k words done → GivesPlacesOnce done.won }
{}

/// The numbers of chunks, and those of blocks, that were claimed at a closed table differ and have no gap.
pub fn numbers_of_a_closed_table_have_no_gap()
    ensures chunks { (k : Counts) (words : List ℕ) (done : Record) → IsClosedTable k words done → AreConsecutive 0 done.chunks }
    ensures aged_blocks { (k : Counts) (words : List ℕ) (done : Record) → IsClosedTable k words done → AreConsecutive 0 done.aged_blocks }
    ensures old_blocks { (k : Counts) (words : List ℕ) (done : Record) → IsClosedTable k words done → AreConsecutive k.kept done.old_blocks }
{}

/// Where the record of a closed table is complete and its wins were earned, the cells with a place are the closure of
/// the roots.
pub fn a_closed_table_is_the_closure()
    ensures { (net : Net) (words : List ℕ) (done : Record) → IsCompleteTable net words done → HasEarnedWins net done → HasJustTheReached net words }
{}

/// If one record is that of all helpers, all others are spent. The race with that record alone is under the rule.
pub fn one_record_stands_alone()
    ensures { (k : Counts) (r : Race) (id : ℕ) (v : Record) → Rule k r → StandsForAll k.helpers r id v → Rule k (record r { records = v ∷ [] }) }
{}

/// Wins stay earned when two records become one.
#[tactic(auto, using(crate::proofs::Courses::earned_both))]
pub fn wins_stay_earned_under_join()
    ensures { (net : Net) (v w : Record) → HasEarnedWins net v → HasEarnedWins net w → HasEarnedWins net (both v w) }
{}

/// Blocks are few. Each is full of won cells, but for one block of each helper and space.
///
/// The bound is on the number of the next block.
pub fn blocks_are_few()
    ensures aged_blocks { (k : Counts) (r : Race) → Rule k r → CELLS * r.next_aged ≤ CELLS * k.helpers + weigh (λ v. length v.won) r.records }
    ensures old_blocks { (k : Counts) (r : Race) → Rule k r → CELLS * r.next_old ≤ CELLS * (k.kept + k.helpers) + weigh (λ v. length v.won) r.records }
    ensures wins { (k : Counts) (r : Race) → Rule k r → weigh (λ v. length v.won) r.records ≤ k.cells }
{}

/// The blocks that were claimed in a closed table are few. All blocks of a space but one for each helper are full of
/// cells that were won into it.
pub fn claimed_blocks_are_few()
    ensures aged_blocks { (k : Counts) (words : List ℕ) (done : Record) → IsClosedTable k words done → FillsAllButSome k.helpers done.won done.aged_blocks }
    ensures old_blocks { (k : Counts) (words : List ℕ) (done : Record) → IsClosedTable k words done → FillsAllButSome (k.kept + k.helpers) done.won done.old_blocks }
    ensures aged_filled { (k : Counts) (words : List ℕ) (done : Record) → IsClosedTable k words done → CELLS * length done.aged_blocks ≤ CELLS * k.helpers + won_into AGED done.won }
    ensures old_filled { (k : Counts) (words : List ℕ) (done : Record) → IsClosedTable k words done → CELLS * length done.old_blocks ≤ CELLS * k.helpers + won_into OLD done.won }
{}

/// The meaning of 'drawn' for one number. If the number is below the counter and not below the start, the records have
/// it exactly once. Otherwise no record has it.
pub fn numbers_are_drawn_once()
    ensures drawn { (start counter : ℕ) (of : Record → List ℕ) (records : List Record) → IsDrawn start counter of records → EachStandsOnce start counter of records }
    ensures below { (start counter : ℕ) (of : Record → List ℕ) (records : List Record) → IsDrawn start counter of records → (n : ℕ) → n < start → times_drawn of records n ≡ 0 }
    ensures above { (start counter : ℕ) (of : Record → List ℕ) (records : List Record) → IsDrawn start counter of records → (n : ℕ) → counter ≤ n → times_drawn of records n ≡ 0 }
{}

/// The meaning of the rule, which is stated by weights. The numbers that the records have drawn differ, and are exactly
/// those from the start up to the counter. The pairs that the records have won are those of the cells that have a
/// place, and no two pairs are of one cell.
pub fn weights_say_each_once()
    ensures drawn { (start counter : ℕ) (of : Record → List ℕ) (records : List Record) → IsDrawn start counter of records ↔ AreDrawnOnce start counter (all_of of records) }
    ensures won { (r : Race) → AreWonOnce r ↔ AreWinsOf r.words (all_of (λ v. v.won) r.records) }
{}
