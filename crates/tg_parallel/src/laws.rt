//! The laws of joining, each the contract of a function that does nothing.
ghost use Rattle.std.specs.Prelude.{List, ◌≤◌};
ghost use Rattle.tg_space.specs.Collection.{Collected, IsCollection, used_cells};
ghost use Rattle.tg_space.specs.SpaceList.{SpaceList};
ghost use Rattle.tg_space.specs.SpaceTable.{SpaceTable};
ghost use Rattle.tg_space.specs.declared.kind.Kind.{Kind};
ghost use Rattle.tg_space.specs.declared.root.Root.{Root};
ghost use Rattle.tg_race.specs.declared.record.Record.{Record};
ghost use Rattle.tg_race.specs.Race.{both};
ghost use Rattle.tg_parallel.specs.Laws.{AreFewFor, AreSoundSpaces, ClosedRace, IsFinished, LackIsOfUsedCells, LacksRoomIn, PartsBecomeOne, all_copies_in};
ghost use Rattle.tg_parallel.specs.Parts.{AreEarned, IsPastLimit};
ghost use Rattle.tg_parallel.specs.Whole.{IsHandedOver};

/// Where two records become one, its wins are earned, and what both hand over is what it asks for.
pub fn parts_become_one()
    ensures earned { (kind : Kind) (h : SpaceList) (roots : List Root) (v w : Record) → AreEarned kind h roots v → AreEarned kind h roots w → AreEarned kind h roots (both v w) }
    ensures part { (kind : Kind) (t : SpaceTable) (roots : List Root) (v w : Record) → PartsBecomeOne kind t roots v w }
{}

/// Suppose that the record of all helpers has claimed a block past the limit. Then a collection by so many helpers may
/// lack room for the cells that are reached.
pub fn a_block_past_the_limit_tells_of_want_of_room()
    ensures { (kind : Kind) (t : SpaceTable) (roots : List Root) → (race : ClosedRace kind t roots) →
        IsPastLimit t race.done → LacksRoomIn kind t roots race.counts.helpers }
{}

/// If one record is that of all helpers, the blocks that they handed over are within the limit. They are as many as the
/// copies need, and at most one more for each helper.
pub fn helpers_blocks_are_few()
    ensures { (kind : Kind) (t : SpaceTable) (roots : List Root) (made : Collected) → (handed : IsHandedOver kind t roots made) →
        AreFewFor kind t handed.counts.helpers made }
{}

/// If one record is that of all helpers and its wins were earned, no more cells are copied than are in use.
pub fn helpers_copy_cells_in_use()
    ensures { (kind : Kind) (t : SpaceTable) (roots : List Root) → AreSoundSpaces t roots →
        (race : ClosedRace kind t roots) → all_copies_in race.words ≤ used_cells kind t.spaces }
{}

/// Suppose that one record is that of all helpers, and has claimed past the last chunk. Then the helpers handed over a
/// collection, with the words of the closed table. The notes are those of the remembered roots, and of the new blocks
/// of Old.
pub fn what_helpers_made_is_a_collection()
    ensures { (kind : Kind) (t : SpaceTable) (roots : List Root) (made : Collected) →
        IsFinished kind t roots made → IsCollection kind t.spaces roots made }
{}

/// A reached cell is a cell in use. So if a collection may lack room for what is reached, it may lack room for the
/// cells in use.
pub fn lack_of_room_is_of_cells_in_use()
    ensures { (kind : Kind) (t : SpaceTable) (roots : List Root) → AreSoundSpaces t roots → LackIsOfUsedCells kind t roots }
{}
