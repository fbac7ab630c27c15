//! The race of three cells event by event, and one helper at a table.
use std::alloc::{AllocError, Global};
use tg_race::{Event, Opened, RaceTable, Record, Shape, World};
use tg_rights::Rights;
use tg_word::{Place, Slot, unpack};

const FIRST: Place = Place {
    space: 1,
    block: 0,
    cell: 0,
};

const SECOND: Place = Place {
    space: 1,
    block: 0,
    cell: 1,
};

// A list for each number, which has that alone.
fn lists(alloc: Global, numbers: &[u64]) -> Result<Vec<Vec<u64>>, AllocError> {
    let mut lists = Vec::new(alloc);
    for number in numbers {
        let mut list = Vec::new(alloc);
        list.push(*number)?;
        lists.push(list)?;
    }
    Ok(lists)
}

// Two roots, to the cells 0 and 1, which lead to one another. Nothing leads to the cell 2.
fn three_cells(alloc: Global) -> Result<World, AllocError> {
    let roots = lists(alloc, &[0, 1])?;
    let mut targets = lists(alloc, &[1, 0])?;
    targets.push(Vec::new(alloc))?;
    World::start(
        alloc,
        Shape {
            roots,
            targets,
            kept: 0,
            space_blocks: 4,
            helpers: 2,
        },
    )
}

// Whether the word is a reference with no rights to the place.
fn leads_to(word: u64, place: Place) -> bool {
    let rights = Rights::empty();
    unpack(word) == Some(Slot::To { rights, place })
}

// What the helper 0 does before it meets the other, and whether it could happen.
const EVENTS_OF_0: [(Event, bool); 7] = [
    (Event::Part, true),
    (Event::Claim, true),
    (Event::Block { aged: true }, true),
    (
        Event::Win {
            cell: 0,
            place: FIRST,
        },
        true,
    ),
    (
        Event::Win {
            cell: 1,
            place: FIRST,
        },
        false,
    ),
    (
        Event::Win {
            cell: 2,
            place: SECOND,
        },
        false,
    ),
    (
        Event::Win {
            cell: 1,
            place: SECOND,
        },
        true,
    ),
];

// What the helper 1 does.
const EVENTS_OF_1: [(Event, bool); 3] = [
    (Event::Claim, true),
    (
        Event::Win {
            cell: 0,
            place: FIRST,
        },
        false,
    ),
    (Event::Look { cell: 1 }, true),
];

// Whether the event happens where it could, and doesn't where it couldn't.
fn is_as_it_could(world: &mut World, helper: usize, event: Event, could: bool) -> bool {
    match world.event(helper, event) {
        Ok(happened) => happened == could,
        Err(_) => false,
    }
}

// Whether each event happens where it could, and no other does.
fn happen(world: &mut World, helper: usize, events: &[(Event, bool)]) -> bool {
    for (event, could) in events {
        if !is_as_it_could(world, helper, *event, *could) {
            return false;
        }
    }
    true
}

// Whether the events of each helper do.
fn happen_of_0(world: &mut World) -> bool {
    happen(world, 0, &EVENTS_OF_0)
}

fn happen_of_1(world: &mut World) -> bool {
    happen(world, 1, &EVENTS_OF_1)
}

// The helper 1 has claimed chunk 1, which is past the last, and has seen where the cell 1 went.
fn has_looked(record: Option<&Record>) -> bool {
    match record {
        Some(v) => { v.chunks.len() == 1 && v.chunks.contains(&1) && v.seen.contains(&(1, SECOND)) }
        None => false,
    }
}

// One record represents both helpers and is complete: it has the chunk past the last, and has won both targets.
fn has_all(record: Option<&Record>) -> bool {
    match record {
        Some(v) => v.share == 2 && v.chunks.contains(&1) && has_won_both(v),
        None => false,
    }
}

fn has_won_both(record: &Record) -> bool {
    let won = &record.won;
    won.len() == 2 && won.contains(&(0, FIRST)) && won.contains(&(1, SECOND))
}

// Whether each event of both helpers, up to where they meet, happens where it could. The place FIRST is used, and
// nothing that was claimed or won leads to the cell 2.
fn race_to_the_meeting(world: &mut World) -> [bool; 5] {
    let by_0 = happen_of_0(world);
    let by_1 = happen_of_1(world);
    let has_looked = has_looked(world.record_of(1));
    let have_met = is_as_it_could(world, 0, Event::Meet { other: 1 }, true);
    let is_spent = is_as_it_could(world, 1, Event::Claim, false);
    [by_0, by_1, has_looked, have_met, is_spent]
}

// The cells 0 and 1 have the places FIRST and SECOND, and the cell 2 has none.
fn are_forwarded(words: &[u64]) -> bool {
    words.len() == 3 && words[2] == 0 && leads_to(words[0], FIRST) && leads_to(words[1], SECOND)
}

// Whether each event does, whether one record is left that has all, and whether both cells have their places.
fn race(world: &mut World) -> ([bool; 5], bool, bool) {
    let happened = race_to_the_meeting(world);
    let left = has_all(world.record_of(0)) && world.record_of(2).is_none();
    (happened, left, are_forwarded(world.words()))
}

fn race_in(alloc: Global) -> Option<([bool; 5], bool, bool)> {
    let mut world = three_cells(alloc).ok()?;
    Some(race(&mut world))
}

#[test]
fn race_of_three_cells(rt: HostRuntime) {
    assert!(rt; race_in(rt.alloc()) == Some(([true; 5], true, true)));
}

// What one helper gets at a table. It gets its chunk of roots, whether a cell has no place yet, a block of Old, and an
// aged block. At the end it gets how many words it closes with.
fn handed_at_the_table(alloc: Global) -> Option<(u64, bool, u64, u64, usize)> {
    // three blocks of Old stay, and five cells after them may be moved
    let Opened {
        table,
        mut helper,
        ..
    } = RaceTable::open(alloc, 197, 9, 3, 1, Vec::new(alloc)).ok()?;
    let chunk = helper.claim_roots(&table);
    let has_no_place = helper.look(&table, 196).is_none();
    let old = helper.claim_block(&table, false);
    let aged = helper.claim_block(&table, true);
    let words = table.close(helper).len();
    Some((chunk, has_no_place, old, aged, words))
}

#[test]
fn one_helper_at_the_table(rt: HostRuntime) {
    assert!(rt; handed_at_the_table(rt.alloc()) == Some((0, true, 3, 0, 5)));
}
