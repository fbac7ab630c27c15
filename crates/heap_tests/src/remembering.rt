//! The remembered set.
use std::alloc::Global;
use tg_remember::Remembered;
use tg_word::Place;

// Notes the places in turn. Whether there was memory for them.
fn note_each(remembered: &mut Remembered, places: &[Place]) -> bool {
    for place in places {
        if remembered.reserve().is_err() {
            return false;
        }
        remembered.note(*place);
    }
    true
}

// The places that are remembered, in order.
fn are_remembered(remembered: &Remembered, places: &[Place]) -> bool {
    for (at, place) in places.iter().enumerate() {
        if !remembered.contains(*place) || remembered.len() <= at || remembered.nth(at) != *place {
            return false;
        }
    }
    remembered.len() == places.len()
}

// Whether the places that are noted in a set are remembered as these.
fn are_noted(alloc: Global, noted: &[Place], wanted: &[Place]) -> bool {
    let mut remembered = Remembered::new(alloc);
    note_each(&mut remembered, noted) && are_remembered(&remembered, wanted)
}

#[test]
fn each_place_once_in_the_order_of_first_notes(rt: HostRuntime) {
    let first = Place {
        space: 0,
        block: 1,
        cell: 2,
    };
    let second = Place {
        space: 0,
        block: 0,
        cell: 63,
    };
    assert!(rt; are_noted(rt.alloc(), &[first, second, first], &[first, second]));
}
