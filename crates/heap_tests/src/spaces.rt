//! The worked rows of words, nurseries, flat numbers and adoption.
use std::alloc::Global;
use tg_nursery::allocate;
use tg_rights::{Right, Rights};
use tg_space::{Adoption, Kind, Limits, RoomFault, Space, Spaces};
use tg_word::{Place, Slot, pack, unpack};

// The spaces of two nurseries, with two blocks of two: 64 cells were allocated in nursery 0, and then one in nursery 1.
fn filled(alloc: Global) -> Option<Spaces> {
    let limits = Limits::new(2, 2).ok()?;
    let mut spaces = Spaces::new(alloc, 2, limits).ok()?;
    is_filled(&mut spaces).then_some(spaces)
}

// Allocates the cells, and shows whether each is the next of its nursery's first block.
fn is_filled(spaces: &mut Spaces) -> bool {
    for cell in 0..64 {
        if !is_next(spaces, 0, cell) {
            return false;
        }
    }
    is_next(spaces, 1, 0)
}

// Whether the next cell of the nursery is this one of its first block.
fn is_next(spaces: &mut Spaces, nursery: u64, cell: u64) -> bool {
    let wanted = Place {
        space: nursery.wrapping_add(2),
        block: 0,
        cell,
    };
    next_cell(spaces, nursery) == Some(Ok(wanted))
}

// The next cell of the nursery, where there is such a nursery.
fn next_cell(spaces: &mut Spaces, nursery: u64) -> Option<Result<Place, RoomFault>> {
    if nursery > 1 || spaces.nurseries() != 2 {
        return None;
    }
    Some(allocate(spaces, nursery))
}

// Whether the word reads as this slot, and what is read packs into the word.
fn reads_as(word: u64, slot: Slot) -> bool {
    let Some(read) = unpack(word) else {
        return false;
    };
    let packed = pack(read);
    read == slot && packed == word
}

#[test]
fn word_vectors(rt: HostRuntime) {
    let read_and_grant = Rights::of(Right::R).union(Rights::of(Right::G));
    let all = Rights::from_bits(255);
    let near = Slot::To {
        rights: read_and_grant,
        place: Place {
            space: 2,
            block: 3,
            cell: 5,
        },
    };
    let last = Slot::To {
        rights: all,
        place: Place {
            space: 65,
            block: 1_048_575,
            cell: 63,
        },
    };
    let first = Slot::To {
        rights: Rights::empty(),
        place: Place {
            space: 0,
            block: 0,
            cell: 0,
        },
    };
    let read = [
        reads_as(0, Slot::Empty),
        reads_as(0x0000_0208_0000_c509, near),
        reads_as(0x0000_0307_ffff_ffff, last),
        reads_as(0x0000_0200_0000_0000, first),
    ];
    assert!(rt; read == [true; 4]);
}

#[test]
fn words_off_the_layout(rt: HostRuntime) {
    // A word that isn't present, a word of space 66, and a word with a bit above the present bit. Then three words of a
    // layout with four rights.
    let read = [
        unpack(0x0000_0000_0000_0001),
        unpack(0x0000_0308_0000_0000),
        unpack(0x0000_0600_0000_0000),
        unpack(0x0000_0020_8000_0c59),
        unpack(0x0000_0030_7fff_ffff),
        unpack(0x0000_0020_0000_0000),
    ];
    assert!(rt; read == [None; 6]);
}

// What is answered for another cell of nursery 0 once it is full, and how many blocks there are then.
fn next_of_full(alloc: Global) -> Option<(Option<Result<Place, RoomFault>>, u64)> {
    let mut spaces = filled(alloc)?;
    let next = next_cell(&mut spaces, 0);
    Some((next, spaces.blocks()))
}

#[test]
fn nurseries_fill_and_refuse(rt: HostRuntime) {
    let wanted = (Some(Err(RoomFault::HeapFull)), 2);
    assert!(rt; next_of_full(rt.alloc()) == Some(wanted));
}

// Whether the place has the flat number 64, and that the place.
fn is_number_64(spaces: &Spaces, place: Place) -> (bool, bool) {
    (
        spaces.holds(place) && spaces.flat(place) == 64,
        64 < spaces.cells() && spaces.unflat(64) == place,
    )
}

fn is_number_64_of_filled(alloc: Global, place: Place) -> Option<(bool, bool)> {
    let spaces = filled(alloc)?;
    Some(is_number_64(&spaces, place))
}

// The first cell of nursery 1, which is after the 64 cells of nursery 0.
#[test]
fn flat_numbers(rt: HostRuntime) {
    let place = Place {
        space: 3,
        block: 0,
        cell: 0,
    };
    assert!(rt; is_number_64_of_filled(rt.alloc(), place) == Some((true, true)));
}

// A space with one block.
fn one_block(alloc: Global) -> Option<Space> {
    let mut space = Space::new(alloc);
    space.add_block(alloc).ok()?;
    Some(space)
}

// Adopts a block of Old, as a full collection does. Whether it is adopted.
fn adopts_one(alloc: Global, spaces: &mut Spaces) -> bool {
    let Some(old) = one_block(alloc) else {
        return false;
    };
    let aged = Space::new(alloc);
    let left = Vec::new(alloc);
    spaces
        .adopt(Kind::Full, Adoption { aged, old, left })
        .is_ok()
}

// Whether only Old has blocks, and it has one.
fn has_one_old_block(spaces: &Spaces) -> bool {
    spaces.nurseries() == 2
        && spaces.blocks() == 1
        && spaces.len(0) == 1
        && spaces.used(2) == 0
        && spaces.used(3) == 0
}

// Whether that is so of filled spaces that adopt one.
fn has_one_once_adopted(alloc: Global) -> Option<bool> {
    let mut spaces = filled(alloc)?;
    Some(adopts_one(alloc, &mut spaces) && has_one_old_block(&spaces))
}

#[test]
fn full_adoption(rt: HostRuntime) {
    assert!(rt; has_one_once_adopted(rt.alloc()) == Some(true));
}
