//! Which cells a nursery collection copies straight to Old.
ghost use Rattle.std.specs.Prelude.{◌≡◌, length};

use super::sound::are_sound;
use super::{Content, heap_of, place_at};
use std::alloc::Global;
use tg_evac::collect_one;
use tg_space::{Forwarding, Kind, Root, Spaces, Spare};
use tg_word::place_of;

// The space of the copy of each of the four objects of the chain.
fn spaces_of(forward: &Forwarding, cells: u64) -> Option<[u64; 4]>
    requires { cells ≡ length forward.now.words }
{
    if cells < 132 {
        return None;
    }
    let space = |cell: u64| -> u64 { place_of(forward.word(cell)).space };
    Some([space(128), space(129), space(130), space(131)])
}

// The spaces of the objects after a nursery collection. Its roots are the row of the first object, and the first cell
// of Old, which is remembered.
fn seen_of_chain(alloc: Global) -> Option<[u64; 4]> {
    let spaces = heap_of(alloc, Content::Chain, 4)?;
    let seen = seen_in(alloc, &spaces);
    drop(spaces);
    seen
}

// The same of such a heap.
fn seen_in(alloc: Global, spaces: &Spaces) -> Option<[u64; 4]> {
    let roots = [Root::Row(place_at(128)), Root::Remembered(place_at(0))];
    if !are_sound(spaces, &roots) {
        return None;
    }
    let copied = collect_one(alloc, spaces, &roots, Kind::Nursery, Spare::none(alloc)).ok()?;
    let seen = spaces_of(&copied.forward, spaces.cells());
    drop(copied);
    seen
}

// The roots are claimed in their order before a copy is scanned. So the first object goes to Aged, because the row
// names it. The second and the third are first met from the remembered cell, and go straight to Old. The fourth is
// first met from a copy in Old, and does too. A walk that goes root by root would meet all four along the row.
#[test]
fn what_an_old_cell_names_first_goes_straight_to_old(rt: HostRuntime) {
    assert!(rt; seen_of_chain(rt.alloc()) == Some([1, 0, 0, 0]));
}
