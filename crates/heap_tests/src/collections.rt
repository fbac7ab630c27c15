//! Collections that succeed, by one thread and by several helpers, and heaps to collect.
ghost use Rattle.std.specs.Prelude.{◌≡◌, ◌<◌, ◌≤◌, length};
ghost use Rattle.tg_space.specs.Soundness.{AreSound};
ghost use Rattle.tg_space.specs.SpaceList.{cells_of};
ghost use Rattle.tg_word.specs.Word.{IsPlace};

mod helpers;
mod sound;
mod straight;

use sound::are_sound;
use std::alloc::{AllocError, Global};
use std::sync::Wait;
use std::thread::Threads;
use tg_block::{CHUNK_TAG, OBJECT_TAG, WORDS};
use tg_evac::collect_one;
use tg_parallel::{Gate, HelpersFault, NoGate, collect_many, collect_seated};
use tg_rights::{Right, Rights};
use tg_space::{Forwarding, Kind, Limits, RoomFault, Root, Spaces, Spare};
use tg_word::{Place, Slot, pack};

// The cells of a heap with one block of Old, one of Aged and one of a nursery.
const CELLS: u64 = 192;

// What is in the cells of a heap.
#[derive(Clone, Copy)]
enum Content {
    // objects without references
    Alone,
    // groups of four cells. A group has an object that links to a chunk, an object, a chunk that links to the next, and
    // the next chunk. All but the last refer to objects, several to each
    Linked,
    // of a nursery's objects the first refers to the second, and so on to the fourth. The first object in Old refers to
    // the second and the third
    Chain,
}

// The place of the cell with a number.
fn place_at(number: u64) -> Place
    ensures { IsPlace result }
{
    Place {
        space: number / 64 % 3,
        block: 0,
        cell: number % 64,
    }
}

// The word for the cell with a number, with these rights.
fn word_to(number: u64, rights: Rights) -> u64 {
    pack(Slot::To {
        rights,
        place: place_at(number),
    })
}

// The references that the cell with a number has in a chain, and 0 where it has none.
fn words_behind(number: u64) -> [u64; 2] {
    let write = Rights::of(Right::W);
    match number {
        0 => [word_to(129, write), word_to(130, write)],
        128..=130 => [word_to(number + 1, write), 0],
        _ => [0, 0],
    }
}

// The words of the cell with a number.
fn words_at(content: Content, number: u64) -> [u64; WORDS]
    requires { number < 192 }
{
    let reference = word_to(number / 4 * 20 % CELLS, Rights::of(Right::W));
    let none = Rights::empty();
    match content {
        Content::Alone => [OBJECT_TAG, number, number, 0, 0, 0, 0, 0],
        Content::Chain => {
            let [first, second] = words_behind(number);
            [OBJECT_TAG, number, number, 0, first, second, 0, 0]
        }
        Content::Linked => match number % 4 {
            0 => [
                OBJECT_TAG,
                number,
                number,
                0,
                reference,
                0,
                0,
                word_to(number + 2, none),
            ],
            1 => [OBJECT_TAG, number, number, 0, 0, reference, 0, 0],
            2 => [
                CHUNK_TAG,
                reference,
                0,
                0,
                0,
                0,
                reference,
                word_to(number + 1, none),
            ],
            _ => [CHUNK_TAG, 0, 0, 0, 0, 0, 0, 0],
        },
    }
}

// A heap of such cells, whose spaces may have so many blocks each.
fn heap_of(alloc: Global, content: Content, space_blocks: u64) -> Option<Spaces> {
    let limits = Limits::new(16, space_blocks).ok()?;
    let mut spaces = Spaces::new(alloc, 1, limits).ok()?;
    is_laid_out(&mut spaces, content).then_some(spaces)
}

// Gives each space a block and writes the cells. Whether there was room and memory for them.
fn is_laid_out(spaces: &mut Spaces, content: Content) -> bool {
    for space in 0..3 {
        if space < spaces.nurseries() + 2 && spaces.add_block(space).is_err() {
            return false;
        }
    }
    fill(spaces, content);
    true
}

// Writes the cells.
fn fill(spaces: &mut Spaces, content: Content) {
    for number in 0..CELLS {
        let words = words_at(content, number);
        let place = place_at(number);
        if place.space < 2 && spaces.holds(place) {
            spaces.write_cell(place, words);
        } else {
            put_in_nursery(spaces, words);
        }
    }
}

// Writes to the next cell of the nursery, where there is one.
fn put_in_nursery(spaces: &mut Spaces, words: [u64; WORDS]) {
    if spaces.nurseries() == 1 && spaces.used(2) < 64 * spaces.len(2) {
        let place = spaces.hand_out(2);
        spaces.write_cell(place, words);
    }
}

// The rows of the objects among so many first cells.
fn rows_of(alloc: Global, content: Content, count: u64) -> Option<Vec<Root>> {
    let mut roots = Vec::new(alloc);
    for number in 0..count {
        if matches!(content, Content::Alone) || number % 4 < 2 {
            roots.push(Root::Row(place_at(number))).ok()?;
        }
    }
    Some(roots)
}

// These roots in the order in which a seat takes them: eights of them, from the end.
fn as_taken(alloc: Global, roots: &[Root]) -> Result<Vec<Root>, AllocError> {
    let mut taken = Vec::with_capacity(alloc, roots.len())?;
    for eight in roots.rchunks(8) {
        taken.extend_from_slice(eight)?;
    }
    Ok(taken)
}

// Whether a seat is served as one thread that has the roots in the order of the seat. In a full collection each cell
// gets the same place. No contract says this. In a nursery collection it looks at eight roots at a time, so that other
// cells may go straight to Old.
fn same_at_a_seat(alloc: Global, spaces: &Spaces, roots: &[Root], kind: Kind) -> bool
    requires { AreSound spaces.now.spaces roots.now }
{
    match as_taken(alloc, roots) {
        Ok(taken) => {
            are_sound(spaces, &taken) && is_as_by_one(alloc, spaces, roots, kind, &taken)
        }
        Err(_) => false,
    }
}

// Whether it is served as one thread that has the roots `taken`.
fn is_as_by_one(alloc: Global, spaces: &Spaces, roots: &[Root], kind: Kind, taken: &[Root]) -> bool
    requires sound { AreSound spaces.now.spaces roots.now }
    requires taken { AreSound spaces.now.spaces taken.now }
{
    match collect_one(alloc, spaces, taken, kind, Spare::none(alloc)) {
        Ok(one) => {
            let is_so = is_moved_so(alloc, spaces, roots, kind, &one.forward);
            drop(one);
            is_so
        }
        Err(why) => is_refused_so(alloc, spaces, roots, kind, why),
    }
}

// Whether a seat is served, and gives each cell this place in a full collection.
fn is_moved_so(alloc: Global, spaces: &Spaces, roots: &[Root], kind: Kind, one: &Forwarding) -> bool
    requires sound { AreSound spaces.now.spaces roots.now }
    requires each { length one.now.words ≡ length (cells_of spaces.now.spaces) }
{
    match collect_seated(alloc, spaces, roots, kind, Spare::none(alloc)) {
        Ok(seated) => {
            let is_so = kind == Kind::Nursery
                || have_same_words(one, &seated.forward, spaces.cells());
            drop(seated);
            is_so
        }
        Err(_) => false,
    }
}

// Whether a seat is refused for this.
fn is_refused_so(alloc: Global, spaces: &Spaces, roots: &[Root], kind: Kind, why: RoomFault) -> bool
    requires { AreSound spaces.now.spaces roots.now }
{
    collect_seated(alloc, spaces, roots, kind, Spare::none(alloc)).err() == Some(why)
}

// Whether these cells have the same forwarding words.
fn have_same_words(one: &Forwarding, other: &Forwarding, cells: u64) -> bool
    requires { (cells ≡ length one.now.words) × (cells ≡ length other.now.words) }
{
    for cell in 0..cells {
        if one.word(cell) != other.word(cell) {
            return false;
        }
    }
    true
}

// Why a collection by so many helpers, who pass the gate, is refused.
fn refusal_by<R: Threads + Wait + Sync, G: Gate>(
    rt: &R,
    alloc: Global,
    spaces: &Spaces,
    roots: &[Root],
    kind: Kind,
    helpers: u32,
    gate: &G,
) -> Option<HelpersFault>
    requires sound { AreSound spaces.now.spaces roots.now }
    requires many { (1 ≤ helpers) × (helpers ≤ 8) }
{
    let spare = Spare::none(alloc);
    collect_many(rt, alloc, spaces, roots, kind, helpers, gate, spare).err()
}

// The refusals of one helper, of two and of eight.
fn refusals<R: Threads + Wait + Sync>(
    rt: &R,
    alloc: Global,
    spaces: &Spaces,
    roots: &[Root],
    kind: Kind,
) -> [Option<HelpersFault>; 3]
    requires { AreSound spaces.now.spaces roots.now }
{
    [
        refusal_by(rt, alloc, spaces, roots, kind, 1, &NoGate),
        refusal_by(rt, alloc, spaces, roots, kind, 2, &NoGate),
        refusal_by(rt, alloc, spaces, roots, kind, 8, &NoGate),
    ]
}

// The refusals of one helper, of two and of eight. There are none if the heap isn't sound, or one thread doesn't
// collect it as a seat is served.
fn refusals_each_way<R: Threads + Wait + Sync>(
    rt: &R,
    alloc: Global,
    spaces: &Spaces,
    roots: &[Root],
    kind: Kind,
) -> Option<[Option<HelpersFault>; 3]> {
    if !are_sound(spaces, roots) {
        return None;
    }
    if !same_at_a_seat(alloc, spaces, roots, kind) {
        return None;
    }
    Some(refusals(rt, alloc, spaces, roots, kind))
}

// The refusals for the linked cells, with their rows and these remembered chunks as roots.
fn refusals_of_linked<R: Threads + Wait + Sync>(
    rt: &R,
    alloc: Global,
    kind: Kind,
    remembered: &[Root],
) -> Option<[Option<HelpersFault>; 3]> {
    let mut roots = rows_of(alloc, Content::Linked, CELLS)?;
    roots.extend_from_slice(remembered).ok()?;
    let spaces = heap_of(alloc, Content::Linked, 16)?;
    let refusals = refusals_each_way(rt, alloc, &spaces, &roots, kind);
    drop(spaces);
    refusals
}

// Rows, and for a nursery collection a remembered chunk of Old that refers to a young object.
#[test]
fn collections_succeed_where_there_is_room(rt: HostRuntime) {
    let remembered = [Root::Remembered(place_at(22))];
    let full = refusals_of_linked(&rt, rt.alloc(), Kind::Full, &[]);
    let nursery = refusals_of_linked(&rt, rt.alloc(), Kind::Nursery, &remembered);
    assert!(rt; [full, nursery] == [Some([None; 3]); 2]);
}
