//! Who walks to each vertex along take edges, with a bit for each subject that acts. One search from them, depth first,
//! takes time as vertices + edges. Vertices that walk to each other make a knot. A knot is left after all knots that it
//! leads to. So from the last knot back, each knot hands its bits on when it has all of them. Only what is walked to is
//! looked at. Nothing is believed of it, because what it finds is checked.
use crate::search::growth::{note, push, table};
use crate::search::links::{Link, Links, number_of};
use crate::search::names::Names;
use crate::separation::has;
use crate::view::entries::PackedEdge;
use crate::view::words::{add, word_of};
use crate::witness::chains::{NONE, number_at, put_number};
use std::alloc::{AllocError, Global};
use tg_rights::Right;

/// For each number a word of those of `actors` who walk to its vertex, of whom the first 64 count. Notes whether memory
/// ran out.
pub(crate) fn walks(
    alloc: Global,
    names: &Names,
    entries: &[PackedEdge],
    actors: &[u64],
    grown: &mut Result<(), AllocError>,
) -> Vec<u64> {
    let count = names.len();
    let mut takes = Links::with_room(alloc, count, entries.len(), grown);
    add_takes(&mut takes, entries);
    takes.tie(grown);
    let mut words = table(alloc, 0, count, grown);
    let mut walk = DepthFirst::new(alloc, count, grown);
    walk.walk_all(names, &takes, actors, words.as_mut_slice());
    note(grown, walk.grown);
    drop(walk);
    drop(takes);
    words
}

/// The bit of a number, none past 63.
pub(crate) fn bit_of(at: usize) -> u64 {
    match u32::try_from(at) {
        Ok(at) => 1_u64.checked_shl(at).unwrap_or(0),
        Err(_) => 0,
    }
}

// Adds the take edges from each vertex, not tied yet.
fn add_takes(takes: &mut Links, entries: &[PackedEdge]) {
    for entry in entries {
        if has(entry.label, Right::T) {
            takes.add(entry.from as u64, entry.to as u64, true, false);
        }
    }
}

// A vertex on the path, the number that it got, and the place of the next take edge from it.
#[derive(Clone, Copy, Drop)]
struct Visit {
    vertex: u32,
    number: u32,
    next: u32,
}

// Each vertex has a number. It is 0 if the search didn't come to the vertex yet, and `NONE` if its knot was left.
// Otherwise it is the least number of the vertices that are known to be in one knot with it. The path leads to where
// the search is. `open` has the vertices whose knot wasn't left yet. `left` has the others, knot by knot, and `starts`
// has where each knot starts. If memory ran out once, the end reports it.
#[derive(Drop)]
struct DepthFirst {
    numbers: Vec<u32>,
    count: u32,
    path: Vec<Visit>,
    open: Vec<u32>,
    left: Vec<u32>,
    starts: Vec<usize>,
    grown: Result<(), AllocError>,
}

impl DepthFirst {
    // Nobody was come to. Notes whether memory ran out.
    fn new(alloc: Global, count: usize, grown: &mut Result<(), AllocError>) -> DepthFirst {
        DepthFirst {
            numbers: table(alloc, 0, count, grown),
            count: 0,
            path: Vec::new(alloc),
            open: Vec::new(alloc),
            left: Vec::new(alloc),
            starts: Vec::new(alloc),
            grown: Ok(()),
        }
    }

    // Goes from each of `actors`, and adds its bit to the word of each vertex that it walks to.
    fn walk_all(&mut self, names: &Names, takes: &Links, actors: &[u64], words: &mut [u64]) {
        for (at, actor) in actors.iter().enumerate() {
            let number = names.number(*actor);
            add(words, number, bit_of(at));
            self.begin(takes, number);
        }
        self.hand_on(takes, words);
    }

    // Goes from the vertex with a number to all that it walks to, but for those that were come to.
    fn begin(&mut self, takes: &Links, number: u64) {
        let Some(vertex) = number_of(number) else {
            return;
        };
        self.visit(takes, vertex);
        for _ in 0..u64::MAX {
            let Some(&visit) = self.path.last() else {
                break;
            };
            match takes.at(visit.next) {
                Some(link) => self.follow(takes, visit, link),
                None => self.leave(visit),
            }
        }
    }

    // Comes to a vertex, unless it was come to.
    fn visit(&mut self, takes: &Links, vertex: u32) {
        if self.number(vertex) != 0 {
            return;
        }
        self.count = self.count.saturating_add(1);
        self.set_number(vertex, self.count);
        let visit = Visit {
            vertex,
            number: self.count,
            next: takes.first(vertex),
        };
        push(&mut self.open, vertex, &mut self.grown);
        push(&mut self.path, visit, &mut self.grown);
    }

    // Follows the next take edge from the last vertex of the path.
    fn follow(&mut self, takes: &Links, visit: Visit, link: Link) {
        if let Some(last) = self.path.last_mut() {
            last.next = link.next;
        }
        let end = link.end();
        if self.number(end) == 0 {
            self.visit(takes, end);
        } else {
            self.join(visit.vertex, end);
        }
    }

    // Leaves the last vertex of the path, and its knot where it leads to none before it.
    fn leave(&mut self, visit: Visit) {
        self.path.pop();
        if self.number(visit.vertex) == visit.number {
            self.leave_knot(visit.vertex);
        }
        if let Some(&before) = self.path.last() {
            self.join(before.vertex, visit.vertex);
        }
    }

    // Leaves the knot that was entered at a vertex.
    fn leave_knot(&mut self, first: u32) {
        push(&mut self.starts, self.left.len(), &mut self.grown);
        for _ in 0..self.open.len() {
            let Some(vertex) = self.open.pop() else {
                break;
            };
            self.set_number(vertex, NONE);
            push(&mut self.left, vertex, &mut self.grown);
            if vertex == first {
                break;
            }
        }
    }

    // Counts for a vertex with whom one that it takes from is in one knot.
    fn join(&mut self, vertex: u32, end: u32) {
        let least = self.number(end).min(self.number(vertex));
        self.set_number(vertex, least);
    }

    // The number of a vertex.
    fn number(&self, vertex: u32) -> u32 {
        number_at(self.numbers.as_slice(), vertex as usize)
    }

    // Gives a vertex a number.
    fn set_number(&mut self, vertex: u32, number: u32) {
        put_number(self.numbers.as_mut_slice(), vertex as usize, number);
    }

    // From the knot left last to the first one, each hands its bits on.
    fn hand_on(&mut self, takes: &Links, words: &mut [u64]) {
        let mut end = self.left.len();
        for _ in 0..self.starts.len() {
            let Some(start) = self.starts.pop() else {
                break;
            };
            let word = self.word_of_knot(words, start, end);
            for at in start..end {
                self.hand_on_at(takes, words, at, word);
            }
            end = start;
        }
    }

    // The vertex left at a place has these bits, and hands them on along each take edge from it.
    fn hand_on_at(&self, takes: &Links, words: &mut [u64], at: usize, word: u64) {
        let vertex = number_at(self.left.as_slice(), at);
        add(words, vertex as u64, word);
        let mut next = takes.first(vertex);
        for _ in 0..NONE {
            let Some(link) = takes.at(next) else {
                break;
            };
            add(words, link.end() as u64, word);
            next = link.next;
        }
    }

    // The bits of all vertices of a knot.
    fn word_of_knot(&self, words: &[u64], start: usize, end: usize) -> u64 {
        let mut word = 0;
        for at in start..end {
            let vertex = number_at(self.left.as_slice(), at);
            word |= word_of(words, vertex as u64);
        }
        word
    }
}
