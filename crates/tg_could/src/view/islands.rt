//! Islands. An island is a set of subjects that act, of which each can hand on to the others what it gets.
ghost use Rattle.std.specs.Prelude.{◌≡◌, IsTrue};
ghost use Rattle.std.specs.List.{All};
ghost use Rattle.tg_could.specs.View.{Joins, JoinsEntry, IsOfOne, name_word as word_in};

use crate::search::growth::table;
use crate::search::names::Names;
use crate::separation::conditions::both_imply;
use crate::separation::has;
use crate::view::entries::PackedEdge;
use crate::view::walks::{bit_of, walks};
use crate::view::words::{add, are_bridged, is_single, is_within, meets, word_of};
use std::alloc::{AllocError, Global};
use tg_rights::{Label, Right};

/// Two sets of islands for each number, with a bit for each island. From the first, a walk of take edges leads to its
/// vertex. From the second, one leads to a vertex that has grant over it.
#[derive(Drop)]
pub(crate) struct Islands {
    pub(crate) reached: Vec<u64>,
    pub(crate) granted: Vec<u64>,
}

impl Islands {
    /// The islands of those who act, of whom the first 64 count. Notes whether memory ran out.
    pub(crate) fn of(
        alloc: Global,
        names: &Names,
        entries: &[PackedEdge],
        actors: &[u64],
        grown: &mut Result<(), AllocError>,
    ) -> Islands {
        let mut reached = walks(alloc, names, entries, actors, grown);
        let mut joined = table(alloc, 0, actors.len(), grown);
        join_actors(joined.as_mut_slice(), names, actors, reached.as_slice());
        join_entries(joined.as_mut_slice(), entries, reached.as_slice());
        tell_islands(joined.as_slice(), reached.as_mut_slice());
        let mut granted = table(alloc, 0, names.len(), grown);
        add_granted(granted.as_mut_slice(), entries, reached.as_slice());
        Islands { reached, granted }
    }

    /// Whether each of these is of one island.
    pub(crate) fn are_single(&self, names: &Names, actors: &[u64]) -> bool
        ensures { IsTrue result → All (IsOfOne names.now self.now) actors.now }
    {
        for actor in actors {
            if !self.is_of_one(names, *actor) {
                return false;
            }
        }
        true
    }

    // Whether a vertex is of one island.
    fn is_of_one(&self, names: &Names, name: u64) -> bool
        ensures { IsTrue result → IsOfOne names.now self.now name }
    {
        is_single(self.word(names.number(name)))
    }

    /// The word of a number. It says from which islands a walk leads to its vertex.
    pub(crate) fn word(&self, number: u64) -> u64
        ensures { result ≡ word_in self.now.reached.items number }
    {
        word_of(self.reached.as_slice(), number)
    }

    /// The word of the islands of which one has grant over the vertex with a number.
    pub(crate) fn granted(&self, number: u64) -> u64
        ensures { result ≡ word_in self.now.granted.items number }
    {
        word_of(self.granted.as_slice(), number)
    }

    /// Whether the words count each of these edges, and none joins two islands.
    pub(crate) fn are_joined(&self, entries: &[PackedEdge]) -> bool
        ensures { IsTrue result → All (JoinsEntry self.now) entries.now }
    {
        for entry in entries {
            if !self.is_joined(entry.from as u64, entry.to as u64, entry.label) {
                return false;
            }
        }
        true
    }

    /// Whether the words count an edge from one number to another, and it doesn't join two islands.
    pub(crate) fn is_joined(&self, holder: u64, target: u64, label: Label) -> bool
        ensures { IsTrue result → Joins self.now holder target label }
    {
        let take = has(label, Right::T);
        let grant = has(label, Right::G);
        if !take && !grant {
            return true;
        }
        let from = self.word(holder);
        if from == 0 {
            return true;
        }
        let to = self.word(target);
        let granted = self.granted(target);
        if !both_imply(take, true, is_within(from, to)) {
            return false;
        }
        if !both_imply(grant, true, is_within(from, granted)) {
            return false;
        }
        both_imply(grant, true, are_bridged(from, to))
    }
}

// Makes words of islands of words of those who act.
fn tell_islands(joined: &[u64], reached: &mut [u64]) {
    for word in reached.iter_mut() {
        if *word != 0 {
            *word = island_word(joined, *word);
        }
    }
}

// Adds to each number's word the islands of which one has grant over its vertex.
fn add_granted(granted: &mut [u64], entries: &[PackedEdge], reached: &[u64]) {
    for entry in entries {
        if has(entry.label, Right::G) {
            let word = word_of(reached, entry.from as u64);
            if word != 0 {
                add(granted, entry.to as u64, word);
            }
        }
    }
}

// Each who acts is of an island with those who walk to it.
fn join_actors(joined: &mut [u64], names: &Names, actors: &[u64], reached: &[u64]) {
    for (at, word) in joined.iter_mut().enumerate() {
        *word = bit_of(at);
    }
    for actor in actors {
        join(joined, word_of(reached, names.number(*actor)));
    }
}

// Those who walk to either end of a grant edge are of one island.
fn join_entries(joined: &mut [u64], entries: &[PackedEdge], reached: &[u64]) {
    for entry in entries {
        if !has(entry.label, Right::G) {
            continue;
        }
        let from = word_of(reached, entry.from as u64);
        if from == 0 {
            continue;
        }
        let to = word_of(reached, entry.to as u64);
        if to != 0 {
            join(joined, from | to);
        }
    }
}

// Joins the islands of all in a word.
fn join(joined: &mut [u64], word: u64) {
    if is_within(word, island_of(joined, word)) {
        return;
    }
    let mut all = word;
    for island in joined.iter() {
        if meets(*island, word) {
            all |= *island;
        }
    }
    for island in joined.iter_mut() {
        if meets(*island, all) {
            *island = all;
        }
    }
}

// The island of the first in a word.
fn island_of(joined: &[u64], word: u64) -> u64 {
    word_of(joined, word.trailing_zeros() as u64)
}

// The islands of all in a word, each by its first.
fn island_word(joined: &[u64], word: u64) -> u64 {
    let mut islands = 0;
    let mut left = word;
    for _ in 0..64 {
        if left == 0 {
            break;
        }
        let island = island_of(joined, left);
        islands |= island & island.wrapping_neg();
        left &= !island;
    }
    islands
}
