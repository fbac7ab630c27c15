//! What the helpers of a collection share, and what one of them does.
ghost use Rattle.std.specs.Prelude.{◌≡◌, ◌<◌, ◌≤◌, ⊤, IfOk, Ok, vec_capacity};
ghost use Rattle.tg_parallel.specs.Parts.{AreOnce};
ghost use Rattle.tg_parallel.specs.Helping.{IsNew};
ghost use Rattle.tg_parallel.specs.Jobs.{HasHelped, IsDone, IsOpen, MayHelp};
ghost use Rattle.tg_parallel.specs.Seats.{AreEmptyLists, AreSmallLists};

use crate::gate::Gate;
use crate::part::{Helped, Part};
use crate::seat::{Left, Lists, Seat};
use crate::work::work;
use std::alloc::{AllocError, Global};
use tg_evac::Reads;
use tg_race::{Helper, RaceTable};
use tg_space::{Kind, RoomFault, Root, Spaces, Spare};
use tg_word::CELLS;

/// What is collected and how, and the gate that each helper passes.
#[derive(Drop)]
pub struct Task<'a, G> {
    /// The spaces, which are only read.
    pub spaces: &'a Spaces,
    /// Where the walk begins.
    pub roots: &'a [Root],
    /// Which cells are moved.
    pub kind: Kind,
    /// How won cells are read.
    pub reads: Reads,
    /// Passed before each claim of roots.
    pub gate: &'a G,
}

// By hand: a derived `Copy` would ask that the gate is one.
impl<'a, G> Copy for Task<'a, G> {}

impl<'a, G> Clone for Task<'a, G> {
    ghost is_clone = { λ x y. y ≡ x };

    ghost is_infallible = { λ _. ⊤ };

    fn clone(&self) -> Result<Self, AllocError> {
        Ok(*self)
    }
}

/// A task, and the table at which its helpers claim cells.
#[derive(Drop)]
pub struct Job<'a, G> {
    /// The table.
    pub table: &'a RaceTable,
    /// The task.
    pub task: Task<'a, G>,
}

impl<'a, G> Copy for Job<'a, G> {}

impl<'a, G> Clone for Job<'a, G> {
    ghost is_clone = { λ x y. y ≡ x };

    ghost is_infallible = { λ _. ⊤ };

    fn clone(&self) -> Result<Self, AllocError> {
        Ok(*self)
    }
}

/// A helper that has done nothing yet, its number, and the spare blocks and the room that it has for itself.
#[derive(Drop)]
pub struct Newcomer {
    /// The helper.
    pub helper: Helper,
    /// Its number, which the gate gets.
    pub number: u32,
    /// The blocks that it fills first, and the room for its list of won cells.
    pub spare: Spare,
}

impl<'a, G: Gate> Task<'a, G> {
    /// The task of collecting these spaces, whose cells are read in the faster way.
    pub fn new(spaces: &'a Spaces, roots: &'a [Root], kind: Kind, gate: &'a G) -> Self
        ensures spaces { result.spaces.now ≡ spaces.now }
        ensures roots { result.roots.now ≡ roots.now }
        ensures kind { result.kind ≡ kind }
    {
        Task {
            spaces,
            roots,
            kind,
            reads: Reads::of(spaces),
            gate,
        }
    }
}

impl<'a, G: Gate> Job<'a, G> {
    /// Claims roots until there are none left, and wins the cells that they lead to and that no other helper has won.
    /// The helper copies each won cell to its place. Several helpers collect together, as the collectors of Halstead's
    /// Multilisp do. The helper waits only at the gate. Copies go to the spare blocks first, and the list of won cells
    /// is in the spare room.
    ///
    /// The record of the helper has what it won and saw, and its part has the copies of what it won. It claims no block
    /// number twice. If a helper is refused memory or room, it says so and keeps its claims. The collection is then
    /// refused.
    pub fn help(&self, alloc: Global, newcomer: Newcomer) -> Helped
        requires table { IsOpen self.now }
        requires new { IsNew self.now.table.now newcomer.helper }
        ensures helped { IsDone self.now 1 result }
        ensures once { AreOnce result.helper.done.aged_blocks × AreOnce result.helper.done.old_blocks }
    {
        match self.task.kind {
            Kind::Full => match self.task.reads {
                Reads::Each => self
                    .known(Kind::Full, Reads::Each)
                    .help_here(alloc, newcomer),
                Reads::Ahead => self.help_ahead(alloc, newcomer),
            },
            Kind::Nursery => self.help_nursery(alloc, newcomer),
        }
    }

    // Helps with a full collection that reads cells ahead. Each way to read cells is compiled apart, so that the seat
    // is kept in registers.
    #[inline(never)]
    fn help_ahead(&self, alloc: Global, newcomer: Newcomer) -> Helped
        requires { MayHelp self.now Kind.Full newcomer }
        ensures { HasHelped self.now result }
    {
        self.known(Kind::Full, Reads::Ahead)
            .help_here(alloc, newcomer)
    }

    // Helps with a nursery collection.
    #[inline(never)]
    fn help_nursery(&self, alloc: Global, newcomer: Newcomer) -> Helped
        requires { MayHelp self.now Kind.Nursery newcomer }
        ensures { HasHelped self.now result }
    {
        self.known(Kind::Nursery, self.task.reads)
            .help_here(alloc, newcomer)
    }

    // Helps with a collection. It is compiled wherever it is called, for the kind and the way to read cells that are
    // known there.
    #[inline(always)]
    fn help_here(&self, alloc: Global, newcomer: Newcomer) -> Helped
        requires { MayHelp self.now self.now.task.kind newcomer }
        ensures { HasHelped self.now result }
    {
        let limit = self.task.spaces.limits().space_blocks();
        let Newcomer {
            helper,
            number,
            spare,
        } = newcomer;
        let Spare { blocks, words } = spare;
        let Ok(lists) = lists_of(alloc, self.table.len(), words) else {
            return Helped {
                helper,
                part: Err(RoomFault::OutOfMemory),
                room: Vec::new(alloc),
            };
        };
        let mut seat = Seat::new(self.table, helper, self.task.kind, limit, lists);
        let worked = work(alloc, self, &mut seat, number, blocks);
        let Left { helper, lists } = seat.into_left();
        let Lists { won, aged, old } = lists;
        match worked {
            Ok(copies) => Helped {
                helper,
                part: Part::of(alloc, copies, &aged, &old, limit),
                room: won,
            },
            Err(fault) => Helped {
                helper,
                part: Err(fault),
                room: won,
            },
        }
    }

    // The same job, with a kind and a way to read that are known at compile time.
    #[inline(always)]
    fn known(&self, kind: Kind, reads: Reads) -> Self
        requires { kind ≡ self.now.task.kind }
        ensures { result ≡ record self.now { task = record self.now.task { reads = reads } } }
    {
        let task = Task {
            kind,
            reads,
            ..self.task
        };
        Job { task, ..*self }
    }
}

// The lists of a helper at a table of so many words that has done nothing yet. That of what it will have won is in the
// room, where that is enough.
fn lists_of(alloc: Global, words: usize, room: Vec<u64>) -> Result<Lists, AllocError>
    ensures lists { IfOk result (AreEmptyLists words) }
    ensures few { IfOk result (AreSmallLists words (vec_capacity room)) }
{
    // All of its blocks of a space but the last are full of cells that it has won.
    let blocks = words / CELLS as usize + 1;
    Ok(Lists {
        won: roomy(alloc, words, room)?,
        aged: Vec::with_capacity(alloc, blocks)?,
        old: Vec::with_capacity(alloc, blocks)?,
    })
}

// Room for so many words: this, where it is enough.
fn roomy(alloc: Global, words: usize, room: Vec<u64>) -> Result<Vec<u64>, AllocError>
    ensures room { IfOk result (λ held. words ≤ vec_capacity held) }
    ensures same { words ≤ vec_capacity room → result ≡ Ok room }
    ensures exact { vec_capacity room < words → IfOk result (λ held. vec_capacity held ≡ words) }
{
    if words <= room.capacity() {
        return Ok(room);
    }
    Vec::with_capacity(alloc, words)
}
