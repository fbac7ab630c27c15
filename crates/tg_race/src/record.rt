//! What one helper has done.
ghost use Rattle.std.specs.Prelude.{◌≡◌, ◌^◌, ◌<◌, ◌+◌, ◌++◌, length};
ghost use Rattle.std.specs.Bool.{OnTrue};
ghost use Rattle.tg_race.specs.Race.{empty, both};
ghost use Rattle.tg_race.specs.Inner.Room.{FitOne};

use std::alloc::Global;
use std::collections::LinkedList;
use tg_word::Place;

/// The numbers of one race.
#[derive(Clone, Copy)]
pub struct Counts {
    /// How many cells there are.
    pub cells: u64,
    /// How many roots there are, in chunks of 8.
    pub roots: u64,
    /// Old's first block number, which is how many blocks Old keeps.
    pub kept: u64,
    /// How many helpers there are.
    pub helpers: u32,
}

/// What one helper has done, in the order in which it did it.
#[derive(Drop)]
pub struct Record {
    /// The numbers of the chunks of roots that it claimed.
    pub chunks: LinkedList<u64>,
    /// The cells that it won, each with its place.
    pub won: LinkedList<(u64, Place)>,
    /// The cells that it found with a place, each with that place.
    pub seen: LinkedList<(u64, Place)>,
    /// The numbers of the blocks of Aged that it claimed.
    pub aged_blocks: LinkedList<u64>,
    /// The numbers of the blocks of Old that it claimed.
    pub old_blocks: LinkedList<u64>,
    /// Of how many helpers it is the record. It is 0 for a record that is spent.
    pub share: u64,
}

// More items than any memory holds.
const LIMIT: usize = 1 << 62;

impl Record {
    pub(crate) fn new(alloc: Global, share: u64) -> Record
        ensures { result ≡ empty share }
    {
        Record {
            chunks: LinkedList::new(alloc),
            won: LinkedList::new(alloc),
            seen: LinkedList::new(alloc),
            aged_blocks: LinkedList::new(alloc),
            old_blocks: LinkedList::new(alloc),
            share,
        }
    }

    // Whether the lists of both fit one record.
    pub(crate) fn fits_one(&self, other: &Record) -> bool
        ensures { OnTrue result (FitOne self.now other.now) }
    {
        self.chunks.len() < LIMIT
            && other.chunks.len() < LIMIT
            && self.won.len() < LIMIT
            && other.won.len() < LIMIT
            && self.seen.len() < LIMIT
            && other.seen.len() < LIMIT
            && self.aged_blocks.len() < LIMIT
            && other.aged_blocks.len() < LIMIT
            && self.old_blocks.len() < LIMIT
            && other.old_blocks.len() < LIMIT
            && self.share < LIMIT as u64
            && other.share < LIMIT as u64
    }

    // All that the other has done, after what this one has.
    pub(crate) fn take_in(&mut self, other: Record)
        requires { FitOne self.now other }
        ensures { self.exit.now ≡ both self.entry.now other }
    {
        let Record {
            mut chunks,
            mut won,
            mut seen,
            mut aged_blocks,
            mut old_blocks,
            share,
        } = other;
        append(&mut self.chunks, &mut chunks);
        append(&mut self.won, &mut won);
        append(&mut self.seen, &mut seen);
        append(&mut self.aged_blocks, &mut aged_blocks);
        append(&mut self.old_blocks, &mut old_blocks);
        self.share += share;
    }
}

fn append<T: Drop>(list: &mut LinkedList<T>, more: &mut LinkedList<T>)
    requires { length list.old + length more.old < 2 ^ 63 }
    ensures { list.new ≡ list.old ++ more.old }
{
    let Ok(()) = list.append(more) else {
        unreachable!()
    };
}
