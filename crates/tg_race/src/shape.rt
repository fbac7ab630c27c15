//! What is raced over.
ghost use Rattle.std.specs.Prelude.{◌≡◌, [], slice_index_or};
ghost use Rattle.std.specs.List.{list_any};
ghost use Rattle.tg_race.specs.Race.{has_number};
ghost use Rattle.tg_race.specs.Course.{lists, chunk_has, pair_has, is_target, net_of};

use crate::record::Record;
use std::collections::LinkedList;
use tg_word::Place;

/// What is raced over. Cells are numbered from 0 on. A target that is no cell's number can be won by no event.
#[derive(Drop)]
pub struct Shape {
    /// The targets of each root.
    pub roots: Vec<Vec<u64>>,
    /// The targets of each cell.
    pub targets: Vec<Vec<u64>>,
    /// Old's first block number.
    pub kept: u64,
    /// How many blocks a space may have. No place is given in a block with this number or above.
    pub space_blocks: u64,
    /// How many helpers there are.
    pub helpers: u32,
}

impl Shape {
    // Whether the cell numbered `to` is a target of the cell.
    fn cell_has(&self, cell: u64, to: u64) -> bool
        ensures { result ≡ has_number to (slice_index_or (lists self.now.targets.items) cell []) }
    {
        match self.targets.get(cell as usize) {
            Some(targets) => targets.contains(&to),
            None => false,
        }
    }

    // Whether the cell is a target of a root of the chunk.
    fn chunk_has(&self, chunk: u64, cell: u64) -> bool
        ensures { result ≡ chunk_has (net_of self.now) cell chunk }
    {
        let roots = self.roots.as_slice();
        if chunk >= (roots.len() as u64 + 7) / 8 {
            return false;
        }
        let last = roots.len() - chunk as usize * 8;
        let first = last.saturating_sub(8);
        any_has(&roots[first..last], cell)
    }

    fn some_chunk_has(&self, chunks: &LinkedList<u64>, cell: u64) -> bool
        ensures { result ≡ list_any (chunk_has (net_of self.now) cell) chunks.now }
    {
        chunks.iter().any(|c| self.chunk_has(*c, cell))
    }

    fn some_pair_has(&self, won: &LinkedList<(u64, Place)>, cell: u64) -> bool
        ensures { result ≡ list_any (pair_has (net_of self.now) cell) won.now }
    {
        won.iter().any(|q| self.cell_has(q.0, cell))
    }

    // Whether the cell is a target of a root that the record has claimed, or of a cell that it has won.
    pub(crate) fn is_target(&self, done: &Record, cell: u64) -> bool
        ensures { result ≡ is_target (net_of self.now) done.now.chunks done.now.won cell }
    {
        self.some_chunk_has(&done.chunks, cell) || self.some_pair_has(&done.won, cell)
    }
}

fn any_has(roots: &[Vec<u64>], cell: u64) -> bool
    ensures { result ≡ list_any (λ targets. has_number cell targets.items) roots.now }
{
    roots.iter().any(|targets| targets.contains(&cell))
}
