//! The parts of openings that the stories share.

use crate::fault::StoryFault;
use std::alloc::Global;
use tg_model::{Edge, Opening};
use tg_payload::{CellPayload, Draft, values_of};
use tg_rights::{Label, Right, Rights};
use tg_store::{Limits, StoreFault};

// The heap has at most 16 blocks of 64 cells, and one space of it at most 4.
const MOST_BLOCKS: u64 = 16;

const MOST_BLOCKS_OF_A_SPACE: u64 = 4;

// Three workers are in a story of three.
const THREE: u64 = 3;

// At most 8 vertices may ever be made in a story of three, workers included.
const MOST_VERTICES: u64 = 8;

/// The label with the rights of the letters. `BadLabel` is returned if a letter names no right, or there is no letter.
pub fn label(letters: &str) -> Result<Label, StoryFault> {
    Label::read_text(letters.as_bytes()).ok_or(StoryFault::BadLabel)
}

/// The right to grant.
pub fn grant() -> Label {
    Label::new(Rights::of(Right::G)).unwrap()
}

/// The right to write.
pub fn write_right() -> Label {
    Label::new(Rights::of(Right::W)).unwrap()
}

/// The rights to read and to write.
pub fn read_and_write() -> Label {
    Label::new(Rights::of(Right::R).union(Rights::of(Right::W))).unwrap()
}

/// How large a heap may become.
pub fn limits() -> Result<Limits, StoreFault> {
    Ok(Limits::new(MOST_BLOCKS, MOST_BLOCKS_OF_A_SPACE)?)
}

/// A draft of a cell with this number.
pub fn cell(alloc: Global, number: u64) -> Result<Draft<CellPayload>, StoreFault> {
    Ok(Draft::new(alloc, CellPayload::new(number))?)
}

/// The drafts of the workers of a story of three. Each is a cell with 0.
pub fn cells_of_three(alloc: Global) -> Result<Vec<Draft<CellPayload>>, StoreFault> {
    let mut drafts = Vec::new(alloc);
    for _ in 0..THREE {
        drafts.push(cell(alloc, 0)?)?;
    }
    Ok(drafts)
}

/// The opening of a story of three. The workers store these cells, and these edges join them.
pub fn opening_of_three(alloc: Global, edges: Vec<Edge>) -> Result<Opening, StoreFault> {
    let values = values_of(alloc, &cells_of_three(alloc)?)?;
    Ok(Opening::new(THREE, edges, values, MOST_VERTICES)?)
}
