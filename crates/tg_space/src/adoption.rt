//! What a collection hands over.
use crate::space::Space;
use tg_block::Block;

/// The blocks that a collection made, in order, and those that it had no use for.
#[derive(Drop)]
pub struct Adoption {
    /// The new blocks of Aged.
    pub aged: Space,
    /// The new blocks of Old.
    pub old: Space,
    /// Spare blocks that it didn't fill. They hold whatever they held.
    pub left: Vec<Block>,
}
