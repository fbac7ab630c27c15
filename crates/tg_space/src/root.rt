//! The roots of a collection.
use tg_word::Place;

/// What a collection starts from.
#[derive(Clone, Copy, PartialEq, Eq, Debug)]
pub enum Root {
    /// A row from the cell at a place on, which is its object or one of its chunks.
    Row(Place),
    /// The cell of Old at a place, which may name a younger one.
    Remembered(Place),
}
