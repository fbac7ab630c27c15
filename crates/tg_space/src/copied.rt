//! A collection, as it is handed over.
use crate::adoption::Adoption;
use crate::forwarding::Forwarding;
use tg_remember::Remembered;

/// What a collection hands over.
#[derive(Drop)]
pub struct Copied {
    /// For each cell the word of its new place. It is a link to the place, or 0 if the cell wasn't copied.
    pub forward: Forwarding,
    /// The new blocks.
    pub adoption: Adoption,
    /// The cells of Old that will name young cells. They are remembered cells and copies in Old. None after a full
    /// collection.
    pub remembered: Remembered,
}
