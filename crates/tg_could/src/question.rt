//! The question, and what it is asked about.
use tg_model::{Deed, Picture};
use tg_rights::Right;

/// What a question is about. It is the picture of a graph, and the subjects that take no turns. All other active
/// subjects act, and so does whoever is spawned later.
#[derive(Clone, Copy, Drop)]
pub struct Scene<'a> {
    /// The picture.
    pub picture: &'a Picture,
    /// The names of those who take no turns. A name that was never made counts for nothing.
    pub silent: &'a [u64],
}

/// The question whether x could ever come to hold the right over y.
#[derive(Clone, Copy, Drop)]
pub struct Question {
    /// The name of the one who would hold the right.
    pub x: u64,
    /// The right.
    pub right: Right,
    /// The name of the vertex that the right is over.
    pub y: u64,
}

/// Turns that are to lead to a right.
#[derive(Clone, Copy, Drop)]
pub struct Witness<'a> {
    /// Who asks, and for what, in order.
    pub turns: &'a [(u64, Deed)],
    /// How many vertices more than the picture's limit may be made.
    pub names: u64,
}
