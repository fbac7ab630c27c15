//! Subjects.
use tg_word::Place;

/// An active subject, with its name, its nursery, and the place of its object.
#[derive(Clone, Copy, PartialEq, Eq, Debug)]
pub struct Subject {
    pub name: u64,
    /// The number of its nursery, below `MAX_NURSERIES`. Its space is `nursery_space` of this number.
    pub nursery: u64,
    pub place: Place,
}
