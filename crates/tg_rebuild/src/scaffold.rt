//! For whom vertices are made.
use std::alloc::Global;
use tg_word::Place;

/// For whom vertices are made, and where the vertex 0 is.
#[derive(Clone, Copy)]
pub(crate) struct Scaffold {
    pub alloc: Global,
    // An active subject.
    pub holder: u64,
    pub zero: Place,
}
