//! A view of a store that C holds. It has what could come about, for all questions at once, as of the moment when the
//! view was opened.
//!
//! C holds a `ViewPlace` of 16 bytes, all zero while it is closed (`place`). An open place has a pointer to a `Sight`
//! (`sight`). A sight is made of the vertices that the workers of a store reach (`calls`). It shares nothing with the
//! store, and outlives it.

pub mod calls;
pub mod place;
pub mod sight;
