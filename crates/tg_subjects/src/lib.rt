//! The table of the subjects that are active.
//!
//! Each subject has a name, a nursery of its own, and an object somewhere in the heap:
//!
//! ```text
//!   name   nursery   place of the object
//!      0         0   ..
//!      2         2   ..          name 1 is retired, and nursery 1 free again
//!      9         1   ..          so the next subject got nursery 1
//! ```
//!
//! The table is sorted by name. A name is given once, and each is above all that were given before, so a new subject
//! comes last. If no subject was retired, a name is also the number of its row in the table, and `find` looks there
//! first. Else it looks at the last subject, and then searches the names by halves. A bit for each nursery in use shows
//! the least free nursery.
//!
//! `new` makes room for all subjects that there may be, and is the only call that takes memory. So whoever changes the
//! table is never refused after the change.
#![tactic(auto)]

mod subject;
mod subjects;

pub use subject::Subject;
pub use subjects::Subjects;
