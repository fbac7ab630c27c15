//! A script on a store that is kept in a file.
//!
//! [`run_kept`] reads a script from a reader, and answers it part by part. A part is what came at once, up to its last
//! line feed. The replies of a part are written after its entries are on the disk.
//!
//! ```text
//!     the reader has bytes
//!         |  whole lines are taken: a part
//!         |  the store answers them           the replies wait in memory
//!         |  one write and one sync of the part's entries
//!         |  the replies are written, and the sink is finished
//!         +--> the next part, or the end: the file gets its mark
//! ```
//!
//! So each reply that was written is that of a line whose entry is in the file, and no crash takes the entry away. If
//! the file fails, no reply of the part is written, and the run ends.
#![tactic(auto)]

mod chunk;
mod fault;
mod kept;
mod part;
mod run;

pub use fault::KeptFault;
pub use kept::{KeptEnd, KeptStart, run_kept};
pub use part::KeptMeans;
