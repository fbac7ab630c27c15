//! A store that is kept in a real file, which is found by its path.
//!
//! [`begin_kept`] makes the file of a store that was just opened, and [`open_kept`] goes on from a file. Both return a
//! [`Kept`](tg_kept::Kept), whose calls serve commands. A reply is handed out after the sync of its entry. So each
//! content that a crash may leave in the file has the entry of each reply that was handed out.
//!
//! ```text
//!     begin_kept(PATH, store)
//!         |  PATH.new is made and locked
//!         |  the lines of the opening are written, and synced
//!         |  PATH.new gets the name PATH
//!         |  the folder is synced
//!         +--> Ok: a crash leaves the file under the name PATH
//!
//!     open_kept(PATH)
//!         |  PATH is locked, and read
//!         |  each line's sum, and each entry's reply, are compared
//!         |  the deed of each entry is done again
//!         +--> Ok: the store that the file says
//! ```
//!
//! [`serve_file`] has the theorem for a whole run: what its replies are, and what a crash leaves of them.
//!
//! A crash of `begin_kept` leaves no file PATH, or a whole one. It may leave a file PATH.new, which the next call
//! refuses to overwrite.
#![tactic(auto)]

mod begin;
mod fault;
mod open;
mod run;

pub use begin::{BegunFile, begin_kept};
pub use fault::{BeginFault, PathOpenFault, RunFault};
pub use open::open_kept;
pub use run::{AskedRun, serve_file};
