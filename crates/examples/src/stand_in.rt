//! An example of how to take back, although no rule does.
//!
//! An owner keeps a count, and shows it to a client for as long as it likes. It never hands the count itself out. It
//! hands out a second vertex, the stand-in, and fills it with the number of the count (`desk`). The client may hand on
//! the rights that it has, and does so. To take back, the owner empties the stand-in, and stops. After that nobody
//! reads the count any more, whatever rights they hold.
//!
//! The proofs are in two places. `laws` has the facts that hold for each graph, whatever anybody does. The contracts of
//! `Desk` have the facts that hold for this program. Before the owner hands anything out, it asks whether the client
//! could ever come to read the count itself (`foresight`).

mod desk;
mod fault;
mod foresight;
mod laws;
mod opening;
mod story;

pub use desk::read_right;
pub use fault::DeskFault;
pub use story::run_story;
