//! Workers' lines side by side. Each worker has a thread of its own, with its session of a shared store.
//!
//! [`run_race`] runs a whole script so. It reads all lines and opens the store, and [`share_out`] gives each session
//! its lines. [`run_threads`] runs them on threads, and brings the sessions back with the result of each line. A result
//! is the place of its entry in the journal, a collection ([`collect_by`]), or a refusal. The sessions of subjects that
//! spawn lines made come with them, and nobody runs the lines of these subjects. [`in_script_order`] puts the results
//! together again, and the store is closed and audited. A [`RaceTelling`] then writes. [`Replies`] writes the reply to
//! each line, followed by the number of entries. [`Entries`] writes the text of the history. [`runner`] says whose
//! thread runs a line. `sharing`, `task`, `telling`, `weaving` and `work` need no thread, because a session is any type
//! there.
//!
//! `specs/Output` says what may be written for a whole script, as a relation between its lines and a legal history. The
//! order between workers is open, because it is the order in which they took the lock. The law of one worker says that
//! its replies are the replies of a plain run. `specs/Race` says what is then in the sink, also after a fault. Only
//! this crate uses `specs/Tasks`, which defines a session's run of its lines.
#![tactic(auto)]

mod fault;
mod host;
pub mod laws;
mod race;
mod race_on;
mod sharing;
mod task;
mod telling;
mod threads;
mod turnstile;
mod weaving;
mod work;
mod worker;

pub use fault::RaceFault;
pub use host::{RaceContext, RaceHost};
pub use race::run_race;
pub use race_on::{RaceOn, run_race_on};
pub use sharing::share_out;
pub use task::{Task, Told, runner};
pub use telling::{Entries, RaceTelling, Replies, tell_all};
pub use threads::{ThreadsFault, Work, run_threads};
pub use turnstile::{NoTurnstile, Turnstile};
pub use weaving::{in_script_order, sessions_of};
pub use worker::{Finished, collect_by};
