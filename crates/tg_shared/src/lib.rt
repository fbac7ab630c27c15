//! The locked store. Many threads use it, and a proof at the end shows that nothing was lost.
//!
//! [`SharedStore::new`] puts a store into a lock and gives one [`Session`] for each active subject. A session may go to
//! a thread of its own. Each of its calls takes the lock, makes one call of the store, and releases the lock.
//!
//! ```text
//!     session 0   [receipts, pass] --call--+
//!                                          |      +--lock------------------------------+
//!     session 1   [receipts, pass] --call--+----> | store: heap and journal            |
//!                                          |      | book: how many entries since       |
//!     keeper      [numbers, pass]  --call--+      | roll: which entries since, by whom |
//!                                                 +------------------------------------+
//! ```
//!
//! A call that makes an entry of the journal leaves a [`Receipt`] with the session. The receipt has the entry and its
//! place. So a session has all answers that it got, and [`close`] compares. [`close`] takes all sessions back, and
//! checks that each receipt is the journal's entry at its place. Then it hands out the store.
//!
//! The contracts of [`Locked`], the type in the lock, say what a call does to the value there. Each call of a session
//! is one call of the store and makes at most one receipt. [`Session::call_all`] and [`Session::create_all`] make
//! several in a row. The clauses of a session speak of its own receipts and of a store. This store has exactly the
//! entries that the session has then seen since the start. The answer was right for such a store ('What a session can
//! know' in docs/inside/ARCHITECTURE.md). Its pass shows which of these entries are its own. They are exactly the
//! entries that its calls made ('How a session knows its own entries' there). [`close`] says that the journal begins
//! with what each session has seen. Whenever the lock is free, the store has all entries of the shared store, and keeps
//! its promise ([`Locked::store`]). The book beside it has then counted each entry since.
//!
//! A session may make a subject, and gets the session of the new subject ([`Session::spawn`]). This session is owed to
//! [`close`] too. A subject that retires makes no more entries. Its session is owed all the same.
//!
//! **For years.** A service takes the journal and the receipts in parts. It shares the store in parts, and gets a
//! [`Keeper`]. The keeper takes the entries while the sessions go on. Each session hands its receipts out
//! ([`Session::take_receipts`]). They are compared with the part that has their entries ([`receipts_match`]), and
//! [`laws`] join the parts. [`Keeper::forget`] and [`Session::forget_receipts`] give entries and receipts up, and keep
//! their room. Each part begins at the end of the keeper's part before ([`Keeper::next`]). A session that is done goes
//! into another session ([`Session::take_over`]). A store that is shared whole hands out entries and receipts only at
//! the close.
//!
//! **A client that hangs.** The keeper ends its worker by its name, if the store was shared so ([`Keeper::end`]). It
//! withdraws rights from workers too ([`Keeper::withdraw`]). In the roll the entries of an end, of a withdrawal, and of
//! a parking are the keeper's. So the owner of the keeper knows at the close who made each entry ([`close_with`]). A
//! store is also recovered if a session is lost ([`reclaim`]). Then the returned receipts are at most as many as the
//! entries.
//!
//! **A client that is away.** The keeper parks its worker in an account ([`Keeper::park`]), so that at most 64 workers
//! are active at a time. The client comes back as a new worker, which a session spawns and the keeper unparks
//! ([`Keeper::unpark`]).
//!
//! The book is the book of a ledger ([`std::sync::ledger`]). After a successful close there are as many receipts as
//! entries ('Why the count is known at the close' in docs/inside/ARCHITECTURE.md).
//!
//! **Why nothing is refused between an entry and its receipt.** A session makes room for the receipt, and copies the
//! state of a vertex to be made, before it takes the lock ([`Session::make_room`]). The reply moves into the receipt.
//! So under the lock only the store's call takes memory, and it is refused before it makes an entry. A batch of creates
//! copies each state under the lock, before the store's call.
#![tactic(auto)]

mod batch;
mod call;
mod closing;
mod creating;
mod handing;
mod helpers;
mod keeper;
pub mod laws;
mod locked;
mod making;
mod mirror;
mod parking;
mod receipt;
mod round;
mod session;
mod shared;
mod withdrawing;

pub use closing::{CloseFault, LockedRefused};
pub use creating::CreatesFault;
pub use handing::OwnHand;
pub use keeper::Keeper;
pub use locked::Locked;
pub use receipt::{Receipt, receipts_match};
pub use round::{Blanks, Round};
pub use session::Session;
pub use shared::{CloseRefused, Shared, SharedRefused, SharedStore, close, close_with, reclaim};
pub use tg_helpers::{Gate, HelpersFault, NoGate};
