//! Shares of the vertices that may be made in a store, and of the entries of its journal. All workers of the store need
//! them.
//!
//! Under a lock one worker may use up all names, and then each create of the others is refused. [`MeteredStore::new`]
//! shares a store as [`SharedStore::new`](tg_shared::SharedStore::new) does, and also hands out a [`Purse`]. The purse
//! has as many vertices and entries as its caller says, and all these vertices may still be made. The owner of a purse
//! hands parts of it on ([`Purse::split_off`]), and takes back the parts that are free ([`Purse::merge`]). A [`Client`]
//! is a session with a purse. Each of its calls is paid for:
//!
//! ```text
//!     a create, a spawn            a vertex and an entry
//!     any other command            an entry
//!     a leave                      an entry for each edge, and one for the retire
//!     a batch                      what its done commands and made vertices cost, one after the other
//!     a refused call, a label, a collection      nothing
//! ```
//!
//! A spawn that is refused because too many subjects are active has an entry, so it pays for that.
//!
//! A command, a create or a spawn may be asked for only by a purse that can pay. [`Purse::may_make`] and
//! [`Purse::may_enter`] are the tests. They refuse a purse that is short, and name the worker and the share that is
//! used up. A leave makes this test itself, because the worker's row may grow until the lock is taken. A batch makes it
//! at each place, and stops at the first command or draft that the purse can't pay for.
//!
//! **The law.** A create or a spawn that is paid for never meets the limit of vertices (`never_full` of
//! [`Client::create`], [`Client::create_all`], [`Client::spawn`]). This holds for everything that anybody did in
//! between. All clients together make at most as many entries as the first purse had (`within` of
//! [`MeteredStore::into_locked`]). No clause says that a call leaves the purses of others alone. By its type it is
//! handed its own purse alone.
//!
//! **Who may do what.** A client reaches the store by its own calls. The store's lock, its locked value and the till
//! are private to this crate. Only the owner of the [`Keeper`](tg_shared::Keeper) takes the journal, ends workers,
//! withdraws rights, and parks and unparks users. No purse pays for these entries. The account of a parking and the new
//! user of an unparking are vertices that the host makes before, as a client, and its purse pays for them.
//!
//! A purse is a share of two ledgers ([`std::sync::ledger`]). It has a part of the first for each vertex, and a part of
//! the second for each entry. The [`Till`] has the parts for vertices and entries that were made. So all purses
//! together have at most the vertices that may still be made. They also have at most the entries of the first purse,
//! less the entries that clients made. Parts are counted in proofs alone, and take no bytes.
#![tactic(auto)]

mod batch;
mod client;
mod creating;
mod fault;
mod keeping;
mod metered;
mod purse;
mod store;

pub use client::Client;
pub use fault::{Lack, LeaveFault, PaidCallsFault, PaidCreatesFault, ShareFault};
pub use purse::{Portion, Purse, PurseBlanks, Till};
pub use store::{MeteredStore, SharedOut};
