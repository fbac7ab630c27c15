//! Tests of the heap below the store, and of the race of a collection by several helpers.
//!
//! Tests have crates of their own, because a crate with tests is proved twice. Each file of this crate has one topic,
//! and the name of a test says what it shows. Only the gate runs this crate. Tests of the plain graph and of audits are
//! rows of `tests/runs/audit` and `tests/runs/could`.
#![tactic(auto)]

#[cfg(test)]
mod collections;
#[cfg(test)]
mod race;
#[cfg(test)]
mod remembering;
#[cfg(test)]
mod spaces;
