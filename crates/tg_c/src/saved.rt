//! A snapshot that C holds, from which an auditor or a store goes on (`again`). It is read from its text, or taken from
//! an auditor at its place. A host keeps it as its text, which `tg_saved` writes and reads.
//!
//! As of an auditor, C holds a `SnapshotPlace` of 16 bytes, all zero while it is closed (`place`). An open place has a
//! pointer to a `KeptSnapshot` (`kept`). C calls it by the functions of `calls`.

mod again;
pub mod calls;
pub mod kept;
pub mod place;
