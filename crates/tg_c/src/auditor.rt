//! An auditor that C holds. It audits the journal of a store part after part. Therefore the store may give up the
//! entries that were audited.
//!
//! C holds an `AuditorPlace` of 16 bytes, all zero while it is closed (`place`). An open place has a pointer to an
//! `Audit` (`audit`). C calls it by the functions of `calls`.

pub mod audit;
pub mod calls;
pub mod place;
