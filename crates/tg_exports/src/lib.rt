//! The store for C. It is a static library of the functions that C calls by the header `kovshenul.h`.
//!
//! Each function does its work by the library `tg_c`, which has all types and calls. The gate proves a static library
//! twice, because it builds the archive by a second proof. It proves the library `tg_c` once.
//!
//! The functions of `store`, `ending`, `handing`, `withdrawing`, `parking` and `law` call a store in its place, and
//! `resuming` has a store go on from entries. The functions of `could` ask what could ever come about, and those of
//! `view` ask all questions at once. The functions of `auditor` check a journal, those of `saved` keep a snapshot, and
//! those of `text` write texts of a history.
//!
//! Each contract has the contract of the store's own call. It also says exactly which status and numbers C receives
//! (`specs/Calls.antt` and `specs/Statuses.antt` of `tg_c`). The header lists what a C program has to keep to, and no
//! proof checks a C program.
#![tactic(auto)]

mod auditor;
mod could;
mod ending;
mod handing;
mod law;
mod parking;
mod resuming;
mod saved;
mod store;
mod text;
mod view;
mod withdrawing;
