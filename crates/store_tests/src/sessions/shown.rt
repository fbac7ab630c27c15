//! Why a round doesn't end and why a share refuses, as a host prints it.
use crate::shown::is_shown;
use std::alloc::Global;
use tg_shared::CloseFault;
use tg_shares::{Lack, LeaveFault, ShareFault};
use tg_store::ApplyFault;

// The fault that worker 2 has too few vertices or entries.
fn share_of(lacks: Lack) -> ShareFault {
    ShareFault { worker: 2, lacks }
}

fn are_refusals_shown(alloc: Global) -> [bool; 6] {
    let missing = CloseFault::SessionsMissing;
    let mismatch = CloseFault::ReceiptMismatch;
    let vertices = "too few vertices are left in the share of worker 2";
    let entries = "too few entries are left in the share of worker 2";
    let leaver = LeaveFault::Share(share_of(Lack::Entries));
    let stranger = LeaveFault::Store(ApplyFault::NoSuchWorker);
    [
        is_shown(alloc, missing, "sessions are missing"),
        is_shown(alloc, mismatch, "receipts don't match the journal"),
        is_shown(alloc, share_of(Lack::Vertices), vertices),
        is_shown(alloc, share_of(Lack::Entries), entries),
        is_shown(alloc, leaver, entries),
        is_shown(alloc, stranger, "no such worker"),
    ]
}

#[test]
fn refusals_of_a_round(rt: HostRuntime) {
    assert!(rt; are_refusals_shown(rt.alloc()) == [true; 6]);
}
