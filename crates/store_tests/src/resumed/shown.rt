//! What is written of a part that wasn't resumed to its end.
use super::let_go;
use crate::by_law::open;
use std::alloc::Global;
use tg_payload::LawPayload;
use tg_resume::{ByLaw, Part, ResumeStopped, resume};
use tg_store::RoomFault;

// Whether it is shown with this text.
fn is_shown(alloc: Global, stopped: &ResumeStopped<LawPayload>, wanted: &str) -> bool {
    match format!(in alloc; "{stopped}") {
        Ok(text) => text.as_str() == wanted,
        Err(_) => false,
    }
}

// Whether a stopped resume is shown so. It is let go afterwards.
fn was_shown(alloc: Global, stopped: ResumeStopped<LawPayload>, wanted: &str) -> bool {
    let is_shown = is_shown(alloc, &stopped, wanted);
    let_go(stopped);
    is_shown
}

// A part that begins at the second entry, for a store that has none.
fn is_place_shown(alloc: Global) -> Option<bool> {
    let part = Part {
        from: 1,
        entries: &[],
    };
    let wanted =
        "the part begins at entry 1, and entry 0 comes next: resume from the part that begins there";
    match resume(alloc, open(alloc, 8)?, &mut ByLaw { alloc }, part) {
        Ok(store) => {
            store.let_go();
            None
        }
        Err(stopped) => Some(was_shown(alloc, stopped, wanted)),
    }
}

fn is_room_shown(alloc: Global) -> Option<bool> {
    let stopped = ResumeStopped::NoRoom {
        at: 5,
        why: RoomFault::HeapFull,
        store: open(alloc, 8)?,
    };
    let wanted =
        "no room for entry 5, heap full: free memory and resume from there, or open a store with more blocks";
    Some(was_shown(alloc, stopped, wanted))
}

fn is_bad_entry_shown(alloc: Global) -> bool {
    let stopped: ResumeStopped<LawPayload> = ResumeStopped::BadEntry { at: 4 };
    let wanted = "entry 4 is not legal: the entries were altered, or are of another opening";
    was_shown(alloc, stopped, wanted)
}

fn are_shown(alloc: Global) -> [Option<bool>; 3] {
    [
        is_place_shown(alloc),
        is_room_shown(alloc),
        Some(is_bad_entry_shown(alloc)),
    ]
}

#[test]
fn each_fault_says_where_and_what_to_do(rt: HostRuntime) {
    assert!(rt; are_shown(rt.alloc()) == [Some(true); 3]);
}
