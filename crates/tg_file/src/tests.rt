//! The sync of a folder, of which no clause says that the system is asked for it. The other tests of this crate are in
//! `store_tests`, because a crate with tests is proved twice. This one makes a name of its own.
use crate::NewName;
use std::fs;

// Whether the sync of a device fails, and whether it is noted then.
fn seen(rt: &HostRuntime) -> Option<[bool; 2]> {
    let folder = fs::File::open(rt, "/dev/null").ok()?;
    let mut name = NewName {
        first: String::new(rt.alloc()),
        last: String::new(rt.alloc()),
        folder,
        is_renamed: true,
        is_lasting: false,
    };
    let is_refused = name.sync_folder().is_err();
    let seen = [is_refused, name.is_lasting];
    drop(name);
    Some(seen)
}

// A device has no names to sync, so the call fails if it asks the system.
#[test]
fn syncs_its_folder(rt: HostRuntime) {
    assert!(rt; seen(&rt) == Some([true, false]));
}
