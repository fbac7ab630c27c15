//! Stores that are kept in real files. A store is begun, serves and ends, and another goes on from its file.
ghost use Rattle.std.specs.Prelude.{IfSome};
ghost use Rattle.tg_kept.specs.Keeping.{IsFirst};

use super::has_bytes;
use crate::opened::opening_of;
use crate::shown::is_shown;
use sqlite_disk::Unknown;
use std::alloc::Global;
use std::fs;
use tg_file::FileFrom;
use tg_filed::{begin_kept, open_kept};
use tg_kept::{Answered, AskedVertex, Kept};
use tg_model::{Command, Making};
use tg_payload::{Draft, LawPayload};
use tg_revive::ByLaw;
use tg_rights::Label;
use tg_store::{Limits, Store};

type KeptLaws = Kept<FileFrom<Unknown>, LawPayload>;

// The lines of a file after a create, a write and a read. The sums are those of zlib.
const LINES: &[u8] = b"kovshenul kept 1 @c4b942f6
opening 1 8 @616b590c
worker c7 #d0d2c810
0 create rw c5 = ok 1 @0298cf95
0 write 1 6 = ok @7f3eb8cb
0 read 1 = ok 6 @533b7dc0
";

// The bytes of another program's file.
const LETTER: &[u8] = b"a letter\n";

const IN_USE: &str = "the file is in use: end the process that has it open";

const OTHERS: &str =
    "the first line isn't `kovshenul kept 1`: the file is another program's or another version's";

const DAMAGED: &str = "line 3, at byte 49, is damaged: lines after it were written later";

// A draft with this number.
fn draft(alloc: Global, number: u64) -> Option<Draft<LawPayload>> {
    Draft::new(alloc, LawPayload::cell(number)).ok()
}

// The draft of the only worker, who stores 7.
fn drafts(alloc: Global) -> Option<Vec<Draft<LawPayload>>> {
    let draft = draft(alloc, 7)?;
    vec![in alloc; draft].ok()
}

// A store of one worker.
fn first_store(alloc: Global) -> Option<Store<LawPayload>>
    ensures { IfSome result IsFirst }
{
    let limits = Limits::new(16, 4).ok()?;
    let drafts = drafts(alloc)?;
    let opening = opening_of(alloc, &drafts, 8)?;
    Store::open(alloc, opening, limits, drafts).ok()
}

// Begins the file of such a store, or goes on from a file.
fn begin(rt: &HostRuntime, path: &str) -> Option<KeptLaws> {
    match begin_kept(rt, path, Unknown, first_store(rt.alloc())?) {
        Ok(begun) => Some(begun.kept),
        Err(_) => None,
    }
}

fn go_on(rt: &HostRuntime, path: &str) -> Option<KeptLaws> {
    let alloc = rt.alloc();
    let limits = Limits::new(16, 4).ok()?;
    match open_kept(rt, path, Unknown, limits, &mut ByLaw { alloc }) {
        Ok(back) => Some(back.kept),
        Err(fault) => {
            drop(fault);
            None
        }
    }
}

// Whether no store goes on from a file, for this reason.
fn is_refused(rt: &HostRuntime, path: &str, why: &str) -> bool {
    let alloc = rt.alloc();
    let Ok(limits) = Limits::new(16, 4) else {
        return false;
    };
    match open_kept::<Unknown, LawPayload, ByLaw>(rt, path, Unknown, limits, &mut ByLaw { alloc }) {
        Ok(back) => {
            drop(back);
            false
        }
        Err(fault) => is_shown(alloc, fault, why),
    }
}

// The store once the command was served for the worker.
fn served(alloc: Global, kept: Option<KeptLaws>, command: Command) -> Option<KeptLaws> {
    match kept?.serve(alloc, 0, &[command]) {
        Ok(served) => Some(served.kept),
        Err(lost) => {
            drop(lost);
            None
        }
    }
}

// An object with 5, which the worker may read and write.
fn five(alloc: Global) -> Option<AskedVertex<LawPayload>> {
    let label = Label::read_text(b"rw")?;
    let draft = draft(alloc, 5)?;
    Some(AskedVertex {
        worker: 0,
        kind: Making::Object,
        label,
        draft,
    })
}

// A store that was begun at the path, and that made such an object.
fn begin_and_make(rt: &HostRuntime, path: &str) -> Option<KeptLaws> {
    let five = five(rt.alloc())?;
    match begin(rt, path)?.make(rt.alloc(), five) {
        Ok(made) => {
            let Answered { kept, answer } = made;
            drop(answer);
            Some(kept)
        }
        Err(lost) => {
            drop(lost);
            None
        }
    }
}

// Whether a store is begun at the path.
fn is_begun(rt: &HostRuntime, path: &str) -> bool {
    let kept = begin(rt, path);
    let is_begun = kept.is_some();
    drop(kept);
    is_begun
}

// Whether a store is begun, makes an object and serves this command. Then it ends.
fn is_served(rt: &HostRuntime, path: &str, command: Command) -> bool {
    let kept = served(rt.alloc(), begin_and_make(rt, path), command);
    let is_served = kept.is_some();
    drop(kept);
    is_served
}

// How many entries the store has.
fn entries_of(kept: &Option<KeptLaws>) -> Option<u64> {
    match kept {
        Some(kept) => Some(kept.store().journal().len()),
        None => None,
    }
}

// How many entries a store has that goes on from the file, and whether it reads the object. Then whether its file is in
// use.
fn seen_of_next(rt: &HostRuntime, path: &str) -> (Option<u64>, [bool; 2]) {
    let kept = go_on(rt, path);
    let entries = entries_of(&kept);
    let kept = served(rt.alloc(), kept, Command::Read { target: 1 });
    let seen = [kept.is_some(), is_refused(rt, path, IN_USE)];
    drop(kept);
    (entries, seen)
}

fn are_zeros(bytes: &[u8]) -> bool {
    let mut bits = 0;
    for byte in bytes {
        bits |= *byte;
    }
    bits == 0
}

// Whether these are the lines, and then zeros.
fn are_lines(bytes: &[u8]) -> bool {
    match bytes.strip_prefix(LINES) {
        Some(rest) => are_zeros(rest),
        None => false,
    }
}

fn has_lines(rt: &HostRuntime, path: &str) -> bool {
    match fs::read(rt, path) {
        Ok(bytes) => are_lines(&bytes),
        Err(_) => false,
    }
}

// A store is begun, serves and ends. Another one goes on from its file, and serves.
#[test]
fn serves_ends_and_goes_on(rt: HostRuntime) {
    let _ = fs::remove_dir_all(&rt, "tg_filed_on");
    let path = "tg_filed_on/a.kept";
    let write = Command::Write {
        target: 1,
        value: 6,
    };
    let is_made = fs::create_dir(&rt, "tg_filed_on").is_ok();
    let is_first = is_served(&rt, path, write);
    let next = seen_of_next(&rt, path);
    let ends = [
        has_lines(&rt, path),
        fs::remove_dir_all(&rt, "tg_filed_on").is_ok(),
    ];
    assert!(rt; ([is_made, is_first], next, ends) == ([true; 2], (Some(2), [true; 2]), [true; 2]));
}

// Whether one bit of this byte of a file is turned.
fn is_altered(rt: &HostRuntime, path: &str, at: usize) -> bool {
    match fs::read(rt, path) {
        Ok(mut bytes) => {
            if let Some(byte) = bytes.get_mut(at) {
                *byte ^= 1;
            }
            fs::write(rt, path, bytes.as_slice()).is_ok()
        }
        Err(_) => false,
    }
}

// Whether another program's file is refused, and left as it is.
fn is_letter_left(rt: &HostRuntime, path: &str) -> [bool; 5] {
    [
        fs::write(rt, path, LETTER).is_ok(),
        is_refused(rt, path, OTHERS),
        !is_begun(rt, path),
        has_bytes(rt, path, LETTER),
        fs::remove_file(rt, path).is_ok(),
    ]
}

// Another program's file is left as it is, and a damaged one is refused with line and byte.
#[test]
fn refuses_other_files(rt: HostRuntime) {
    let _ = fs::remove_dir_all(&rt, "tg_filed_others");
    let path = "tg_filed_others/a.kept";
    let is_made = fs::create_dir(&rt, "tg_filed_others").is_ok();
    let letter = is_letter_left(&rt, path);
    let damage = [
        is_served(&rt, path, Command::List),
        is_altered(&rt, path, 60),
        is_refused(&rt, path, DAMAGED),
        fs::remove_dir_all(&rt, "tg_filed_others").is_ok(),
    ];
    assert!(rt; (is_made, letter, damage) == (true, [true; 5], [true; 4]));
}
