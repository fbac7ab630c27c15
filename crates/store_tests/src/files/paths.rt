//! Files that are opened and made by their paths. The tests compare the message of each refusal, and which names there
//! are in the folder.
use super::has_bytes;
use crate::shown::is_shown;
use sqlite_disk::{Disk, Start, Unknown, Wary};
use std::fs;
use std::os::unix::fs::symlink;
use tg_file::{NewFile, NewName, make_disk, open_disk};

const MISSING: &str = "no file has this name: begin a store here, or give the name of its file";

const ALREADY_THERE: &str = "a file has this name already: open it, or give another name";

const NEW_NAME_TAKEN: &str =
    "something has this name with `.new` after it: remove it, if a call left it there that was cut off";

const NO_FOLDER: &str = "the folder of this name isn't there: make it first";

const LINK: &str = "the name is a link: give the name that it leads to";

const FOLDER: &str = "the name is a folder: give the name of a file in it";

const NOT_A_FILE: &str = "the name is neither a file nor a folder: give the name of a file";

const SECOND_NAME: &str =
    "the file has a second name, by a hard link: remove one of the names, or copy the file";

const IN_USE: &str = "the file is in use: end the process that has it open";

const OTHERS_LOG: &str =
    "the name with `-wal` after it is another program's: give another name, or move that file";

const OTHERS_JOURNAL: &str =
    "the name with `-journal` after it is another program's: give another name, or move that file";

const TOO_WARY: &str =
    "files of lines suppose that a torn write leaves each byte old or new: open it as `Unknown`";

// Whether no file is opened at the path, for this reason.
fn not_opened<S: Start>(rt: &HostRuntime, path: &str, start: S, why: &str) -> bool {
    match open_disk(rt, path, start) {
        Ok(disk) => {
            drop(disk);
            false
        }
        Err(fault) => is_shown(rt.alloc(), fault, why),
    }
}

// Whether no file is made at the path, for this reason.
fn not_made(rt: &HostRuntime, path: &str, why: &str) -> bool {
    match make_disk(rt, path, Unknown) {
        Ok(made) => {
            drop(made);
            false
        }
        Err(fault) => is_shown(rt.alloc(), fault, why),
    }
}

// Whether nothing has the name.
fn is_free(rt: &HostRuntime, path: &str) -> bool {
    matches!(fs::exists(rt, path), Ok(false))
}

// Whether a file is made whose maker gives it up.
fn is_given_up(rt: &HostRuntime, path: &str) -> bool {
    match make_disk(rt, path, Unknown) {
        Ok(made) => {
            let NewFile { disk, name } = made;
            name.give_up(rt);
            drop(disk);
            true
        }
        Err(_) => false,
    }
}

// Whether a file that is being made has no other name than its first one, and is in use.
fn is_new(rt: &HostRuntime) -> [bool; 3] {
    [
        is_free(rt, "tg_file_made/a.kept"),
        is_free(rt, "tg_file_made/a.kept.new-wal"),
        not_made(rt, "tg_file_made/a.kept", IN_USE),
    ]
}

// Whether the file gets its last name, and is in use still.
fn is_named(rt: &HostRuntime, name: &mut NewName) -> [bool; 4] {
    [
        name.rename(rt).is_ok(),
        name.sync_folder().is_ok(),
        is_free(rt, "tg_file_made/a.kept.new"),
        not_opened(rt, "tg_file_made/a.kept", Unknown, IN_USE),
    ]
}

// Whether a file is made, takes 4 bytes, and gets its name.
fn is_made(rt: &HostRuntime) -> bool {
    match make_disk(rt, "tg_file_made/a.kept", Unknown) {
        Ok(made) => {
            let NewFile { mut disk, mut name } = made;
            let new = is_new(rt);
            let written = [disk.write_at(0, b"kept").is_ok(), disk.sync().is_ok()];
            let named = is_named(rt, &mut name);
            drop(name);
            drop(disk);
            (new, written, named) == ([true; 3], [true; 2], [true; 4])
        }
        Err(_) => false,
    }
}

// Whether a file that is opened has these 4 bytes.
fn is_read(rt: &HostRuntime, path: &str, wanted: [u8; 4]) -> bool {
    match open_disk(rt, path, Unknown) {
        Ok(mut disk) => {
            let mut bytes = [0; 4];
            let is_done = disk.read_at(0, &mut bytes).is_ok();
            drop(disk);
            is_done && bytes == wanted
        }
        Err(_) => false,
    }
}

// A file is made under another name, gets its name, and is opened again with what was written.
#[test]
fn makes_renames_and_opens(rt: HostRuntime) {
    let _ = fs::remove_dir_all(&rt, "tg_file_made");
    let seen = [
        fs::create_dir(&rt, "tg_file_made").is_ok(),
        not_opened(&rt, "tg_file_made/a.kept", Unknown, MISSING),
        is_given_up(&rt, "tg_file_made/a.kept"),
        is_free(&rt, "tg_file_made/a.kept.new"),
        is_made(&rt),
        not_made(&rt, "tg_file_made/a.kept", ALREADY_THERE),
        is_read(&rt, "tg_file_made/a.kept", *b"kept"),
        is_free(&rt, "tg_file_made/a.kept-wal"),
        not_opened(&rt, "tg_file_made/a.kept", Wary, TOO_WARY),
        fs::remove_dir_all(&rt, "tg_file_made").is_ok(),
    ];
    assert!(rt; seen == [true; 10]);
}

// Names that lead to no file of one name.
fn are_others_refused(rt: &HostRuntime) -> [bool; 7] {
    [
        not_made(rt, "tg_file_others/b/a.kept", NO_FOLDER),
        not_opened(rt, "tg_file_others", Unknown, FOLDER),
        not_opened(rt, "/dev/null", Unknown, NOT_A_FILE),
        symlink(rt, "nothing", "tg_file_others/a.kept").is_ok(),
        not_opened(rt, "tg_file_others/a.kept", Unknown, LINK),
        not_made(rt, "tg_file_others/a.kept", LINK),
        fs::remove_file(rt, "tg_file_others/a.kept").is_ok(),
    ]
}

// A file of another program has the first name of a new file. Then it has the last name, and a second name.
fn are_names_refused(rt: &HostRuntime) -> [bool; 6] {
    [
        fs::write(rt, "tg_file_others/a.kept.new", b"x".as_slice()).is_ok(),
        not_made(rt, "tg_file_others/a.kept", NEW_NAME_TAKEN),
        fs::rename(rt, "tg_file_others/a.kept.new", "tg_file_others/a.kept").is_ok(),
        fs::hard_link(rt, "tg_file_others/a.kept", "tg_file_others/second").is_ok(),
        not_opened(rt, "tg_file_others/a.kept", Unknown, SECOND_NAME),
        fs::remove_file(rt, "tg_file_others/second").is_ok(),
    ]
}

// Beside the file is the log of another program's database, or its journal. Each file stays as it is.
fn are_logs_refused(rt: &HostRuntime) -> [bool; 8] {
    [
        fs::write(rt, "tg_file_others/a.kept-wal", b"theirs".as_slice()).is_ok(),
        not_opened(rt, "tg_file_others/a.kept", Unknown, OTHERS_LOG),
        has_bytes(rt, "tg_file_others/a.kept-wal", b"theirs"),
        fs::remove_file(rt, "tg_file_others/a.kept-wal").is_ok(),
        fs::write(rt, "tg_file_others/a.kept-journal", b"theirs".as_slice()).is_ok(),
        not_opened(rt, "tg_file_others/a.kept", Unknown, OTHERS_JOURNAL),
        has_bytes(rt, "tg_file_others/a.kept-journal", b"theirs"),
        has_bytes(rt, "tg_file_others/a.kept", b"x"),
    ]
}

// Names that lead to something else than a file of this program.
#[test]
fn refuses_other_names(rt: HostRuntime) {
    let _ = fs::remove_dir_all(&rt, "tg_file_others");
    assert!(rt; fs::create_dir(&rt, "tg_file_others").is_ok());
    assert!(rt; are_others_refused(&rt) == [true; 7]);
    assert!(rt; are_names_refused(&rt) == [true; 6]);
    assert!(rt; are_logs_refused(&rt) == [true; 8]);
    assert!(rt; fs::remove_dir_all(&rt, "tg_file_others").is_ok());
}
