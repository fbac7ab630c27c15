//! What a program reads, which is a script or the text of a history.
ghost use Rattle.std.specs.Prelude.{◌≡◌, ◌≤◌, ◌++◌, [], ℕ, List, Option, Some, IfOk, IfSome, OnOk, length, take};
ghost use Rattle.tg_entries.specs.Kept.{IsTextOf};
ghost use Rattle.tg_entries.specs.Pieces.{FetchesPiece};
ghost use Rattle.tg_found.specs.Kept.{kept_text};
ghost use Rattle.tg_keep.specs.Opened.{MayOpen};
ghost use Rattle.tg_plain.specs.Past.{IsGiven, IsInputOf};

use crate::fault::PlainFault;
use crate::kept::KeptFile;
use crate::options::PlainOptions;
use crate::script::{BLOCK, Script};
use std::alloc::{AllocError, Global};
use std::fs::Files;
use std::io::{self, BufReader, Cursor, ErrorKind, Read};
use tg_entries::{History, read_history};

// The first bytes of the text of each history. No line of a script begins so.
const MARK: &[u8] = b"kovshenul ";

/// What a reader has.
#[derive(Drop)]
pub enum InputText {
    /// A script, as far as its first fault.
    Lines(Script),
    /// A legal history.
    Entries(History),
}

impl InputText {
    /// What the words of the command line give this program to read. If the options name a kept file, it is the history
    /// that the file says, up to its last whole line. The numbers of the history are those of the options that are
    /// given. `Kept` if the file isn't read, and then standard error says why. Without a kept file it is what standard
    /// input has, and fails as [`InputText::read`] does.
    pub fn given<R: AllocGlobal + Input + Eprint + Files>(
        rt: &R,
        program: &str,
        options: PlainOptions,
    ) -> Result<InputText, PlainFault>
        ensures { IfOk result (λ input. (known : Option (List ℕ)) × IsGiven R.Reader.remaining options.entry.kept known × IfSome known (λ bytes. IsInputOf options.entry bytes input)) }
    {
        match options.kept {
            Some(path) => InputText::read_kept(rt, KeptFile { program, path }, options),
            None => InputText::read(rt.alloc(), options, rt.reader()),
        }
    }

    // The history of the kept file, if the options agree with it.
    fn read_kept<R: AllocGlobal + Eprint + Files>(
        rt: &R,
        file: KeptFile,
        options: PlainOptions,
    ) -> Result<InputText, PlainFault>
        ensures { IfOk result (λ input. (file : List ℕ) × MayOpen file × IsInputOf options.entry (kept_text file) input) }
    {
        let history = file.history(rt)?;
        options.given.check(&history)?;
        Ok(InputText::Entries(history))
    }

    /// What the reader has. It is a history if the text begins with `kovshenul `, and else a script, which is to be run
    /// with these options. Fails as [`Script::read`] does. A text of a history has to be whole and legal, and its
    /// numbers are those of the options that are given. `Text` names its first line at fault.
    pub fn read<R: Read + Drop>(
        alloc: Global,
        options: PlainOptions,
        reader: R,
    ) -> Result<InputText, PlainFault>
        ensures { (bytes : List ℕ) → R.remaining reader ≡ Some bytes → IfOk result (IsInputOf options.entry bytes) }
    {
        let mut reader = reader;
        let front = read_front(alloc, &mut reader)?;
        let is_history = front.as_slice() == MARK;
        let whole = Cursor::new(front).chain(reader);
        if is_history {
            InputText::read_entries(alloc, options, whole)
        } else {
            InputText::read_lines(alloc, options, whole)
        }
    }

    // The script that the reader has.
    fn read_lines<R: Read + Drop>(
        alloc: Global,
        options: PlainOptions,
        reader: R,
    ) -> Result<InputText, PlainFault>
        ensures { (bytes : List ℕ) → R.remaining reader ≡ Some bytes → IfOk result (IsInputOf options.entry bytes) }
    {
        let script = Script::read(alloc, options, reader)?;
        Ok(InputText::Lines(script))
    }

    // The history whose text the reader has, if the options agree with it.
    fn read_entries<R: Read + Drop>(
        alloc: Global,
        options: PlainOptions,
        reader: R,
    ) -> Result<InputText, PlainFault>
        ensures { (bytes : List ℕ) → R.remaining reader ≡ Some bytes → IfOk result (IsInputOf options.entry bytes) }
    {
        let history = history_in(alloc, reader)?;
        options.given.check(&history)?;
        Ok(InputText::Entries(history))
    }
}

// As many of the reader's first bytes as the mark has, or all if these are fewer.
fn read_front<R: Read>(alloc: Global, reader: &mut R) -> io::Result<Vec<u8>>
    ensures { IfOk result (λ front. FetchesPiece [] (R.remaining reader.old) front.items (R.remaining reader.new)) }
{
    let mut front = Vec::new(alloc);
    for _ in 0..u64::MAX {
        if front.len() == MARK.len() {
            return Ok(front);
        }
        if read_byte(reader, &mut front)? {
            return Ok(front);
        }
    }
    Ok(front)
}

// Adds the next byte of a reader, if it has one. The answer is whether it has none. An interruption adds none.
fn read_byte<R: Read>(reader: &mut R, front: &mut Vec<u8>) -> io::Result<bool>
    ensures { OnOk result (FetchesPiece front.old.items (R.remaining reader.old) front.new.items (R.remaining reader.new)) }
{
    let mut byte = [0];
    match reader.read(&mut byte) {
        Ok(count) => add_some(front, &byte, count),
        Err(error) if error.kind() == ErrorKind::Interrupted => Ok(false),
        Err(error) => Err(error),
    }
}

// Adds so many of the bytes. The answer is whether it adds none.
fn add_some(front: &mut Vec<u8>, bytes: &[u8], count: usize) -> io::Result<bool>
    requires { count ≤ length bytes.now }
    ensures { OnOk result (front.new.items ≡ front.old.items ++ take count bytes.now) }
{
    front.extend_from_slice(&bytes[..count])?;
    Ok(count == 0)
}

// The history whose text a reader has.
fn history_in<R: Read + Drop>(alloc: Global, reader: R) -> Result<History, PlainFault>
    ensures { (bytes : List ℕ) → R.remaining reader ≡ Some bytes → IfOk result (IsTextOf bytes) }
{
    let Ok(mut reader) = BufReader::with_capacity(alloc, BLOCK, reader) else {
        return Err(PlainFault::OutOfMemory(AllocError));
    };
    let history = read_history(alloc, &mut reader)?;
    Ok(history)
}
