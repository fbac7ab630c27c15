//! The history that a kept file says.
ghost use Rattle.std.specs.Prelude.{IfOk, IfErr, IfSome, OnOk};
ghost use Rattle.tg_entries.specs.Kept.{IsTextOf};
ghost use Rattle.tg_keep.specs.Opened.{MayOpen};
ghost use Rattle.tg_found.specs.Kept.{IsTornAt, RefusesKept, kept_text};

use crate::fault::KeptFault;
use crate::text::kept_text;
use crate::torn::TornEnd;
use std::alloc::Global;
use tg_entries::{History, LineFault, TextFault, read_history};
use tg_keep::{FileFault, LineReader, report_of};

/// The history that a kept file says, and the end of the file that was cut off, if there is such an end.
#[derive(Drop)]
pub struct KeptHistory {
    pub history: History,
    pub torn: Option<TornEnd>,
}

/// The history that the bytes of a kept file say, up to the last whole line. `Ok` is returned only if the file may be
/// opened, and if its lines are the text of exactly this history, which is legal. A mark among the lines has to have
/// the number of entries before it. `File` says that the file isn't one of ours or is damaged, as [`report_of`] does.
/// `Line` names a line that doesn't go on with the lines before it. `NoOpening` says that the opening isn't whole.
/// Memory grows with the file and with the entries.
pub fn kept_history(alloc: Global, file: &[u8]) -> Result<KeptHistory, KeptFault>
    ensures text { IfOk result (λ kept. IsTextOf (kept_text file.now) kept.history) }
    ensures opens { OnOk result (MayOpen file.now) }
    ensures torn { IfOk result (λ kept. IfSome kept.torn (IsTornAt file.now)) }
    ensures refused { IfErr result (RefusesKept file.now) }
{
    let report = report_of(file)?;
    let text = kept_text(alloc, file)?;
    let history = history_in(alloc, file, text.as_slice())?;
    Ok(KeptHistory {
        history,
        torn: TornEnd::of(file, &report),
    })
}

// The history whose text this is. The fault is one of the file that says the text.
fn history_in(alloc: Global, file: &[u8], text: &[u8]) -> Result<History, KeptFault>
    ensures text { IfOk result (IsTextOf text.now) }
    ensures refused { IfErr result (RefusesKept file.now) }
{
    let mut reader = text;
    match read_history(alloc, &mut reader) {
        Ok(history) => Ok(history),
        Err(fault) => Err(fault_in(file, fault)),
    }
}

// The fault of a file, where this is the fault of its text. A line of the text after those of the file is the number of
// entries, which is bad only within an opening.
fn fault_in(file: &[u8], fault: TextFault) -> KeptFault
    ensures { RefusesKept file.now result }
{
    match fault {
        TextFault::Line { line, why } => fault_of_line(file, line as usize, why),
        TextFault::Stream(error) => KeptFault::File(FileFault::Io(error)),
        TextFault::CutOff { line } => fault_of_line(file, line as usize, LineFault::BadLine),
        TextFault::NoSum | TextFault::OtherSum => {
            fault_of_line(file, usize::MAX, LineFault::BadLine)
        }
    }
}

// The fault of the line of this number, if the file has such a line. Else the opening isn't whole.
fn fault_of_line(file: &[u8], number: usize, why: LineFault) -> KeptFault
    ensures { RefusesKept file.now result }
{
    let mut reader = LineReader::new(file);
    let mut lines = 0;
    let mut byte = 0;
    while let Some(_) = reader.next() {
        lines += 1;
        if lines == number {
            return KeptFault::Line {
                line: lines,
                byte,
                why,
            };
        }
        byte = file.len() - reader.left.len();
    }
    KeptFault::NoOpening { lines }
}
