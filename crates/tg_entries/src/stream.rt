//! An audit of all lines of a reader.
ghost use Rattle.std.specs.Prelude.{◌≡◌, ◌<◌, ◌++◌, [], List, ℕ, Bool, IfOk, IfSome, OnOk};
ghost use Rattle.tg_entries.specs.Read.{CanSave, EndsText, ReadsOn, HasEnded, HasRead, HasReadAll};
ghost use Rattle.tg_entries.specs.Kept.{IsTextOf};
ghost use Rattle.tg_entries.specs.Texts.{IsAudited, IsSavedAfter};

use crate::audit::TextAudit;
use crate::fault::{LineFault, LongFault, TextFault};
use crate::kept::{History, Means};
use crate::piece::{drop_front, read_some};
use crate::read::{MOST_KEPT_BYTES, text_len};
use crate::stage::Entered;
use std::alloc::{AllocError, Global};
use std::io::{self, BufRead};
use std::marker::Brand;
use std::sync::ledger::{Blank, Ledger};
use tg_snapshot::Snapshot;
use tg_text::Count;

/// Reads the text of a history to its end, and returns how many entries it has. `Ok` is returned only if the text is
/// that of a legal history. The history is of the opening that the text gives, or of the graph that its snapshot shows.
/// Otherwise the answer is the first line at fault, or that the end is cut off. An error of the reader says nothing
/// about the text.
pub fn audit_text<R: BufRead + Drop>(alloc: Global, reader: &mut R) -> Result<u64, TextFault>
    ensures { IfOk result (λ count. IfSome (R.remaining reader.old) (λ text. IsAudited text count)) }
{
    let entered = audit_named::<Brand, R>(Means::auditing(alloc), Blank::new(1), reader)?;
    Ok(entered.count)
}

/// Reads the text of a history to its end, as [`audit_text`] does, and returns the snapshot after its last entry. The
/// next part of the history goes on from this snapshot. Faults are those of `audit_text`.
pub fn audit_to_snapshot<R: BufRead + Drop>(
    alloc: Global,
    reader: &mut R,
) -> Result<Snapshot, TextFault>
    ensures saved { IfOk result (λ snapshot. IfSome (R.remaining reader.old) (λ text. IsSavedAfter text snapshot)) }
    ensures all { OnOk result (HasReadAll (R.remaining reader.old) (R.remaining reader.new)) }
{
    let entered = audit_named::<Brand, R>(Means::auditing(alloc), Blank::new(1), reader)?;
    match snapshot_after(&entered) {
        Ok(snapshot) => Ok(snapshot),
        Err(error) => Err(TextFault::Stream(error.into())),
    }
}

/// Reads the text of a history to its end, as [`audit_text`] does, and returns the history. `Ok` is returned only if
/// the text is that of exactly this history, and the history is legal. Count lines and the sum of the part before
/// aren't kept. Memory grows with the entries. Faults are those of `audit_text`.
pub fn read_history<R: BufRead + Drop>(alloc: Global, reader: &mut R) -> Result<History, TextFault>
    ensures read { IfOk result (λ history. IfSome (R.remaining reader.old) (λ text. IsTextOf text history)) }
    ensures all { OnOk result (HasReadAll (R.remaining reader.old) (R.remaining reader.new)) }
{
    let entered = audit_named::<Brand, R>(Means::keeping(alloc), Blank::new(1), reader)?;
    match entered.history() {
        Some(history) => Ok(history),
        // An audit that is asked to keep its history does so.
        None => unreachable!(),
    }
}

// The snapshot of what the audit has come to. Fails only when out of memory.
fn snapshot_after(entered: &Entered) -> Result<Snapshot, AllocError>
    requires { CanSave entered.now }
    ensures { (keeps : Bool) (text : List ℕ) → HasEnded keeps text entered.now → IfOk result (IsSavedAfter text) }
{
    let shown = entered.auditor.snapshot()?;
    match shown {
        Some(snapshot) => Ok(snapshot),
        // An audit of a legal history always has a snapshot.
        None => unreachable!(),
    }
}

/// Reads all lines. The ledger names the audit's buffer.
pub(crate) fn audit_named<L: Ledger, R: BufRead + Drop>(
    means: Means,
    blank: Blank,
    reader: &mut R,
) -> Result<Entered, TextFault>
    requires name { blank.name ≡ L.name }
    requires parts { blank.parts ≡ L.parts }
    requires some { 0 < blank.parts }
    ensures { IfOk result (EndsText means.keeps (R.remaining reader.old) (R.remaining reader.new)) }
{
    let mut audit = TextAudit::<L>::by(means, Count::<L>::new(blank));
    let mut line = Vec::new(means.alloc);
    audit_lines(&mut audit, reader, &mut line)
}

// All lines, each of which is kept in turn, or only its front.
fn audit_lines<L: Ledger, R: BufRead + Drop>(
    audit: &mut TextAudit<L>,
    reader: &mut R,
    line: &mut Vec<u8>,
) -> Result<Entered, TextFault>
    requires { HasRead [] audit.old }
    ensures { IfOk result (EndsText audit.old.keeps (R.remaining reader.old) (R.remaining reader.new)) }
{
    for number in 1..u64::MAX {
        line.clear();
        if read_some(reader, MOST_KEPT_BYTES, line)? {
            return ended(audit, number, line.as_slice());
        }
        audit_line(audit, number, reader, line)?;
    }
    Err(TextFault::CutOff { line: u64::MAX })
}

// The audit, where the text ends with this of the line of this number.
fn ended<L: Ledger>(
    audit: &mut TextAudit<L>,
    number: u64,
    line: &[u8],
) -> Result<Entered, TextFault>
    ensures { (text : List ℕ) → HasRead text audit.old → IfOk result (HasEnded audit.old.keeps (text ++ line.now)) }
{
    if !line.is_empty() {
        return Err(TextFault::CutOff { line: number });
    }
    match audit.finish() {
        Some(entered) => Ok(entered),
        None => Err(TextFault::CutOff { line: number }),
    }
}

// The line of this number, of which the front is at hand, or all.
fn audit_line<L: Ledger, R: BufRead>(
    audit: &mut TextAudit<L>,
    number: u64,
    reader: &mut R,
    line: &mut Vec<u8>,
) -> Result<(), TextFault>
    ensures read { (text : List ℕ) → HasRead text audit.old → OnOk result (ReadsOn audit.old.keeps text line.old.items (R.remaining reader.old) (R.remaining reader.new) audit.new.stage) }
    ensures keeps { audit.new.keeps ≡ audit.old.keeps }
{
    if !line.ends_with(b"\n") {
        return audit_long(audit, number, reader, line);
    }
    match audit.line(line.as_slice()) {
        Ok(()) => Ok(()),
        Err(why) => Err(TextFault::Line {
            line: why.line(number),
            why,
        }),
    }
}

// The line of this number, which is longer than those that are kept whole.
fn audit_long<L: Ledger, R: BufRead>(
    audit: &mut TextAudit<L>,
    number: u64,
    reader: &mut R,
    line: &mut Vec<u8>,
) -> Result<(), TextFault>
    ensures read { (text : List ℕ) → HasRead text audit.old → OnOk result (ReadsOn audit.old.keeps text line.old.items (R.remaining reader.old) (R.remaining reader.new) audit.new.stage) }
    ensures keeps { audit.new.keeps ≡ audit.old.keeps }
{
    match audit.long_line(reader, line) {
        Ok(()) => Ok(()),
        Err(LongFault::Stream(error)) => Err(TextFault::Stream(error)),
        Err(LongFault::Line(why)) => Err(long_fault(number, why, skip_line(reader, line)?)),
    }
}

// The fault of a long line, whose rest was skipped. Bytes that are no characters are a bad line, whatever the entry.
fn long_fault(number: u64, why: LineFault, rest: Option<bool>) -> TextFault {
    let Some(is_text) = rest else {
        return TextFault::CutOff { line: number };
    };
    let why = match why {
        LineFault::BadEntry { .. } if !is_text => LineFault::BadLine,
        other => other,
    };
    TextFault::Line { line: number, why }
}

// Reads the rest of a line, of which these bytes are at hand, and keeps none of it. Whether all of them are characters.
// It is `None` if the text ends before the line does.
fn skip_line<R: BufRead>(reader: &mut R, line: &mut Vec<u8>) -> io::Result<Option<bool>> {
    let mut is_text = true;
    for _ in 0..u64::MAX {
        let is_whole = line.ends_with(b"\n");
        is_text = drop_text(line) && is_text;
        if is_whole {
            return Ok(Some(is_text));
        }
        if read_some(reader, MOST_KEPT_BYTES, line)? {
            return Ok(None);
        }
    }
    Ok(None)
}

// Drops the characters that are whole, where these bytes are characters. Else drops all, and answers `false`.
fn drop_text(line: &mut Vec<u8>) -> bool {
    match text_len(line.as_slice()) {
        Some(len) => {
            drop_front(line, len);
            true
        }
        None => {
            line.clear();
            false
        }
    }
}
