//! An audit of the bytes of a kept file.
ghost use Rattle.std.specs.Prelude.{◌≡◌, ◌<◌, ◌++◌, [], List, ℕ, Some, IsTrue, IfOk, IfErr, OnOk, length};
ghost use Rattle.std.specs.List.{flat_map};
ghost use Rattle.tg_entries.specs.Read.{HasRead};
ghost use Rattle.tg_entries.specs.Texts.{IsAudited, end_text};
ghost use Rattle.tg_keep.specs.Lines.{file_texts, texts_after};
ghost use Rattle.tg_keep.specs.Opened.{MayOpen};
ghost use Rattle.tg_keep.specs.Reports.{IsReportOn};
ghost use Rattle.tg_found.specs.Kept.{RefusesKept, ended_line, entries_in, kept_text, text_before_end};
ghost use Rattle.tgaudit.specs.Kept.{IsAfterFirst, NamesLine};

use std::alloc::{AllocError, Global};
use std::marker::Brand;
use std::sync::ledger::{Blank, Ledger};
use tg_entries::{LineFault, TextAudit, VERSION};
use tg_found::{KeptFault, begins_with_digit, end_line};
use tg_keep::{FileFault, FileReport, LineReader, report_of};
use tg_text::Count;

/// The report on a kept file whose lines are a legal history. It has the number of entries, and the report on the
/// bytes.
#[derive(Clone, Copy, Drop)]
pub(crate) struct KeptAudit<'a> {
    pub(crate) entries: usize,
    pub(crate) report: FileReport<'a>,
}

// How many lines of a file were passed, and how many of them are entries.
#[derive(Clone, Copy, Drop)]
pub(crate) struct PassedLines {
    pub(crate) lines: usize,
    pub(crate) entries: usize,
}

/// Audits the bytes of a kept file. `Ok` is returned only if the file may be opened, and if its lines are the text of a
/// legal history. A mark among the lines has to have the number of entries before it. `File` says that the file isn't
/// one of ours or is damaged, as [`report_of`] does. `Line` names the first line that doesn't go on with the lines
/// before it. `NoOpening` says that the opening isn't whole.
pub(crate) fn audit_kept(alloc: Global, file: &[u8]) -> Result<KeptAudit, KeptFault>
    ensures legal { IfOk result (λ kept. IsAudited (kept_text file.now) kept.entries) }
    ensures report { IfOk result (λ kept. IsReportOn file.now kept.report) }
    ensures opens { OnOk result (MayOpen file.now) }
    ensures refused { IfErr result (RefusesKept file.now) }
{
    match report_of(file) {
        Ok(report) => {
            let entries = audit_named::<Brand>(alloc, Blank::new(1), file)?;
            Ok(KeptAudit { entries, report })
        }
        Err(why) => Err(KeptFault::File(why)),
    }
}

// Audits the lines. Returns how many entries they have. The ledger names the audit's buffer.
fn audit_named<L: Ledger>(alloc: Global, blank: Blank, file: &[u8]) -> Result<usize, KeptFault>
    requires name { blank.name ≡ L.name }
    requires parts { blank.parts ≡ L.parts }
    requires some { 0 < blank.parts }
    ensures legal { IfOk result (λ entries. IsAudited (kept_text file.now) entries) }
    ensures refused { IfErr result (RefusesKept file.now) }
{
    let mut audit = TextAudit::<L>::new(alloc, Count::<L>::new(blank));
    let mut line = Vec::new(alloc);
    audit_all(alloc, &mut audit, &mut line, file)
}

// Audits the lines as the text of a history, which is ended here by the number of entries.
fn audit_all<L: Ledger>(
    alloc: Global,
    audit: &mut TextAudit<L>,
    line: &mut Vec<u8>,
    file: &[u8],
) -> Result<usize, KeptFault>
    requires { HasRead [] audit.old }
    ensures legal { IfOk result (λ entries. IsAudited (kept_text file.now) entries) }
    ensures refused { IfErr result (RefusesKept file.now) }
{
    let passed = audit_lines(audit, line, file)?;
    match is_ended(alloc, audit, passed.entries) {
        Ok(true) => Ok(passed.entries),
        Ok(false) => Err(KeptFault::NoOpening {
            lines: passed.lines,
        }),
        Err(AllocError) => Err(KeptFault::File(FileFault::OutOfMemory)),
    }
}

// Reads the last line of a text, which has so many entries. Whether the text may end with it.
fn is_ended<L: Ledger>(
    alloc: Global,
    audit: &mut TextAudit<L>,
    entries: usize,
) -> Result<bool, AllocError>
    ensures { (text : List ℕ) → HasRead text audit.old → IfOk result (λ ended. IsTrue ended → IsAudited (text ++ end_text entries) entries) }
{
    let last = end_line(alloc, entries)?;
    match audit.line(last.as_bytes()) {
        Ok(()) => Ok(has_count(audit.ended(), entries)),
        Err(LineFault::OutOfMemory) => Err(AllocError),
        Err(_) => Ok(false),
    }
}

// Whether an audit has ended with so many entries.
fn has_count(ended: Option<u64>, entries: usize) -> bool
    ensures { IsTrue result → ended ≡ Some entries }
{
    match ended {
        Some(count) => count == entries as u64,
        None => false,
    }
}

// Audits the lines of a file. The text of a history has another first line.
fn audit_lines<L: Ledger>(
    audit: &mut TextAudit<L>,
    line: &mut Vec<u8>,
    file: &[u8],
) -> Result<PassedLines, KeptFault>
    requires { HasRead [] audit.old }
    ensures read { OnOk result (HasRead (text_before_end file.now) audit.new) }
    ensures lines { IfOk result (λ passed. passed.lines ≡ length (file_texts file.now)) }
    ensures entries { IfOk result (λ passed. passed.entries ≡ entries_in file.now) }
    ensures refused { IfErr result (RefusesKept file.now) }
{
    let mut reader = LineReader::new(file);
    let Some(_) = reader.next() else {
        return Err(KeptFault::File(FileFault::NotKept));
    };
    match audit.line(VERSION) {
        Ok(()) => audit_rest(audit, line, file, &mut reader),
        Err(why) => Err(KeptFault::Line {
            line: 1,
            byte: 0,
            why,
        }),
    }
}

// Audits the lines after the first.
fn audit_rest<L: Ledger>(
    audit: &mut TextAudit<L>,
    line: &mut Vec<u8>,
    file: &[u8],
    reader: &mut LineReader,
) -> Result<PassedLines, KeptFault>
    requires { IsAfterFirst file.now reader.old.sum.digits reader.old.left.now }
    ensures read { (text : List ℕ) → HasRead text audit.old → OnOk result (HasRead (text ++ flat_map ended_line (texts_after reader.old.sum.digits reader.old.left.now)) audit.new) }
    ensures lines { IfOk result (λ passed. passed.lines ≡ length (file_texts file.now)) }
    ensures entries { IfOk result (λ passed. passed.entries ≡ entries_in file.now) }
    ensures refused { IfErr result (RefusesKept file.now) }
{
    let mut lines = 1;
    let mut entries = 0;
    let mut byte = file.len() - reader.left.len();
    while let Some(text) = reader.next() {
        lines += 1;
        audit_at(audit, line, text, lines, byte)?;
        entries += usize::from(begins_with_digit(text));
        byte = file.len() - reader.left.len();
    }
    Ok(PassedLines { lines, entries })
}

// Audits a line with this text, which has this number and begins at this byte.
fn audit_at<L: Ledger>(
    audit: &mut TextAudit<L>,
    buffer: &mut Vec<u8>,
    text: &[u8],
    line: usize,
    byte: usize,
) -> Result<(), KeptFault>
    ensures read { (before : List ℕ) → HasRead before audit.old → OnOk result (HasRead (before ++ ended_line text.now) audit.new) }
    ensures at { IfErr result (NamesLine line byte) }
{
    match audit_text(audit, buffer, text) {
        Ok(()) => Ok(()),
        Err(why) => Err(KeptFault::Line { line, byte, why }),
    }
}

// Audits a line with this text.
fn audit_text<L: Ledger>(
    audit: &mut TextAudit<L>,
    line: &mut Vec<u8>,
    text: &[u8],
) -> Result<(), LineFault>
    ensures { (before : List ℕ) → HasRead before audit.old → OnOk result (HasRead (before ++ ended_line text.now) audit.new) }
{
    line.clear();
    line.extend_from_slice(text)?;
    line.extend_from_slice(b"\n")?;
    audit.line(line.as_slice())
}
